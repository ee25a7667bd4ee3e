//! The assignments of UPDATE.
ghost use Rattle.og_syntax.specs.declared.lexeme.Sort.{Sort};
ghost use Rattle.og_syntax.specs.Lexemes.{is, sort_at};
ghost use Rattle.og_syntax.specs.Reading.{Gives, by, past};
ghost use Rattle.og_parse.specs.StatementReader as spec;

use og_syntax::{
    Lexeme, Parts, Reading, Refusal, SetText, Sort, expect, expression, more_parts, name,
    same_sort, sort_at,
};
use sqlite_items::Items;

// Assignments with commas between them.
#[tactic(auto, unfolding(crate::specs::StatementReader::sets))]
pub fn sets<'a>(
    reading: &Reading<'_>,
    lexemes: &'a [Lexeme],
) -> Result<(Items<SetText>, &'a [Lexeme]), Refusal>
    ensures { Gives result (by reading.now spec.sets lexemes.now) }
{
    let (first, rest) = set(reading, lexemes)?;
    let mut parts = Items::new(reading.alloc);
    parts.push(first)?;
    more_parts(reading, &FurtherSets, rest, parts)
}

// Further assignments, each after a comma.
#[derive(Clone, Copy)]
struct FurtherSets;

impl Parts for FurtherSets {
    type Part = SetText;

    ghost begins = { λ _ ts. is Sort.Comma (sort_at ts) };

    ghost part = { λ _ script strict. past Sort.Comma (spec.set script strict) };

    fn begins(&self, lexemes: &[Lexeme]) -> bool {
        same_sort(sort_at(lexemes), Sort::Comma)
    }

    fn part<'a>(
        &self,
        reading: &Reading<'_>,
        lexemes: &'a [Lexeme],
    ) -> Result<(SetText, &'a [Lexeme]), Refusal> {
        let rest = expect(lexemes, Sort::Comma)?;
        set(reading, rest)
    }
}

// A column and its new value.
#[tactic(auto, unfolding(crate::specs::StatementReader::set))]
fn set<'a>(reading: &Reading<'_>, lexemes: &'a [Lexeme]) -> Result<(SetText, &'a [Lexeme]), Refusal>
    ensures { Gives result (by reading.now spec.set lexemes.now) }
{
    let (column, rest) = name(reading, lexemes)?;
    let rest = expect(rest, Sort::Equal)?;
    let (expr, rest) = expression(reading, rest)?;
    Ok((SetText { column, expr }, rest))
}
