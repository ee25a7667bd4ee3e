//! The columns of CREATE TABLE.
ghost use Rattle.std.specs.Prelude.{◌≡◌};
ghost use Rattle.og_syntax.specs.declared.lexeme.Sort.{Sort};
ghost use Rattle.og_syntax.specs.Lexemes.{is, sort_at};
ghost use Rattle.og_syntax.specs.Reading.{Gives, past};
ghost use Rattle.og_parse.specs.StatementReader as spec;
ghost use Rattle.og_parse.specs.Statements as grammar;

use og_syntax::{
    Lexeme, Parts, Reading, Refusal, Sort, after, expect, more_parts, name, same_sort, sort_at,
};
use og_value::{Column, Kind};
use sqlite_items::Items;

// Columns with commas between them.
#[tactic(auto, unfolding(crate::specs::StatementReader::coldefs))]
pub fn coldefs<'a>(
    reading: &Reading<'_>,
    lexemes: &'a [Lexeme],
) -> Result<(Items<Column>, &'a [Lexeme]), Refusal>
    ensures { Gives result (spec.coldefs reading.now.script.now lexemes.now) }
{
    let (first, rest) = coldef(reading, lexemes)?;
    let mut parts = Items::new(reading.alloc);
    parts.push(first)?;
    more_parts(reading, &FurtherColumns, rest, parts)
}

// Further columns, each after a comma.
#[derive(Clone, Copy)]
struct FurtherColumns;

impl Parts for FurtherColumns {
    type Part = Column;

    ghost begins = { λ _ ts. is Sort.Comma (sort_at ts) };

    ghost part = { λ _ script _. past Sort.Comma (spec.coldef script) };

    fn begins(&self, lexemes: &[Lexeme]) -> bool {
        same_sort(sort_at(lexemes), Sort::Comma)
    }

    fn part<'a>(
        &self,
        reading: &Reading<'_>,
        lexemes: &'a [Lexeme],
    ) -> Result<(Column, &'a [Lexeme]), Refusal> {
        let rest = expect(lexemes, Sort::Comma)?;
        coldef(reading, rest)
    }
}

// A name and the word of its kind.
#[tactic(auto, unfolding(crate::specs::StatementReader::coldef, og_syntax::specs::Reading::worded))]
fn coldef<'a>(
    reading: &Reading<'_>,
    lexemes: &'a [Lexeme],
) -> Result<(Column, &'a [Lexeme]), Refusal>
    ensures { Gives result (spec.coldef reading.now.script.now lexemes.now) }
{
    let (name, rest) = name(reading, lexemes)?;
    let Some(kind) = kind_of(sort_at(rest)) else {
        return Err(Refusal::Syntax);
    };
    Ok((Column { name, kind }, after(rest)))
}

// The kind of a column by its word.
fn kind_of(sort: Sort) -> Option<Kind>
    ensures { result ≡ grammar.kind_of sort }
{
    match sort {
        Sort::Int => Some(Kind::Int),
        Sort::Text => Some(Kind::Text),
        Sort::Date => Some(Kind::Date),
        Sort::Period => Some(Kind::Period),
        _ => None,
    }
}
