//! The rows of INSERT.
ghost use Rattle.og_syntax.specs.declared.lexeme.Sort.{Sort};
ghost use Rattle.og_syntax.specs.Lexemes.{is, sort_at};
ghost use Rattle.og_syntax.specs.Reading.{Gives, by, past, more, with_front};
ghost use Rattle.og_parse.specs.StatementReader as spec;
ghost use Rattle.og_syntax.specs.Reader.{lit};

use og_syntax::{
    Lexeme, Parts, Reading, Refusal, Sort, expect, literal, more_parts, same_sort, sort_at,
};
use og_value::{Row, Value};
use sqlite_items::Items;

// Tuples with commas between them.
#[tactic(auto, unfolding(crate::specs::StatementReader::tuples))]
pub fn tuples<'a>(
    reading: &Reading<'_>,
    lexemes: &'a [Lexeme],
) -> Result<(Items<Row>, &'a [Lexeme]), Refusal>
    ensures { Gives result (by reading.now spec.tuples lexemes.now) }
{
    let (first, rest) = tuple(reading, lexemes)?;
    let mut parts = Items::new(reading.alloc);
    parts.push(first)?;
    more_parts(reading, &FurtherTuples, rest, parts)
}

// Further tuples, each after a comma.
#[derive(Clone, Copy)]
struct FurtherTuples;

impl Parts for FurtherTuples {
    type Part = Row;

    ghost begins = { λ _ ts. is Sort.Comma (sort_at ts) };

    ghost part = { λ _ script strict. past Sort.Comma (spec.tuple script strict) };

    fn begins(&self, lexemes: &[Lexeme]) -> bool {
        same_sort(sort_at(lexemes), Sort::Comma)
    }

    fn part<'a>(
        &self,
        reading: &Reading<'_>,
        lexemes: &'a [Lexeme],
    ) -> Result<(Row, &'a [Lexeme]), Refusal> {
        let rest = expect(lexemes, Sort::Comma)?;
        tuple(reading, rest)
    }
}

// Literals in parentheses.
#[tactic(auto, unfolding(crate::specs::StatementReader::tuple))]
fn tuple<'a>(reading: &Reading<'_>, lexemes: &'a [Lexeme]) -> Result<(Row, &'a [Lexeme]), Refusal>
    ensures { Gives result (by reading.now spec.tuple lexemes.now) }
{
    let rest = expect(lexemes, Sort::LeftParen)?;
    let (row, rest) = lits(reading, rest)?;
    let rest = expect(rest, Sort::RightParen)?;
    Ok((row, rest))
}

// Literals with commas between them.
#[tactic(auto, unfolding(crate::specs::StatementReader::lits))]
fn lits<'a>(reading: &Reading<'_>, lexemes: &'a [Lexeme]) -> Result<(Row, &'a [Lexeme]), Refusal>
    ensures { Gives result (by reading.now spec.lits lexemes.now) }
{
    let (first, rest) = literal(reading, lexemes)?;
    let mut parts = Vec::new(reading.alloc);
    parts.push(first)?;
    more_lits(reading, rest, parts)
}

// Further literals, each after a comma, behind those that were read before.
#[tactic(auto, using(og_syntax::proofs::Loops::turns), unfolding(og_syntax::specs::Reading::more_if))]
fn more_lits<'a>(
    reading: &Reading<'_>,
    lexemes: &'a [Lexeme],
    parts: Vec<Value>,
) -> Result<(Row, &'a [Lexeme]), Refusal>
    ensures { Gives result (with_front parts.items (more (is Sort.Comma) (past Sort.Comma (by reading.now lit)) lexemes.now)) }
{
    let mut parts = parts;
    let mut rest = lexemes;
    let mut turns = lexemes.len();
    'more: while turns > 0 && same_sort(sort_at(rest), Sort::Comma) {
        let (part, left) = further_literal(reading, rest)?;
        parts.push(part)?;
        rest = left;
        turns -= 1;
    }
    Ok((Row::of(parts), rest))
}

// A literal after a comma.
fn further_literal<'a>(
    reading: &Reading<'_>,
    lexemes: &'a [Lexeme],
) -> Result<(Value, &'a [Lexeme]), Refusal>
    ensures { Gives result (past Sort.Comma (by reading.now lit) lexemes.now) }
{
    let rest = expect(lexemes, Sort::Comma)?;
    literal(reading, rest)
}
