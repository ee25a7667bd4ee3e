//! What stands at the end of several statements: WHERE, and AS OF with a day.
ghost use Rattle.std.specs.Prelude.{◌≡◌, pos};
ghost use Rattle.og_syntax.specs.Reading.{Gives, by, is_strict};
ghost use Rattle.og_parse.specs.StatementReader as spec;

use og_base::{RefDay, read_ref_day};
use og_lex::Unquoted;
use og_syntax::{
    CondText, Lexeme, Literals, Reading, Refusal, Sort, condition, expect, quoted, same_sort,
    sort_at,
};

// The condition after WHERE, where it is there.
#[tactic(auto, unfolding(crate::specs::StatementReader::where_cond))]
pub fn where_cond<'a>(
    reading: &Reading<'_>,
    lexemes: &'a [Lexeme],
) -> Result<(Option<CondText>, &'a [Lexeme]), Refusal>
    ensures { Gives result (by reading.now spec.where_cond lexemes.now) }
{
    if same_sort(sort_at(lexemes), Sort::Where) {
        let rest = expect(lexemes, Sort::Where)?;
        let (cond, rest) = condition(reading, rest)?;
        return Ok((Some(cond), rest));
    }
    Ok((None, lexemes))
}

// The day after AS OF. Leniently, the day with the number 0 stands for each text.
#[tactic(auto, unfolding(crate::specs::StatementReader::as_of))]
pub fn as_of<'a>(
    reading: &Reading<'_>,
    lexemes: &'a [Lexeme],
) -> Result<(RefDay, &'a [Lexeme]), Refusal>
    ensures { Gives result (by reading.now spec.as_of lexemes.now) }
{
    let (text, rest) = as_of_text(reading, lexemes)?;
    let Some(day) = day_by(reading.literals, text.as_slice()) else {
        return Err(Refusal::Syntax);
    };
    Ok((day, rest))
}

// The text of the day after AS OF.
#[tactic(auto, unfolding(crate::specs::StatementReader::as_of_text))]
fn as_of_text<'a, 's>(
    reading: &Reading<'s>,
    lexemes: &'a [Lexeme],
) -> Result<(Unquoted<'s>, &'a [Lexeme]), Refusal>
    ensures { Gives result (spec.as_of_text reading.now.script.now lexemes.now) }
{
    let rest = expect(lexemes, Sort::As)?;
    let rest = expect(rest, Sort::Of)?;
    let rest = expect(rest, Sort::Date)?;
    quoted(reading, rest)
}

// The day of that text, or, leniently, the day with the number 0.
fn day_by(literals: Literals, text: &[u8]) -> Option<RefDay>
    ensures { result ≡ spec.day_by (is_strict literals) (spec.ref_day_of text.now) }
{
    if literals.is_strict() {
        ref_day_of(text)
    } else {
        Some(day_0())
    }
}

// The reference day of a day text.
fn ref_day_of(text: &[u8]) -> Option<RefDay>
    ensures { result ≡ spec.ref_day_of text.now }
{
    read_ref_day(text).ok()
}

// The day with the number 0.
fn day_0() -> RefDay
    ensures { result ≡ pos 0 }
{
    let Some(day) = RefDay::from_number(0) else {
        unreachable!()
    };
    day
}
