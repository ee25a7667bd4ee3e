//! Literals.
ghost use Rattle.std.specs.Prelude.{◌≡◌, OnErr, IfOk};
ghost use Rattle.og_syntax.specs.Reading.{Gives, by};
ghost use Rattle.og_syntax.specs.Reader as spec;
ghost use Rattle.og_syntax.specs.Spans.{of_form, day_value_from, point_value_from, period_value_from};
ghost use Rattle.og_syntax.specs.TextValues.{day_of, point_of, period_of};

use crate::lexeme::{Lexeme, Sort};
use crate::reading::Reading;
use crate::refusal::Refusal;
use crate::spelling::{quoted, text};
use crate::step::{expect, one, same_sort, sort_at};
use og_base::{ExtDay, read_day};
use og_time::{OngoingPeriod, OngoingPoint, read_period, read_point};
use og_value::Value;

// The fixed point of a day text.
fn day_value(text: &[u8]) -> Option<Value>
    ensures { result ≡ day_value_from (day_of text.now) }
{
    match read_day(text) {
        Ok(day) => Some(Value::Point(fixed(day))),
        Err(_) => None,
    }
}

// The point that is this day on each day.
fn fixed(day: ExtDay) -> OngoingPoint
    ensures { result ≡ record { low = day; high = day } }
{
    let Some(point) = OngoingPoint::new(day, day) else {
        unreachable!()
    };
    point
}

// The point of a point text.
fn point_value(text: &[u8]) -> Option<Value>
    ensures { result ≡ point_value_from (point_of text.now) }
{
    match read_point(text) {
        Ok(point) => Some(Value::Point(point)),
        Err(_) => None,
    }
}

// The period of a period text.
fn period_value(text: &[u8]) -> Option<Value>
    ensures { result ≡ period_value_from (period_of text.now) }
{
    match read_period(text) {
        Ok(period) => Some(Value::Period(period)),
        Err(_) => None,
    }
}

// The literal after DATE.
#[tactic(auto, unfolding(crate::specs::Reader::day_lit))]
fn day_literal<'a>(
    reading: &Reading<'_>,
    lexemes: &'a [Lexeme],
) -> Result<(Value, &'a [Lexeme]), Refusal>
    ensures { Gives result (by reading.now spec.day_lit lexemes.now) }
{
    let rest = expect(lexemes, Sort::Date)?;
    let (text, rest) = quoted(reading, rest)?;
    if !reading.literals.is_strict() {
        return Ok((Value::Int(0), rest));
    }
    match day_value(text.as_slice()) {
        Some(value) => Ok((value, rest)),
        None => Err(Refusal::Syntax),
    }
}

// The literal after ONGOING.
#[tactic(auto, unfolding(crate::specs::Reader::point_lit))]
fn point_literal<'a>(
    reading: &Reading<'_>,
    lexemes: &'a [Lexeme],
) -> Result<(Value, &'a [Lexeme]), Refusal>
    ensures { Gives result (by reading.now spec.point_lit lexemes.now) }
{
    let rest = expect(lexemes, Sort::Ongoing)?;
    let (text, rest) = quoted(reading, rest)?;
    if !reading.literals.is_strict() {
        return Ok((Value::Int(0), rest));
    }
    match point_value(text.as_slice()) {
        Some(value) => Ok((value, rest)),
        None => Err(Refusal::Syntax),
    }
}

// The literal after PERIOD.
#[tactic(auto, unfolding(crate::specs::Reader::period_lit))]
fn period_literal<'a>(
    reading: &Reading<'_>,
    lexemes: &'a [Lexeme],
) -> Result<(Value, &'a [Lexeme]), Refusal>
    ensures { Gives result (by reading.now spec.period_lit lexemes.now) }
{
    let rest = expect(lexemes, Sort::Period)?;
    let (text, rest) = quoted(reading, rest)?;
    if !reading.literals.is_strict() {
        return Ok((Value::Int(0), rest));
    }
    match period_value(text.as_slice()) {
        Some(value) => Ok((value, rest)),
        None => Err(Refusal::Syntax),
    }
}

/// The literal that the lexemes begin with, and the lexemes after it. Leniently, a number stands for
/// each text after DATE, ONGOING and PERIOD, whatever it is.
#[tactic(auto, unfolding(crate::specs::Reader::lit))]
pub fn literal<'a>(
    reading: &Reading<'_>,
    lexemes: &'a [Lexeme],
) -> Result<(Value, &'a [Lexeme]), Refusal>
    ensures { Gives result (by reading.now spec.lit lexemes.now) }
{
    let sort = sort_at(lexemes);
    if same_sort(sort, Sort::Number) {
        let (lexeme, rest) = one(lexemes, Sort::Number)?;
        return Ok((Value::Int(lexeme.number), rest));
    }
    if same_sort(sort, Sort::Quoted) {
        let (text, rest) = text(reading, lexemes)?;
        return Ok((Value::Text(text), rest));
    }
    if same_sort(sort, Sort::Date) {
        return day_literal(reading, lexemes);
    }
    if same_sort(sort, Sort::Ongoing) {
        return point_literal(reading, lexemes);
    }
    period_literal(reading, lexemes)
}
