//! Values, rows and relations.
ghost use Rattle.std.specs.Prelude.{◌≡◌};
ghost use Rattle.og_sql_outside.specs.Outside.{first_in, has_nul, outside_day, outside_lower, outside_pair, outside_point, outside_range, outside_ranges, outside_rel, outside_row, outside_rows, outside_text, outside_value};

use og_base::{DayRange, ExtDay, RefDay, RtSet};
use og_rel::{Pair, Rel};
use og_time::OngoingPoint;
use og_value::{Row, Text, Value};

// The number of -004713-11-24.
const FIRST_HELD: i32 = -2_440_588;

/// What PostgreSQL cannot hold.
#[derive(Clone, Copy, Debug, PartialEq, Eq)]
pub enum Outside {
    /// A day before -004713-11-24, the first day of PostgreSQL.
    Day(ExtDay),
    /// A text with a byte 0.
    Nul,
}

// The day, where it is before the first day. The infinite past is held.
pub(crate) fn day_outside(day: ExtDay) -> Option<Outside>
    ensures { result ≡ outside_day day }
{
    if day > ExtDay::NEG && day.number() < FIRST_HELD {
        return Some(Outside::Day(day));
    }
    None
}

// A byte 0, where the text has one.
fn text_outside(text: &Text) -> Option<Outside>
    ensures { result ≡ outside_text text.now }
{
    if has_nul(text.bytes()) {
        return Some(Outside::Nul);
    }
    None
}

// Whether one of the bytes is 0.
fn has_nul(bytes: &[u8]) -> bool
    ensures { result ≡ has_nul bytes.now }
{
    bytes.iter().any(|b| *b == 0)
}

// The first end of the point that cannot be held.
fn point_outside(point: OngoingPoint) -> Option<Outside>
    ensures { result ≡ outside_point point }
{
    day_outside(point.low()).or(day_outside(point.high()))
}

// What of the value cannot be held.
pub(crate) fn value_outside(value: &Value) -> Option<Outside>
    ensures { result ≡ outside_value value.now }
{
    match value {
        Value::Int(_) => None,
        Value::Text(text) => text_outside(text),
        Value::Point(point) => point_outside(*point),
        Value::Period(period) => point_outside(period.start()).or(point_outside(period.end())),
    }
}

// The first value of the row that cannot be held.
#[tactic(auto, using(crate::proofs::FirstLemmas::firsts))]
fn row_outside(row: &Row) -> Option<Outside>
    ensures { result ≡ outside_row row.now }
{
    'values: for i in 0..row.len() {
        let found = value_outside(row.value(i));
        if found.is_some() {
            return found;
        }
    }
    None
}

/// The first value of the rows, in order, that PostgreSQL cannot hold.
#[tactic(auto, using(crate::proofs::FirstLemmas::firsts))]
pub fn rows_outside(rows: &[Row]) -> Option<Outside>
    ensures { result ≡ outside_rows rows.now }
{
    'rows: for row in rows {
        let found = row_outside(row);
        if found.is_some() {
            return found;
        }
    }
    None
}

/// The first value of a row of the relation, or end of a range of its days, that PostgreSQL cannot hold.
pub fn rel_outside(rel: &Rel<Row>) -> Option<Outside>
    ensures { result ≡ outside_rel rel.now }
{
    pairs_outside(rel.pairs())
}

// The first value or end of a range of the rows with their days that cannot be held.
#[tactic(auto, using(crate::proofs::FirstLemmas::firsts))]
fn pairs_outside(pairs: &[Pair<Row>]) -> Option<Outside>
    ensures { result ≡ first_in (λ p. outside_pair (p.row, p.days)) pairs.now }
{
    'pairs: for pair in pairs {
        let found = row_outside(&pair.row).or(days_outside(&pair.days));
        if found.is_some() {
            return found;
        }
    }
    None
}

// The first end of a range of the days that cannot be held.
#[tactic(auto, using(crate::proofs::FirstLemmas::firsts))]
fn days_outside(days: &RtSet) -> Option<Outside>
    ensures { result ≡ outside_ranges days.now }
{
    'days: for i in 0..days.range_count() {
        let found = range_outside(days.range(i));
        if found.is_some() {
            return found;
        }
    }
    None
}

// The first end of the range that cannot be held.
fn range_outside(range: DayRange) -> Option<Outside>
    ensures { result ≡ outside_range range }
{
    lower_outside(range.lo).or(day_outside(range.hi))
}

// The lower end of a range. A range from the first reference day on has none.
fn lower_outside(day: RefDay) -> Option<Outside>
    ensures { result ≡ outside_lower day }
{
    if day == RefDay::FIRST {
        return None;
    }
    day_outside(ExtDay::of(day))
}
