//! Values, and what they are on one day.
ghost use Rattle.std.specs.Prelude.{◌≡◌, ◌&&◌, ℤ, Bool, IfOk, IsTrue};
ghost use Rattle.std.specs.Bool.{Decides};
ghost use Rattle.og_base.specs.Calendar.{IsRefDay};
ghost use Rattle.og_base.specs.Ranges.{holds_day};
ghost use Rattle.og_value.specs.Values.{value_at};
ghost use Rattle.og_time.specs.Period.{period_at};

use crate::text::Text;
use og_base::{ExtDay, FixedPeriod, NoMemory, RefDay, RtSet};
use og_time::{OngoingBool, OngoingPeriod, OngoingPoint};
use std::alloc::Global;

/// A value of a row. A point and a period depend on the day.
#[derive(Debug, PartialEq, Eq, Drop)]
pub enum Value {
    /// A number, the same on all days.
    Int(i64),
    /// A text, the same on all days.
    Text(Text),
    /// A point: on each day a day.
    Point(OngoingPoint),
    /// A period: on each day a period of days.
    Period(OngoingPeriod),
}

/// A value on one day. Numbers come before texts, texts before days, days before periods; numbers and
/// days are ordered by number, texts by their bytes, periods by start, then end.
#[derive(Debug, PartialEq, Eq, PartialOrd, Ord, Drop)]
pub enum FixedValue {
    /// A number.
    Int(i64),
    /// A text.
    Text(Text),
    /// A day, or one of the two infinities.
    Date(ExtDay),
    /// A period of days.
    Period(FixedPeriod),
}

impl Value {
    /// The same value once more.
    pub fn copy(&self) -> Result<Value, NoMemory>
        ensures { IfOk result (λ v. v ≡ self.now) }
    {
        let copy = match self {
            Value::Int(n) => Value::Int(*n),
            Value::Text(text) => Value::Text(text.copy()?),
            Value::Point(point) => Value::Point(*point),
            Value::Period(period) => Value::Period(*period),
        };
        Ok(copy)
    }

    /// The value on the day.
    pub(crate) fn at(&self, d: RefDay) -> Result<FixedValue, NoMemory>
        ensures { IfOk result (λ x. x ≡ value_at self.now d) }
    {
        let fixed = match self {
            Value::Int(n) => FixedValue::Int(*n),
            Value::Text(text) => FixedValue::Text(text.copy()?),
            Value::Point(point) => FixedValue::Date(point.at(d)),
            Value::Period(period) => FixedValue::Period(period.at(d)),
        };
        Ok(fixed)
    }

    /// Of the days those on which both values are equal.
    pub(crate) fn same_within(
        &self,
        alloc: Global,
        other: &Value,
        days: RtSet,
    ) -> Result<RtSet, NoMemory>
        ensures { IfOk result (λ s. (d : ℤ) → IsRefDay d →
            (same : Bool) × (holds_day s d ≡ (holds_day days d && same)) × Decides same (value_at self.now d ≡ value_at other.now d)) }
    {
        if self.is_always(other) {
            return Ok(days);
        }
        days.meet(&self.same(alloc, other)?)
    }

    // Whether both values are written alike, and so are equal on all days.
    fn is_always(&self, other: &Value) -> bool
        ensures { IsTrue result → self.now ≡ other.now }
    {
        match (self, other) {
            (Value::Int(m), Value::Int(n)) => *m == *n,
            (Value::Text(m), Value::Text(n)) => *m == *n,
            (Value::Point(p), Value::Point(q)) => *p == *q,
            (Value::Period(i), Value::Period(j)) => are_alike(*i, *j),
            _ => false,
        }
    }

    // The days on which both values are equal.
    fn same(&self, alloc: Global, other: &Value) -> Result<RtSet, NoMemory>
        ensures { IfOk result (λ s. (d : ℤ) → IsRefDay d → Decides (holds_day s d) (value_at self.now d ≡ value_at other.now d)) }
    {
        match (self, other) {
            (Value::Int(m), Value::Int(n)) => all_or_none(alloc, *m == *n),
            (Value::Text(m), Value::Text(n)) => all_or_none(alloc, *m == *n),
            (Value::Point(p), Value::Point(q)) => RtSet::of_cut(alloc, &p.eq_days(*q)),
            (Value::Period(i), Value::Period(j)) => same_periods(alloc, *i, *j),
            _ => Ok(RtSet::empty(alloc)),
        }
    }
}

// Whether the periods are written alike.
fn are_alike(i: OngoingPeriod, j: OngoingPeriod) -> bool
    ensures { IsTrue result → i ≡ j }
{
    i.start() == j.start() && i.end() == j.end()
}

// All days, or none.
fn all_or_none(alloc: Global, all: bool) -> Result<RtSet, NoMemory>
    ensures { IfOk result (λ s. (d : ℤ) → IsRefDay d → holds_day s d ≡ all) }
{
    Ok(OngoingBool::constant(alloc, all)?.into_days())
}

// The days on which both periods have the same ends.
fn same_periods(alloc: Global, i: OngoingPeriod, j: OngoingPeriod) -> Result<RtSet, NoMemory>
    ensures { IfOk result (λ s. (d : ℤ) → IsRefDay d → Decides (holds_day s d) (period_at i d ≡ period_at j d)) }
{
    let starts = RtSet::of_cut(alloc, &i.start().eq_days(j.start()))?;
    let ends = RtSet::of_cut(alloc, &i.end().eq_days(j.end()))?;
    starts.meet(&ends)
}
