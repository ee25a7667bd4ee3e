//! Whether conditions hold of a row of one day.
ghost use Rattle.std.specs.Prelude.{◌≡◌, ℤ, IfOk, true};
ghost use Rattle.std.specs.List.{list_all, list_any};
ghost use Rattle.og_time.specs.FixedOperations.{is_empty_period, are_nonempty};
ghost use Rattle.og_query.specs.Conditions as meant;
ghost use Rattle.og_query.specs.Steady.{is_steady_cond};

use crate::condition::Cond;
use crate::values::value;
use og_base::{FixedPeriod, NoMemory};
use og_value::{Cmp, FixedRow, FixedValue, Pred};
use sqlite_items::Items;
use std::alloc::Global;
use std::cmp::Ordering;

/// Whether the comparison holds of two values that stand so.
pub fn allows(op: Cmp, order: Ordering) -> bool
    ensures { result ≡ meant.allows op order }
{
    match op {
        Cmp::Eq => order == Ordering::Equal,
        Cmp::Ne => order != Ordering::Equal,
        Cmp::Lt => order == Ordering::Less,
        Cmp::Le => order != Ordering::Greater,
        Cmp::Gt => order == Ordering::Greater,
        Cmp::Ge => order != Ordering::Less,
    }
}

// Whether both values are of one kind, other than periods, and compare so.
fn compares(op: Cmp, left: &FixedValue, right: &FixedValue) -> bool
    ensures { result ≡ meant.compares op left.now right.now }
{
    match (left, right) {
        (FixedValue::Int(m), FixedValue::Int(n)) => allows(op, m.cmp(n)),
        (FixedValue::Text(s), FixedValue::Text(t)) => allows(op, s.cmp(t)),
        (FixedValue::Date(a), FixedValue::Date(b)) => allows(op, a.cmp(b)),
        _ => false,
    }
}

// Whether the period has no day.
fn has_no_day(p: FixedPeriod) -> bool
    ensures { result ≡ is_empty_period p }
{
    p.end <= p.start
}

// Whether the predicate holds of two periods.
fn relation(pred: Pred, p: FixedPeriod, q: FixedPeriod) -> bool
    ensures { result ≡ meant.relation_of pred p q }
{
    if has_no_day(p) || has_no_day(q) {
        return false;
    }
    match pred {
        Pred::Before => p.end <= q.start,
        Pred::Meets => p.end == q.start,
        Pred::Overlaps => p.start < q.end && q.start < p.end,
        Pred::Starts => p.start == q.start,
        Pred::Finishes => p.end == q.end,
        Pred::During => q.start <= p.start && p.end <= q.end,
        Pred::Equals => p.start == q.start && p.end == q.end,
    }
}

// Whether both values are periods in this relation.
fn relates(pred: Pred, left: &FixedValue, right: &FixedValue) -> bool
    ensures { result ≡ meant.relates pred left.now right.now }
{
    match (left, right) {
        (FixedValue::Period(p), FixedValue::Period(q)) => relation(pred, *p, *q),
        _ => false,
    }
}

// Whether the value is a period without days.
fn is_empty(value: &FixedValue) -> bool
    ensures { result ≡ meant.is_empty value.now }
{
    match value {
        FixedValue::Period(p) => has_no_day(*p),
        _ => false,
    }
}

// Whether the values are a period and a day of it.
fn contains(period: &FixedValue, day: &FixedValue) -> bool
    ensures { result ≡ meant.contains period.now day.now }
{
    match (period, day) {
        (FixedValue::Period(p), FixedValue::Date(a)) => p.start <= *a && *a < p.end,
        _ => false,
    }
}

// Whether the condition holds of the row.
#[cycle(truths)]
pub(crate) fn holds(alloc: Global, cond: &Cond, row: &FixedRow) -> Result<bool, NoMemory>
    requires steady { is_steady_cond cond.now ≡ true }
    ensures { (d : ℤ) → IfOk result (λ b. b ≡ meant.truth d row.now cond.now) }
{
    match cond {
        Cond::And(parts) => all_hold(alloc, parts, row),
        Cond::Or(parts) => any_holds(alloc, parts, row),
        Cond::Not(part) => Ok(!holds(alloc, part.get(), row)?),
        Cond::Compare { op, left, right } => {
            let left = value(alloc, left, row)?;
            let right = value(alloc, right, row)?;
            Ok(compares(*op, &left, &right))
        }
        Cond::Relate { pred, left, right } => {
            let left = value(alloc, left, row)?;
            let right = value(alloc, right, row)?;
            Ok(relates(*pred, &left, &right))
        }
        Cond::Empty(period) => Ok(is_empty(&value(alloc, period, row)?)),
        Cond::Contains(period, day) => {
            let period = value(alloc, period, row)?;
            let day = value(alloc, day, row)?;
            Ok(contains(&period, &day))
        }
    }
}

// Whether all of the conditions hold of the row.
#[cycle(truths)]
fn all_hold(alloc: Global, parts: &Items<Cond>, row: &FixedRow) -> Result<bool, NoMemory>
    requires steady { list_all is_steady_cond parts.now ≡ true }
    ensures { (d : ℤ) → IfOk result (λ b. b ≡ list_all (meant.truth d row.now) parts.now) }
{
    'parts: for part in parts.as_slice() {
        if !holds(alloc, part, row)? {
            return Ok(false);
        }
    }
    Ok(true)
}

// Whether one of the conditions holds of the row.
#[cycle(truths)]
fn any_holds(alloc: Global, parts: &Items<Cond>, row: &FixedRow) -> Result<bool, NoMemory>
    requires steady { list_all is_steady_cond parts.now ≡ true }
    ensures { (d : ℤ) → IfOk result (λ b. b ≡ list_any (meant.truth d row.now) parts.now) }
{
    'parts: for part in parts.as_slice() {
        if holds(alloc, part, row)? {
            return Ok(true);
        }
    }
    Ok(false)
}
