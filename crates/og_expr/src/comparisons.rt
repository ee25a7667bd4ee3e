//! The days on which two values compare, periods stand in a relation, are empty, or contain a day.
ghost use Rattle.std.specs.Prelude.{◌≡◌, ℤ, IfOk};
ghost use Rattle.std.specs.Ordering.{int_cmp};
ghost use Rattle.og_base.specs.Calendar.{IsRefDay};
ghost use Rattle.og_base.specs.Ranges.{holds_day};
ghost use Rattle.og_time.specs.Period.{period_at};
ghost use Rattle.og_time.specs.Point.{point_at};
ghost use Rattle.og_value.specs.Values.{value_at};
ghost use Rattle.og_query.specs.Conditions as meant;

use og_base::{NoMemory, RtSet};
use og_query::allows;
use og_time::{OngoingBool, OngoingPeriod, OngoingPoint};
use og_value::{Cmp, Pred, Value};
use std::alloc::Global;

// The days on which two points compare so.
#[tactic(auto, using(crate::proofs::PointComparisons::point_comparisons))]
fn point_days(alloc: Global, op: Cmp, p: OngoingPoint, q: OngoingPoint) -> Result<RtSet, NoMemory>
    ensures { IfOk result (λ s. (d : ℤ) → IsRefDay d → holds_day s d ≡ meant.allows op (int_cmp (point_at p d) (point_at q d))) }
{
    match op {
        Cmp::Eq => RtSet::of_cut(alloc, &p.eq_days(q)),
        Cmp::Ne => RtSet::of_cut(alloc, &p.eq_days(q))?.complement(),
        Cmp::Lt => RtSet::of_cut(alloc, &p.lt_days(q)),
        Cmp::Le => RtSet::of_cut(alloc, &p.le_days(q)),
        Cmp::Gt => RtSet::of_cut(alloc, &q.lt_days(p)),
        Cmp::Ge => RtSet::of_cut(alloc, &q.le_days(p)),
    }
}

// The days on which both values are of one kind, other than periods, and compare so.
pub(crate) fn compare_days(
    alloc: Global,
    op: Cmp,
    left: &Value,
    right: &Value,
) -> Result<RtSet, NoMemory>
    ensures { IfOk result (λ s. (d : ℤ) → IsRefDay d → holds_day s d ≡ meant.compares op (value_at left.now d) (value_at right.now d)) }
{
    let every_day = match (left, right) {
        (Value::Int(m), Value::Int(n)) => allows(op, m.cmp(n)),
        (Value::Text(s), Value::Text(t)) => allows(op, s.cmp(t)),
        (Value::Point(p), Value::Point(q)) => return point_days(alloc, op, *p, *q),
        _ => false,
    };
    Ok(OngoingBool::constant(alloc, every_day)?.into_days())
}

// The days on which the predicate holds of two periods.
fn period_days(
    alloc: Global,
    pred: Pred,
    i: OngoingPeriod,
    j: OngoingPeriod,
) -> Result<OngoingBool, NoMemory>
    ensures { IfOk result (λ b. (d : ℤ) → IsRefDay d → holds_day b d ≡ meant.relation_of pred (period_at i d) (period_at j d)) }
{
    match pred {
        Pred::Before => i.before(alloc, j),
        Pred::Meets => i.meets(alloc, j),
        Pred::Overlaps => i.overlaps(alloc, j),
        Pred::Starts => i.starts(alloc, j),
        Pred::Finishes => i.finishes(alloc, j),
        Pred::During => i.during(alloc, j),
        Pred::Equals => i.equals(alloc, j),
    }
}

// The days on which both values are periods in this relation.
pub(crate) fn relate_days(
    alloc: Global,
    pred: Pred,
    left: &Value,
    right: &Value,
) -> Result<RtSet, NoMemory>
    ensures { IfOk result (λ s. (d : ℤ) → IsRefDay d → holds_day s d ≡ meant.relates pred (value_at left.now d) (value_at right.now d)) }
{
    match (left, right) {
        (Value::Period(i), Value::Period(j)) => Ok(period_days(alloc, pred, *i, *j)?.into_days()),
        _ => Ok(RtSet::empty(alloc)),
    }
}

// The days on which the value is a period without days.
pub(crate) fn empty_days(alloc: Global, value: &Value) -> Result<RtSet, NoMemory>
    ensures { IfOk result (λ s. (d : ℤ) → IsRefDay d → holds_day s d ≡ meant.is_empty (value_at value.now d)) }
{
    match value {
        Value::Period(i) => RtSet::of_cut(alloc, &i.empty_days()),
        _ => Ok(RtSet::empty(alloc)),
    }
}

// The days on which the values are a period and a day of it.
pub(crate) fn contain_days(alloc: Global, period: &Value, day: &Value) -> Result<RtSet, NoMemory>
    ensures { IfOk result (λ s. (d : ℤ) → IsRefDay d → holds_day s d ≡ meant.contains (value_at period.now d) (value_at day.now d)) }
{
    match (period, day) {
        (Value::Period(i), Value::Point(p)) => Ok(i.contains(alloc, *p)?.into_days()),
        _ => Ok(RtSet::empty(alloc)),
    }
}
