//! The spans of the periods in two columns, and whether conditions tell that the periods overlap.
ghost use Rattle.std.specs.Prelude.{◌≡◌, ◌+◌, ◌<◌, ℤ, true, IfSome, length};
ghost use Rattle.std.specs.List.{All};
ghost use Rattle.og_value.specs.declared.term.Pred.TheVariants as preds;
ghost use Rattle.og_value.specs.declared.value.FixedValue.{FixedValue};
ghost use Rattle.og_query.specs.Conditions.{relates, truth};
ghost use Rattle.og_query.specs.Queries.{Fixed};
ghost use Rattle.og_plan.specs.Meaning.{all_hold, column};
ghost use Rattle.og_exec.specs.Spans as meant;

use og_base::{DayCond, ExtDay, FixedPeriod, Glue, NoMemory, RtSet};
use og_join::Spans;
use og_plan::{ColPair, across};
use og_query::{Cond, Expr};
use og_rel::Rel;
use og_value::{Pred, Row, Value};
use sqlite_items::Items;
use std::alloc::Global;

// The spans of the periods in a left and in a right column, where it is known that each left row has
// its column; otherwise each span is that of all days.
#[derive(Drop)]
pub(crate) struct ColumnSpans<'a> {
    pub(crate) pair: &'a ColPair,
    pub(crate) known: bool,
}

impl Spans<Row> for ColumnSpans<'_> {
    ghost use Rattle.og_exec.specs.Spans.{span_in};

    ghost left_of = { λ s row. span_in s.known s.pair.now.left row };

    ghost right_of = { λ s row. span_in s.known s.pair.now.right row };

    fn left(&self, row: &Row) -> FixedPeriod {
        span_in(self.known, self.pair.left, row)
    }

    fn right(&self, row: &Row) -> FixedPeriod {
        span_in(self.known, self.pair.right, row)
    }
}

// The span of the period in the column, where it is known, and otherwise that of all days.
fn span_in(known: bool, place: usize, row: &Row) -> FixedPeriod
    ensures { result ≡ meant.span_in known place row.now }
{
    if known && place < row.len() {
        return span_of(row.value(place));
    }
    all_days()
}

// What is round the period on all days; all days of any other value.
fn span_of(value: &Value) -> FixedPeriod
    ensures { result ≡ meant.span_of value.now }
{
    match value {
        Value::Period(period) => {
            period.ordered();
            period.outer()
        }
        _ => all_days(),
    }
}

// All days.
fn all_days() -> FixedPeriod
    ensures { result ≡ meant.all_days }
{
    FixedPeriod {
        start: ExtDay::NEG,
        end: ExtDay::POS,
    }
}

// Two conditions, one and the other.
#[derive(Drop)]
pub(crate) struct Both<A, B> {
    pub(crate) first: A,
    pub(crate) second: B,
}

impl<R: Glue + Drop, A: DayCond<R>, B: DayCond<R>> DayCond<R> for Both<A, B> {
    ghost use Rattle.std.specs.Prelude.{◌&&◌};

    ghost holds = { λ c d row. A.holds c.first d row && B.holds c.second d row };

    fn days(&self, alloc: Global, row: &R) -> Result<RtSet, NoMemory> {
        let first = self.first.days(alloc, row)?;
        let second = self.second.days(alloc, row)?;
        first.meet(&second)
    }

    fn days_of_pair(&self, alloc: Global, left: &R, right: &R) -> Result<RtSet, NoMemory> {
        let first = self.first.days_of_pair(alloc, left, right)?;
        let second = self.second.days_of_pair(alloc, left, right)?;
        first.meet(&second)
    }

    fn may_hold(&self, left: &R, right: &R) -> bool {
        self.first.may_hold(left, right) && self.second.may_hold(left, right)
    }
}

// Whether each row has so many values.
pub(crate) fn are_as_wide(rel: &Rel<Row>, width: usize) -> bool
    ensures { result ≡ true → All (λ p. length p.0 ≡ width) rel.now }
{
    'rows: for i in 0..rel.len() {
        if rel.row(i).len() != width {
            return false;
        }
    }
    true
}

// Whether one of the parts says that the periods in the two columns overlap.
pub(crate) fn say_overlap(parts: &Items<Cond>, a: usize, b: usize) -> bool
    ensures { result ≡ true → (d : ℤ) (row : Fixed) → all_hold d parts.now row ≡ true → relates preds.Overlaps (column row a) (column row b) ≡ true }
{
    'parts: for part in parts.as_slice() {
        if says_overlap(part, a, b) {
            return true;
        }
    }
    false
}

// Whether the condition says that the periods in the two columns overlap.
fn says_overlap(cond: &Cond, a: usize, b: usize) -> bool
    ensures { result ≡ true → (d : ℤ) (row : Fixed) → truth d row cond.now ≡ true → relates preds.Overlaps (column row a) (column row b) ≡ true }
{
    match cond {
        Cond::Relate {
            pred,
            left: Expr::Column(m),
            right: Expr::Column(n),
        } => tells_overlap(pred) && ((*m == a && *n == b) || (*m == b && *n == a)),
        _ => false,
    }
}

// Whether two periods overlap that stand so.
fn tells_overlap(pred: &Pred) -> bool
    ensures { result ≡ true → (x y : FixedValue) → relates pred.now x y ≡ true → relates preds.Overlaps x y ≡ true }
{
    match pred {
        Pred::Overlaps | Pred::Starts | Pred::Finishes | Pred::During | Pred::Equals => true,
        Pred::Before | Pred::Meets => false,
    }
}

// A column of the left row, which has so many values, and one of the right of which some part says
// that their periods overlap.
pub(crate) fn columns_that_overlap(width: usize, parts: &Items<Cond>) -> Option<ColPair>
    ensures says { IfSome result (λ pair. (d : ℤ) (row : Fixed) → all_hold d parts.now row ≡ true → relates preds.Overlaps (column row pair.left) (column row (width + pair.right)) ≡ true) }
    ensures within { IfSome result (λ pair. pair.left < width) }
{
    'parts: for part in parts.as_slice() {
        let found = overlap_in(width, part);
        if found.is_some() {
            return found;
        }
    }
    None
}

// The same of one part.
fn overlap_in(width: usize, part: &Cond) -> Option<ColPair>
    ensures says { IfSome result (λ pair. (d : ℤ) (row : Fixed) → truth d row part.now ≡ true → relates preds.Overlaps (column row pair.left) (column row (width + pair.right)) ≡ true) }
    ensures within { IfSome result (λ pair. pair.left < width) }
{
    let (m, n) = overlapping(part)?;
    across(width, Some(m), Some(n))
}

// Two columns of which the condition says that their periods overlap.
fn overlapping(cond: &Cond) -> Option<(usize, usize)>
    ensures { IfSome result (λ p. (d : ℤ) (row : Fixed) → truth d row cond.now ≡ true → relates preds.Overlaps (column row p.0) (column row p.1) ≡ true) }
{
    match cond {
        Cond::Relate {
            pred,
            left: Expr::Column(m),
            right: Expr::Column(n),
        } => {
            if tells_overlap(pred) {
                Some((*m, *n))
            } else {
                None
            }
        }
        _ => None,
    }
}
