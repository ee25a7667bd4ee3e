//! The spans of the rows of a relation, in rising order.
ghost use Rattle.std.specs.Prelude.{◌≡◌, ◌+◌, ◌<◌, ◌≤◌, ◌||◌, ℤ, Bool, List, IfOk, OnOk, length, slice_index_or};
ghost use Rattle.std.specs.List.{list_any};
ghost use Rattle.std.specs.List.Sorted.{IsPermutation};
ghost use Rattle.og_base.specs.Ranges.{Range};
ghost use Rattle.og_base.specs.declared.range.FixedPeriod.{FixedPeriod};
ghost use Rattle.og_join.specs.Overlaps.{Rises};
ghost use Rattle.og_join.specs.Tried.{at_row, has_span, AreSpansOf};

use crate::spans::Spans;
use og_base::{ExtDay, FixedPeriod, Glue, NoMemory, Outer};
use og_rel::Rel;
use std::alloc::Global;
use std::marker::Model;

// A span of each row.
pub(crate) trait SpanOf<R> {
    ghost span_of: { Self → R → FixedPeriod };

    // The span of the row.
    fn span(&self, row: &R) -> FixedPeriod
        ensures { result ≡ span_of self.now row.now };
}

// The spans of left rows.
#[derive(Drop)]
pub(crate) struct OfLeft<'a, Q> {
    pub(crate) spans: &'a Q,
}

impl<'a, R: Glue, Q: Spans<R>> SpanOf<R> for OfLeft<'a, Q> {
    ghost span_of = { λ s row. Q.left_of s.spans.now row };

    fn span(&self, row: &R) -> FixedPeriod {
        self.spans.left(row)
    }
}

// The spans of right rows.
#[derive(Drop)]
pub(crate) struct OfRight<'a, Q> {
    pub(crate) spans: &'a Q,
}

impl<'a, R: Glue, Q: Spans<R>> SpanOf<R> for OfRight<'a, Q> {
    ghost span_of = { λ s row. Q.right_of s.spans.now row };

    fn span(&self, row: &R) -> FixedPeriod {
        self.spans.right(row)
    }
}

// Spans in rising order of their first days, seen as the list of them.
#[derive(Drop)]
pub(crate) struct RisingSpans {
    spans: Vec<Outer>,
}

impl Model for RisingSpans {
    ghost use Rattle.std.specs.Prelude.{List};
    ghost use Rattle.og_base.specs.declared.comparison.Outer.{Outer};
    ghost use Rattle.og_join.specs.Overlaps.{Rises};

    ghost Value = { List Outer };

    ghost view = { λ r. r.spans.items };

    ghost invariant = { λ r. Rises (λ o. o.lo) r.spans.items };
}

impl RisingSpans {
    // The spans in rising order.
    pub(crate) fn of(alloc: Global, spans: &[Outer]) -> Result<RisingSpans, NoMemory>
        ensures { IfOk result (λ r. IsPermutation spans.now r) }
    {
        let mut rising = Vec::with_capacity(alloc, spans.len())?;
        rising.extend_from_slice(spans)?;
        rising.sort_by_key(
            |span: &Outer| -> ExtDay
                ensures { result ≡ span.now.lo }
            { span.lo },
        )?;
        Ok(RisingSpans { spans: rising })
    }

    // The spans.
    pub(crate) fn as_slice(&self) -> &[Outer]
        ensures same { result.now ≡ self.now }
        ensures rises { Rises (λ o. o.lo) result.now }
    {
        self.spans.as_slice()
    }
}

// The spans of the rows, but those without days, with the places of their rows, in rising order.
pub(crate) fn rising_spans<R, S: SpanOf<R>>(
    alloc: Global,
    rel: &Rel<R>,
    side: &S,
) -> Result<RisingSpans, NoMemory>
    ensures rows { IfOk result (λ v. AreSpansOf (S.span_of side.now) rel.now v) }
    ensures size { IfOk result (λ v. length v ≤ length rel.now) }
{
    let spans = spans_of(alloc, rel, side)?;
    RisingSpans::of(alloc, spans.as_slice())
}

// The spans of the rows, but those without days, with the places of their rows, in the order of the
// relation.
pub(crate) fn spans_of<R, S: SpanOf<R>>(
    alloc: Global,
    rel: &Rel<R>,
    side: &S,
) -> Result<Vec<Outer>, NoMemory>
    ensures rows { IfOk result (λ v. AreSpansOf (S.span_of side.now) rel.now v.items) }
    ensures size { IfOk result (λ v. length v.items ≤ length rel.now) }
{
    let mut spans = Vec::with_capacity(alloc, rel.len())?;
    'rows: for i in 0..rel.len() {
        add_span(side, i, rel, &mut spans)?;
    }
    Ok(spans)
}

// Adds the span of the row at the place, where it has days.
fn add_span<R, S: SpanOf<R>>(
    side: &S,
    i: usize,
    rel: &Rel<R>,
    spans: &mut Vec<Outer>,
) -> Result<(), NoMemory>
    requires { i < length rel.now }
    ensures rows { OnOk result ((t : ℤ → ℤ → R × List Range → Bool) (p : R × List Range) →
        list_any (at_row t rel.now) spans.new.items
        ≡ (list_any (at_row t rel.now) spans.old.items || has_span (S.span_of side.now) t (slice_index_or rel.now i p))) }
    ensures size { OnOk result (length spans.new.items ≤ length spans.old.items + 1) }
{
    let FixedPeriod { start, end } = side.span(rel.row(i));
    if start < end {
        spans.push(Outer {
            lo: start,
            hi: end,
            row: i,
        })?;
    }
    Ok(())
}
