//! The join of two relations on spans that overlap.
ghost use Rattle.std.specs.Prelude.{◌≡◌, ◌≤◌, ◌*◌, ℤ, IfOk, length, map};
ghost use Rattle.og_base.specs.Calendar.{IsRefDay};
ghost use Rattle.og_base.specs.Set.{set_of};
ghost use Rattle.og_base.specs.declared.range.FixedPeriod.{FixedPeriod};
ghost use Rattle.og_rel.specs.Relations.{relation_at};
ghost use Rattle.og_join.specs.Joined as meant;
ghost use Rattle.og_join.specs.Joined.{joined, AreTold};

use crate::blocks::{JoinBlock, blocks_of};
use crate::outers::{OfLeft, OfRight, rising_spans, spans_of};
use crate::tries::Sides;
use og_base::{DayCond, ExtDay, FixedPeriod, Glue, Instant, NoMemory};
use og_ops::{PairMap, Whole};
use og_par::{Crew, Gate, par_rows};
use og_rel::Rel;
use std::thread::Threads;

/// Spans of left and of right rows.
pub trait Spans<R: Instant> {
    /// The span of a left row.
    ghost left_of: { Self → R → FixedPeriod };

    /// The span of a right row.
    ghost right_of: { Self → R → FixedPeriod };

    /// The span of the left row.
    fn left(&self, row: &R) -> FixedPeriod
        ensures { result ≡ left_of self.now row.now };

    /// The span of the right row.
    fn right(&self, row: &R) -> FixedPeriod
        ensures { result ≡ right_of self.now row.now };
}

// Spans that are all days, and so tell of no two rows that they cannot meet.
#[derive(Drop)]
pub(crate) struct AllDays;

impl<R: Instant> Spans<R> for AllDays {
    ghost use Rattle.og_join.specs.Joined.{all_days};

    ghost left_of = { λ spans row. all_days };

    ghost right_of = { λ spans row. all_days };

    fn left(&self, row: &R) -> FixedPeriod {
        let _ = row;
        all_days()
    }

    fn right(&self, row: &R) -> FixedPeriod {
        let _ = row;
        all_days()
    }
}

// The span of all days.
fn all_days() -> FixedPeriod
    ensures { result ≡ meant.all_days }
{
    FixedPeriod {
        start: ExtDay::NEG,
        end: ExtDay::POS,
    }
}

/// On every day the glued rows for which the condition holds, where it holds on no day of two rows
/// whose spans are empty or do not overlap. At most the product of rows. Refused only for want of
/// memory.
pub fn overlap_join<
    H: Threads + Sync,
    R: Glue + Drop + Sync + Send,
    Q: Spans<R>,
    C: DayCond<R> + Sync,
    G: Gate + Sync,
>(
    crew: &Crew<'_, H, G>,
    left: &Rel<R>,
    right: &Rel<R>,
    spans: &Q,
    cond: &C,
) -> Result<Rel<R>, NoMemory>
where
    R::Fixed: Send,
    requires told { AreTold R.glued R.meaning (C.holds cond.now) (Q.left_of spans.now) (Q.right_of spans.now) left.now right.now }
    ensures law { IfOk result (λ r. (d : ℤ) → IsRefDay d → relation_at R.Fixed.cmp R.meaning r d
        ≡ set_of R.Fixed.cmp (joined R.glued (λ x y. C.holds cond.now d (R.glued x y))
        (relation_at R.Fixed.cmp R.meaning left.now d) (relation_at R.Fixed.cmp R.meaning right.now d))) }
    ensures size { IfOk result (λ r. length r ≤ length left.now * length right.now) }
{
    overlap_join_with(crew, left, right, spans, cond, &Whole)
}

/// On every day what the map makes of the pairs of rows for which, glued, the condition holds, where it
/// holds on no day of two rows whose spans are empty or do not overlap. Rows with an empty span are left
/// out. The left ones are cut into blocks, which are shared out among the workers; of each block the pairs
/// whose spans overlap are found by the first days of these, and tried in the order of the left rows. At
/// most the product of rows. Refused only for want of memory.
pub fn overlap_join_with<
    H: Threads + Sync,
    R: Glue + Drop + Sync + Send,
    Q: Spans<R>,
    C: DayCond<R> + Sync,
    M: PairMap<R> + Sync,
    G: Gate + Sync,
>(
    crew: &Crew<'_, H, G>,
    left: &Rel<R>,
    right: &Rel<R>,
    spans: &Q,
    cond: &C,
    pair_map: &M,
) -> Result<Rel<R>, NoMemory>
where
    R::Fixed: Send,
    requires told { AreTold R.glued R.meaning (C.holds cond.now) (Q.left_of spans.now) (Q.right_of spans.now) left.now right.now }
    ensures law { IfOk result (λ r. (d : ℤ) → IsRefDay d → relation_at R.Fixed.cmp R.meaning r d
        ≡ set_of R.Fixed.cmp (map (M.image pair_map.now d) (joined R.glued (λ x y. C.holds cond.now d (R.glued x y))
        (relation_at R.Fixed.cmp R.meaning left.now d) (relation_at R.Fixed.cmp R.meaning right.now d)))) }
    ensures size { IfOk result (λ r. length r ≤ length left.now * length right.now) }
{
    let alloc = crew.alloc();
    let lefts = spans_of(alloc, left, &OfLeft { spans })?;
    let rights = rising_spans(alloc, right, &OfRight { spans })?;
    let sides = Sides {
        left,
        right,
        cond,
        pair_map,
    };
    let block = JoinBlock {
        right_spans: &rights,
        sides: &sides,
    };
    let blocks = blocks_of(alloc, crew.workers(), lefts.as_slice())?;
    let hits = par_rows(crew, blocks.as_slice(), &block)?;
    Ok(Rel::of(hits))
}
