//! The joins of two relations on keys, and on keys and spans.
ghost use Rattle.std.specs.Prelude.{◌≡◌, ◌≤◌, ◌*◌, ◌&&◌, ℤ, IfOk, length, map};
ghost use Rattle.std.specs.Ordering.{eq_by_cmp};
ghost use Rattle.og_base.specs.Calendar.{IsRefDay};
ghost use Rattle.og_base.specs.Set.{IsExact, set_of};
ghost use Rattle.og_rel.specs.Relations.{relation_at};
ghost use Rattle.og_join.specs.Joined.{joined, AreTold};

use crate::groups::GroupedRows;
use crate::same_key::{TryLeft, right_by_key};
use crate::sought::keys_sought;
use crate::spans::{AllDays, Spans};
use og_base::{DayCond, Glue, Instant, NoMemory};
use og_ops::{PairMap, Whole};
use og_par::{Crew, Gate, par_rows};
use og_rel::Rel;
use std::alloc::Global;
use std::thread::Threads;

/// Keys of left and of right rows, which are the same on all days.
pub trait Keys<R: Instant> {
    /// A key. Its order is total.
    type Key: Ord + Drop;

    /// The key of a left row of a day.
    ghost left_of: { Self → R.Fixed → Self.Key };

    /// The key of a right row of a day.
    ghost right_of: { Self → R.Fixed → Self.Key };

    /// The key of the left row, on whichever day.
    fn left(&self, alloc: Global, row: &R) -> Result<Self::Key, NoMemory>
        ensures { IfOk result (λ k. (d : ℤ) → IsRefDay d → left_of self.now (R.meaning row.now d) ≡ k) };

    /// The key of the right row, on whichever day.
    fn right(&self, alloc: Global, row: &R) -> Result<Self::Key, NoMemory>
        ensures { IfOk result (λ k. (d : ℤ) → IsRefDay d → right_of self.now (R.meaning row.now d) ≡ k) };

    /// The order answers Equal only for two keys that contracts see as the same.
    ghost exact: { IsExact Self.Key.cmp };
}

/// On every day the glued rows whose keys are equal and for which the condition holds. At most the
/// product of rows. Refused only for want of memory.
pub fn key_join<
    H: Threads + Sync,
    R: Glue + Drop + Sync + Send,
    Q: Keys<R> + Sync,
    C: DayCond<R> + Sync,
    G: Gate + Sync,
>(
    crew: &Crew<'_, H, G>,
    left: &Rel<R>,
    right: &Rel<R>,
    keys: &Q,
    cond: &C,
) -> Result<Rel<R>, NoMemory>
where
    R::Fixed: Send,
    Q::Key: Send + Sync,
    ensures law { IfOk result (λ r. (d : ℤ) → IsRefDay d → relation_at R.Fixed.cmp R.meaning r d
        ≡ set_of R.Fixed.cmp (joined R.glued (λ x y. eq_by_cmp Q.Key.cmp (Q.left_of keys.now x) (Q.right_of keys.now y) && C.holds cond.now d (R.glued x y))
        (relation_at R.Fixed.cmp R.meaning left.now d) (relation_at R.Fixed.cmp R.meaning right.now d))) }
    ensures size { IfOk result (λ r. length r ≤ length left.now * length right.now) }
{
    key_join_with(crew, left, right, keys, cond, &Whole)
}

/// On every day what the map makes of the pairs of rows whose keys are equal and for which, glued, the
/// condition holds. At most the product of rows. Refused only for want of memory.
pub fn key_join_with<
    H: Threads + Sync,
    R: Glue + Drop + Sync + Send,
    Q: Keys<R> + Sync,
    C: DayCond<R> + Sync,
    M: PairMap<R> + Sync,
    G: Gate + Sync,
>(
    crew: &Crew<'_, H, G>,
    left: &Rel<R>,
    right: &Rel<R>,
    keys: &Q,
    cond: &C,
    pair_map: &M,
) -> Result<Rel<R>, NoMemory>
where
    R::Fixed: Send,
    Q::Key: Send + Sync,
    ensures law { IfOk result (λ r. (d : ℤ) → IsRefDay d → relation_at R.Fixed.cmp R.meaning r d
        ≡ set_of R.Fixed.cmp (map (M.image pair_map.now d) (joined R.glued (λ x y. eq_by_cmp Q.Key.cmp (Q.left_of keys.now x) (Q.right_of keys.now y) && C.holds cond.now d (R.glued x y))
        (relation_at R.Fixed.cmp R.meaning left.now d) (relation_at R.Fixed.cmp R.meaning right.now d)))) }
    ensures size { IfOk result (λ r. length r ≤ length left.now * length right.now) }
{
    key_span_join(crew, left, right, keys, &AllDays, cond, pair_map)
}

/// On every day what the map makes of the pairs of rows whose keys are equal and for which, glued, the
/// condition holds, where it holds on no day of two rows whose spans are empty or do not overlap. Where
/// there are few left rows, right rows that have none of their keys are passed over. The others are put
/// in the order of their keys, and each left row is tried with those that have its key and whose spans
/// overlap its own; the rows of each side are shared out among the workers. At most the product of rows.
/// Refused only for want of memory.
pub fn key_span_join<
    'x,
    H: Threads + Sync,
    R: Glue + Drop + Sync + Send,
    Q: Keys<R> + Sync,
    S: Spans<R> + Sync,
    C: DayCond<R> + Sync,
    M: PairMap<R> + Sync,
    G: Gate + Sync,
>(
    crew: &Crew<'_, H, G>,
    left: &'x Rel<R>,
    right: &'x Rel<R>,
    keys: &'x Q,
    spans: &'x S,
    cond: &'x C,
    pair_map: &'x M,
) -> Result<Rel<R>, NoMemory>
where
    R::Fixed: Send,
    Q::Key: Send + Sync,
    requires told { AreTold R.glued R.meaning (C.holds cond.now) (S.left_of spans.now) (S.right_of spans.now) left.now right.now }
    ensures law { IfOk result (λ r. (d : ℤ) → IsRefDay d → relation_at R.Fixed.cmp R.meaning r d
        ≡ set_of R.Fixed.cmp (map (M.image pair_map.now d) (joined R.glued (λ x y. eq_by_cmp Q.Key.cmp (Q.left_of keys.now x) (Q.right_of keys.now y) && C.holds cond.now d (R.glued x y))
        (relation_at R.Fixed.cmp R.meaning left.now d) (relation_at R.Fixed.cmp R.meaning right.now d)))) }
    ensures size { IfOk result (λ r. length r ≤ length left.now * length right.now) }
{
    let sought = keys_sought(crew.alloc(), keys, left, right.len())?;
    let others = right_by_key(crew, keys, spans, &sought, right)?;
    let right = GroupedRows::of(crew.alloc(), others.as_slice())?;
    let piece = TryLeft {
        keys,
        spans,
        right: &right,
        cond,
        pair_map,
    };
    let hits = par_rows(crew, left.pairs(), &piece)?;
    Ok(Rel::of(hits))
}
