//! Right rows in the order of their keys, and the hits that are made of left rows and those that have their keys.
ghost use Rattle.std.specs.Prelude.{◌≡◌, ◌++◌, List, [], ◌∷◌, IfOk, OnOk, map};
ghost use Rattle.std.specs.List.{All};
ghost use Rattle.std.specs.List.Sorted.{IsPermutation};
ghost use Rattle.std.specs.Ordering.{on};
ghost use Rattle.og_ops.specs.Lending.{lent, ByKey};
ghost use Rattle.og_rel.specs.declared.pair.Pair.{Pair};
ghost use Rattle.og_join.specs.SameKey.{AreHits, AreLent, IsNear};

use crate::groups::GroupedRows;
use crate::keys::Keys;
use crate::sought::Sought;
use crate::span_key::{SpanKey, do_overlap};
use crate::spans::Spans;
use og_base::{DayCond, FixedPeriod, Glue, NoMemory, RtSet};
use og_ops::{Hit, KeyedRow, PairMap, test_pair_with};
use og_par::{Crew, Gate, Piece, par_rows};
use og_rel::{Pair, Rel, blocks_of};
use std::alloc::Global;
use std::cmp::Ordering;
use std::thread::Threads;

// The right rows whose keys are sought, and maybe others, with their keys and spans, in the order of the
// keys. Each worker puts a block of them in order first.
pub(crate) fn right_by_key<
    'a,
    H: Threads + Sync,
    R: Glue + Drop + Sync + Send,
    Q: Keys<R> + Sync,
    S: Spans<R> + Sync,
    G: Gate + Sync,
>(
    crew: &Crew<'_, H, G>,
    keys: &Q,
    spans: &S,
    sought: &Sought<Q::Key>,
    right: &'a Rel<R>,
) -> Result<Vec<KeyedRow<'a, R, SpanKey<Q::Key>>>, NoMemory>
where
    R::Fixed: Send,
    Q::Key: Send + Sync,
    ensures rising { IfOk result (λ v. ByKey (on (λ s. s.key) Q.Key.cmp) v.items) }
    ensures lent { IfOk result (λ v. AreLent R.meaning Q.Key.cmp (Q.right_of keys.now) (S.right_of spans.now) sought.now right.now v.items) }
{
    let blocks = blocks_of(crew.alloc(), crew.workers(), right.pairs())?;
    let block = LendBlock {
        keys,
        spans,
        sought,
    };
    let mut rows = par_rows(crew, blocks.as_slice(), &block)?;
    sort_by_key(&mut rows)?;
    Ok(rows)
}

// Lends a block of right rows whose keys are sought, and maybe others, with their keys and spans, in the order of the
// keys.
#[derive(Drop)]
struct LendBlock<'c, Q, S, K: Ord> {
    keys: &'c Q,
    spans: &'c S,
    sought: &'c Sought<K>,
}

impl<'c, 'a, R: Glue + Drop, Q: Keys<R>, S: Spans<R>> Piece<&'a [Pair<R>]>
    for LendBlock<'c, Q, S, Q::Key> {
    ghost use Rattle.std.specs.Prelude.{map};
    ghost use Rattle.og_join.specs.SameKey.{AreLent};

    type Out = KeyedRow<'a, R, SpanKey<Q::Key>>;

    ghost gives = { λ piece block made. AreLent R.meaning Q.Key.cmp (Q.right_of piece.keys.now) (S.right_of piece.spans.now) piece.sought.now (map (λ p. (p.row, p.days)) block.now) made };

    fn make(
        &self,
        alloc: Global,
        item: &&'a [Pair<R>],
        out: &mut Vec<KeyedRow<'a, R, SpanKey<Q::Key>>>,
    ) -> Result<(), NoMemory> {
        let mut rows = lend_right(alloc, self.keys, self.spans, self.sought, *item)?;
        sort_by_key(&mut rows)?;
        out.append(&mut rows)?;
        Ok(())
    }
}

// Puts the rows in the order of their keys.
fn sort_by_key<'a, R, K: Ord + Drop>(
    rows: &mut Vec<KeyedRow<'a, R, SpanKey<K>>>,
) -> Result<(), NoMemory>
    ensures rising { OnOk result (ByKey (on (λ s. s.key) K.cmp) rows.new.items) }
    ensures same { OnOk result (IsPermutation rows.old.items rows.new.items) }
{
    rows.sort_by(
        |a: &KeyedRow<R, SpanKey<K>>, b: &KeyedRow<R, SpanKey<K>>| -> Ordering
            ensures { result ≡ on (λ s. s.key) K.cmp a.now.key b.now.key }
        { a.key.cmp(&b.key) },
    )?;
    Ok(())
}

// The right rows whose keys are sought, and maybe others, with their keys and spans, in their order.
fn lend_right<'a, R: Glue + Drop, Q: Keys<R>, S: Spans<R>>(
    alloc: Global,
    keys: &Q,
    spans: &S,
    sought: &Sought<Q::Key>,
    right: &'a [Pair<R>],
) -> Result<Vec<KeyedRow<'a, R, SpanKey<Q::Key>>>, NoMemory>
    ensures { IfOk result (λ v. AreLent R.meaning Q.Key.cmp (Q.right_of keys.now) (S.right_of spans.now) sought.now (map (λ p. (p.row, p.days)) right.now) v.items) }
{
    let mut rows = Vec::new(alloc);
    'rows: for pair in right {
        let key = keys.right(alloc, &pair.row)?;
        if !sought.has(&key) {
            continue;
        }
        let span = spans.right(&pair.row);
        let key = SpanKey { key, span };
        rows.push(KeyedRow {
            key,
            row: &pair.row,
            days: &pair.days,
        })?;
    }
    Ok(rows)
}

// Makes the hits of a left row and the right rows with its key, where their spans tell which can meet.
#[derive(Drop)]
pub(crate) struct TryLeft<'c, 's, 'a, R, K: Ord, Q, S, C, M> {
    pub(crate) keys: &'c Q,
    pub(crate) spans: &'c S,
    pub(crate) right: &'c GroupedRows<'s, 'a, R, SpanKey<K>>,
    pub(crate) cond: &'c C,
    pub(crate) pair_map: &'c M,
}

impl<'c, 's, 'a, R: Glue + Drop, Q: Keys<R>, S: Spans<R>, C: DayCond<R>, M: PairMap<R>> Piece<
    Pair<R>,
> for TryLeft<'c, 's, 'a, R, Q::Key, Q, S, C, M> {
    ghost use Rattle.std.specs.Prelude.{[], ◌∷◌};
    ghost use Rattle.std.specs.Ordering.{eq_by_cmp};
    ghost use Rattle.og_ops.specs.Lending.{lent};
    ghost use Rattle.og_join.specs.Joined.{AreTold};
    ghost use Rattle.og_join.specs.SameKey.{AreHitsOf, HaveDayKeys, HaveSpans};

    type Out = Hit<R>;

    ghost gives = { λ piece pair made. HaveDayKeys R.meaning (Q.right_of piece.keys.now) piece.right.now → HaveSpans (S.right_of piece.spans.now) piece.right.now
        → AreTold R.glued R.meaning (C.holds piece.cond.now) (S.left_of piece.spans.now) (S.right_of piece.spans.now) ((pair.row, pair.days) ∷ []) (lent piece.right.now)
        → AreHitsOf R.glued (M.image piece.pair_map.now) (λ x y. eq_by_cmp Q.Key.cmp (Q.left_of piece.keys.now x) (Q.right_of piece.keys.now y)) (C.holds piece.cond.now) R.meaning ((pair.row, pair.days) ∷ []) (lent piece.right.now) made };

    fn make(&self, alloc: Global, item: &Pair<R>, out: &mut Vec<Hit<R>>) -> Result<(), NoMemory> {
        let key = self.keys.left(alloc, &item.row)?;
        let span = self.spans.left(&item.row);
        let key = SpanKey { key, span };
        let others = self.right.of_key(&key);
        try_others(
            alloc,
            &key.span,
            item,
            others,
            self.cond,
            self.pair_map,
            out,
        )
    }
}

// Adds the hits of the row, whose span this is, and each of its others, where spans tell which can meet.
fn try_others<R: Glue + Drop, K, C: DayCond<R>, M: PairMap<R>>(
    alloc: Global,
    span: &FixedPeriod,
    left: &Pair<R>,
    others: &[KeyedRow<'_, R, SpanKey<K>>],
    cond: &C,
    pair_map: &M,
    out: &mut Vec<Hit<R>>,
) -> Result<(), NoMemory>
    ensures { OnOk result ((made : List (Pair R)) × (All (IsNear R.glued R.meaning (C.holds cond.now) span.now left.now.row) others.now → AreHits R.glued (M.image pair_map.now) (C.holds cond.now) R.meaning left.now.row left.now.days (lent others.now) made)
        × (out.new.items ≡ out.old.items ++ made)) }
{
    'others: for other in others {
        try_near(
            alloc, span, &left.row, &left.days, other, cond, pair_map, out,
        )?;
    }
    Ok(())
}

// Adds the hit of the row, whose span this is, and the other, where their spans overlap.
fn try_near<R: Glue + Drop, K, C: DayCond<R>, M: PairMap<R>>(
    alloc: Global,
    span: &FixedPeriod,
    row: &R,
    days: &RtSet,
    other: &KeyedRow<'_, R, SpanKey<K>>,
    cond: &C,
    pair_map: &M,
    out: &mut Vec<Hit<R>>,
) -> Result<(), NoMemory>
    ensures { OnOk result ((made : List (Pair R)) × (IsNear R.glued R.meaning (C.holds cond.now) span.now row.now other.now
        → AreHits R.glued (M.image pair_map.now) (C.holds cond.now) R.meaning row.now days.now ((other.now.row.now, other.now.days.now) ∷ []) made)
        × (out.new.items ≡ out.old.items ++ made)) }
{
    if !do_overlap(span, &other.key.span) {
        return Ok(());
    }
    try_pair(alloc, row, days, other.row, other.days, cond, pair_map, out)
}

// Adds what the map makes of the two rows, on the days on which both are present and the condition holds,
// where there are such days.
fn try_pair<R: Glue + Drop, C: DayCond<R>, M: PairMap<R>>(
    alloc: Global,
    left: &R,
    left_days: &RtSet,
    right: &R,
    right_days: &RtSet,
    cond: &C,
    pair_map: &M,
    out: &mut Vec<Hit<R>>,
) -> Result<(), NoMemory>
    ensures { OnOk result ((made : List (Pair R)) × AreHits R.glued (M.image pair_map.now) (C.holds cond.now) R.meaning left.now left_days.now ((right.now, right_days.now) ∷ []) made × (out.new.items ≡ out.old.items ++ made)) }
{
    match test_pair_with(alloc, left, left_days, right, right_days, cond, pair_map)? {
        Some(hit) => out.push(hit)?,
        None => {}
    }
    Ok(())
}
