//! Blocks of left spans, each joined with all right spans.
ghost use Rattle.std.specs.Prelude.{◌≡◌, ◌≤◌, IfOk};
ghost use Rattle.std.specs.List.{flat_map};
ghost use Rattle.og_par.specs.Limits.{max_workers};

use crate::outers::RisingSpans;
use crate::row_pairs::row_pairs;
use crate::tries::{Sides, try_pairs};
use og_base::{DayCond, Glue, NoMemory, Outer};
use og_ops::{Hit, PairMap};
use og_par::Piece;
use std::alloc::Global;

// How many left spans a block has at most: so many pairs of places as they make stand in memory at once.
const BLOCK: usize = 16_384;

// The spans cut into blocks of about one size, as many for each worker.
pub(crate) fn blocks_of<'a>(
    alloc: Global,
    workers: usize,
    spans: &'a [Outer],
) -> Result<Vec<&'a [Outer]>, NoMemory>
    requires least { 1 ≤ workers }
    requires most { workers ≤ max_workers }
    ensures { IfOk result (λ v. flat_map (λ b. b.now) v.items ≡ spans.now) }
{
    let rounds = spans.len().div_ceil(workers * BLOCK);
    let count = workers.saturating_mul(rounds).max(1);
    let size = spans.len().div_ceil(count).max(1);
    // Room for all at once: `collect` asks for less where that is refused, and does not tell.
    let mut blocks = Vec::with_capacity(alloc, spans.len().div_ceil(size))?;
    blocks.extend(spans.chunks(size))?;
    Ok(blocks)
}

// Makes of a block of left spans what is made of the rows of each pair of spans that overlap, in the order of the
// left rows.
#[derive(Drop)]
pub(crate) struct JoinBlock<'s, 'a, R, C, M> {
    pub(crate) right_spans: &'s RisingSpans,
    pub(crate) sides: &'s Sides<'a, R, C, M>,
}

impl<'b, 's, 'a, R: Glue + Drop, C: DayCond<R>, M: PairMap<R>> Piece<&'b [Outer]>
    for JoinBlock<'s, 'a, R, C, M> {
    ghost use Rattle.std.specs.Prelude.{◌≤◌, ◌*◌, length};
    ghost use Rattle.og_join.specs.Hits.{stored_hits};
    ghost use Rattle.og_join.specs.Tried.{AreJoined};

    type Out = Hit<R>;

    ghost gives = { λ piece block made. AreJoined R.glued (M.image piece.sides.now.pair_map.now) R.meaning (C.holds piece.sides.now.cond.now) piece.sides.now.left.now piece.sides.now.right.now piece.right_spans.now block.now (stored_hits made)
        × (length made ≤ length block.now * length piece.right_spans.now) };

    fn make(
        &self,
        alloc: Global,
        item: &&'b [Outer],
        out: &mut Vec<Hit<R>>,
    ) -> Result<(), NoMemory> {
        let pairs = row_pairs(alloc, *item, self.right_spans)?;
        try_pairs(alloc, self.sides, pairs.as_slice(), out)
    }
}
