//! Cuts through the rows of a day, and the parts of a rising list between them.
ghost use Rattle.std.specs.Prelude.{◌≤◌, IfOk, length};
ghost use Rattle.std.specs.List.Sorted.{IsPermutation};
ghost use Rattle.og_base.specs.Set.{IsExact};
ghost use Rattle.og_rel.specs.Shares.{rows_of};

use og_base::{NoMemory, rising};
use std::alloc::Global;
use std::cmp::Ordering;

// At how many items it is looked for each share.
const LOOKS: usize = 64;

/// Rows, falling, before which rows are cut into that many shares or fewer: some of these, which are chosen so that
/// the shares are about equal where these stand for all. Nothing else rests on which they are. Refused only for want
/// of memory.
pub fn cuts_among<F: Ord + Drop>(rows: Vec<F>, shares: usize) -> Result<Vec<F>, NoMemory>
    requires some { 1 ≤ shares }
    requires exact { IsExact F.cmp }
{
    let mut cuts = rising(rows)?;
    let step = cuts.len() / shares;
    let mut left = step;
    cuts.retain(|_| {
        let is_cut = left == 0;
        left = if is_cut { step } else { left - 1 };
        is_cut
    });
    cuts.reverse();
    Ok(cuts)
}

/// Items here and there, which stand for all when these are cut into so many shares. Nothing else rests on which they
/// are. Refused only for want of memory.
pub fn some_of<'a, X>(alloc: Global, shares: usize, items: &'a [X]) -> Result<Vec<&'a X>, NoMemory>
    requires { 1 ≤ shares }
{
    let step = (items.len() / shares / LOOKS).max(1);
    let mut some = Vec::new(alloc);
    'blocks: for block in items.chunks(step) {
        if let Some(item) = block.first() {
            some.push(item)?;
        }
    }
    Ok(some)
}

/// The rows in parts, cut before each of the cuts, which fall, the last part first. Refused only for want of memory.
pub fn parts_of<F: Ord + Drop>(
    alloc: Global,
    rows: Vec<F>,
    cuts: &[F],
) -> Result<Vec<Vec<F>>, NoMemory>
    ensures { IfOk result (λ parts. IsPermutation rows.items (rows_of parts.items)) }
{
    let mut rest = rows;
    let mut parts = Vec::new(alloc);
    'cuts: for cut in cuts {
        let before = count_before(rest.as_slice(), cut);
        parts.push(rest.split_off(before)?)?;
    }
    parts.push(rest)?;
    Ok(parts)
}

// How many of the rows come before the cut, where they rise.
fn count_before<F: Ord>(rows: &[F], cut: &F) -> usize
    ensures { result ≤ length rows.now }
{
    rows.partition_point(|row| row.cmp(cut) == Ordering::Less)
}
