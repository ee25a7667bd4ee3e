//! Lists of the rows of a day, put together in shares: each of what several lists have between two cuts.
ghost use Rattle.std.specs.Prelude.{◌≡◌, ◌++◌, [], IfOk, OnOk};
ghost use Rattle.std.specs.List.Sorted.{IsPermutation};
ghost use Rattle.og_base.specs.Set.{IsExact, set_of};
ghost use Rattle.og_rel.specs.Shares.{AreListed, rows_of, rows_of_shares};

use crate::ordered::in_order;
use og_base::{NoMemory, rising};
use og_par::{Crew, Gate, followed, par_handed};
use std::alloc::Global;
use std::thread::Threads;

/// The rising list of the rows of the parts. Each worker puts together a share of the parts: those between two cuts,
/// where each block of rows was listed and cut at the same places, the last part first. Refused only for want of memory.
pub fn put_together<H: Threads + Sync, F: Ord + Send + Drop, G: Gate + Sync>(
    crew: &Crew<'_, H, G>,
    shares: usize,
    parts: Vec<Vec<F>>,
) -> Result<Vec<F>, NoMemory>
    requires exact { IsExact F.cmp }
    ensures { IfOk result (λ rows. rows.items ≡ set_of F.cmp (rows_of parts.items)) }
{
    let alloc = crew.alloc();
    let shares = shares_of(alloc, shares, parts)?;
    let lists = par_handed(
        crew,
        shares,
        &|share: Vec<Vec<F>>| -> Result<Vec<Vec<F>>, NoMemory>
            requires { IsExact F.cmp }
            ensures { IfOk result (λ lists. AreListed F.cmp (rows_of share.items) lists.items) }
        { together(alloc, share) },
    )?;
    in_order(alloc, lists)
}

// Deals the parts to that many shares, in turn from the last one on: to each share the parts that were cut
// at the same place.
fn shares_of<F: Drop>(
    alloc: Global,
    count: usize,
    parts: Vec<Vec<F>>,
) -> Result<Vec<Vec<Vec<F>>>, NoMemory>
    ensures { IfOk result (λ shares. IsPermutation (rows_of parts.items) (rows_of_shares shares.items)) }
{
    let mut shares = empty_shares(alloc, count)?;
    'parts: for part in parts {
        deal(alloc, part, &mut shares)?;
    }
    Ok(shares)
}

// That many shares without parts.
fn empty_shares<F: Drop>(alloc: Global, count: usize) -> Result<Vec<Vec<Vec<F>>>, NoMemory>
    ensures { IfOk result (λ shares. rows_of_shares shares.items ≡ []) }
{
    let mut shares = Vec::with_capacity(alloc, count)?;
    'shares: for _ in 0..count {
        shares.push(Vec::new(alloc))?;
    }
    Ok(shares)
}

// Puts the part into the last share, which becomes the first one.
fn deal<F: Drop>(alloc: Global, part: Vec<F>, shares: &mut Vec<Vec<Vec<F>>>) -> Result<(), NoMemory>
    ensures { OnOk result (IsPermutation (rows_of_shares shares.old.items ++ part.items) (rows_of_shares shares.new.items)) }
{
    let mut share = last_share(alloc, shares);
    share.push(part)?;
    shares.insert(0, share)?;
    Ok(())
}

// Takes the last share out; where there is none, it is one without parts.
fn last_share<F: Drop>(alloc: Global, shares: &mut Vec<Vec<Vec<F>>>) -> Vec<Vec<F>>
    ensures { rows_of_shares shares.old.items ≡ rows_of_shares shares.new.items ++ rows_of result.items }
{
    match shares.pop() {
        Some(share) => share,
        None => Vec::new(alloc),
    }
}

// The rising list of the rows of the parts, alone in a list.
fn together<F: Ord + Drop>(alloc: Global, parts: Vec<Vec<F>>) -> Result<Vec<Vec<F>>, NoMemory>
    requires exact { IsExact F.cmp }
    ensures { IfOk result (λ lists. AreListed F.cmp (rows_of parts.items) lists.items) }
{
    let rows = all_rows(alloc, parts)?;
    let list = rising(rows)?;
    let mut lists = Vec::with_capacity(alloc, 1)?;
    lists.push(list)?;
    Ok(lists)
}

// The rows of the parts, one part after the other.
fn all_rows<F: Drop>(alloc: Global, parts: Vec<Vec<F>>) -> Result<Vec<F>, NoMemory>
    ensures { IfOk result (λ v. v.items ≡ rows_of parts.items) }
{
    let mut all = Vec::new(alloc);
    'parts: for part in parts {
        all = followed(all, part)?;
    }
    Ok(all)
}
