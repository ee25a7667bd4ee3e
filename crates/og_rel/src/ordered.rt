//! Rising lists put behind each other.
ghost use Rattle.std.specs.Prelude.{◌≡◌, ◌++◌, IfOk, IsTrue};
ghost use Rattle.std.specs.List.{All};
ghost use Rattle.std.specs.List.Sorted.{IsStrictlySortedBy};
ghost use Rattle.og_base.specs.Set.{IsExact, set_of};
ghost use Rattle.og_rel.specs.Shares.{rows_of};

use og_base::{NoMemory, rising};
use og_par::followed;
use std::alloc::Global;
use std::cmp::Ordering;

// The rising list of the rows of lists that rise. Where each list comes before the next, as shares do, no row
// but the ends of the lists is looked at.
pub(crate) fn in_order<F: Ord + Drop>(alloc: Global, lists: Vec<Vec<F>>) -> Result<Vec<F>, NoMemory>
    requires exact { IsExact F.cmp }
    ensures { IfOk result (λ v. All (λ list. IsStrictlySortedBy F.cmp list.items) lists.items → v.items ≡ set_of F.cmp (rows_of lists.items)) }
{
    let mut all = Vec::new(alloc);
    'lists: for list in lists {
        all = both_in_order(all, list)?;
    }
    Ok(all)
}

// The rising list of the rows of two lists that rise.
fn both_in_order<F: Ord + Drop>(first: Vec<F>, second: Vec<F>) -> Result<Vec<F>, NoMemory>
    requires exact { IsExact F.cmp }
    ensures { IfOk result (λ v. IsStrictlySortedBy F.cmp first.items → IsStrictlySortedBy F.cmp second.items →
        v.items ≡ set_of F.cmp (first.items ++ second.items)) }
{
    let is_before = comes_before(first.as_slice(), second.as_slice());
    let all = followed(first, second)?;
    if is_before {
        return Ok(all);
    }
    rising(all)
}

// Whether one rising list comes before the other.
fn comes_before<F: Ord>(first: &[F], second: &[F]) -> bool
    ensures { IsTrue result → IsStrictlySortedBy F.cmp first.now → IsStrictlySortedBy F.cmp second.now →
        IsStrictlySortedBy F.cmp (first.now ++ second.now) }
{
    if first.is_empty() || second.is_empty() {
        return true;
    }
    first[first.len() - 1].cmp(&second[0]) == Ordering::Less
}
