//! Rising lists that are one rising list, one after the other.
ghost use Rattle.std.specs.Prelude.{◌≡◌, ◌++◌, List, IsTrue, option_copied};
ghost use Rattle.std.specs.List.{All};
ghost use Rattle.std.specs.List.Sorted.{IsStrictlySortedBy};
ghost use Rattle.og_rel.specs.Shares.{rows_of};
ghost use Rattle.og_output.specs.Ends.{end_of};

use std::cmp::Ordering;

/// Whether lists that rise are one rising list, one after the other: each that has rows comes before the next that has
/// some. No row but the ends of the lists is looked at. Takes no memory.
pub fn are_in_order<F: Ord>(lists: &[Vec<F>]) -> bool
    ensures { IsTrue result → All (λ list. IsStrictlySortedBy F.cmp list.items) lists.now → IsStrictlySortedBy F.cmp (rows_of lists.now) }
{
    let mut end = None;
    'lists: for list in lists {
        if !comes_after(end, list.as_slice()) {
            return false;
        }
        end = list.last().or(end);
    }
    true
}

// Whether the list has no row, or one at its start that comes after this one, where there is one.
fn comes_after<F: Ord>(end: Option<&F>, list: &[F]) -> bool
    ensures { IsTrue result → (rows : List F) → option_copied end.entry ≡ end_of rows → IsStrictlySortedBy F.cmp rows → IsStrictlySortedBy F.cmp list.now →
        IsStrictlySortedBy F.cmp (rows ++ list.now) }
{
    let Some(end) = end else {
        return true;
    };
    let Some(start) = list.first() else {
        return true;
    };
    end.cmp(start) == Ordering::Less
}
