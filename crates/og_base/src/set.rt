//! Rising lists: the members of a list in rising order, each once.
ghost use Rattle.std.specs.Prelude.{◌≡◌, ◌↔◌, IsTrue, IfOk, OnErr};
ghost use Rattle.std.specs.List.Sorted.{IsStrictlySortedBy};
ghost use Rattle.og_base.specs.Set.{IsExact, set_of};

use crate::memory::NoMemory;
use std::cmp::Ordering;

/// The rising list of the values, each once. Values that rise already, as the rows of a table often do, stay
/// where they lie in memory. For others the sort takes memory; refused only for want of it.
pub fn rising<T: Ord + Drop>(mut values: Vec<T>) -> Result<Vec<T>, NoMemory>
    requires exact { IsExact T.cmp }
    ensures set { IfOk result (λ v. v.items ≡ set_of T.cmp values.items) }
    ensures refused { OnErr result (¬ IsStrictlySortedBy T.cmp values.items) }
{
    if rise(values.as_slice()) {
        return Ok(values);
    }
    values.sort()?;
    values.dedup();
    Ok(values)
}

// Whether each value comes before the next.
fn rise<T: Ord>(values: &[T]) -> bool
    ensures { IsTrue result ↔ IsStrictlySortedBy T.cmp values.now }
{
    'values: for i in 1..values.len() {
        if values[i - 1].cmp(&values[i]) != Ordering::Less {
            return false;
        }
    }
    true
}
