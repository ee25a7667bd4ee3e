//! The walk over all combinations of one row from each list: places in the lists, the last one fastest.
ghost use Rattle.std.specs.Prelude.{◌≡◌, Some, None, IfOk, if◌then◌else◌, length, nat_lt};
ghost use Rattle.std.specs.List.{list_all};
ghost use Rattle.og_query.specs.Walk.{next_places, zeros};

use og_base::NoMemory;
use std::alloc::Global;

// Whether each of the lists has a row.
pub(crate) fn all_above_zero(sizes: &[usize]) -> bool
    ensures { result ≡ list_all (nat_lt 0) sizes.now }
{
    sizes.iter().all(|size| *size > 0)
}

// The first places in lists of these sizes.
pub(crate) fn first_places(alloc: Global, sizes: &[usize]) -> Result<Vec<usize>, NoMemory>
    ensures { IfOk result (λ places. places.items ≡ zeros sizes.now) }
{
    let mut places = Vec::with_capacity(alloc, sizes.len())?;
    'sizes: for _ in sizes {
        places.push(0)?;
    }
    Ok(places)
}

// Moves the places on by one combination of lists of these sizes, or back to the first after the last one.
pub(crate) fn advance(sizes: &[usize], places: &mut Vec<usize>) -> bool
    requires { length sizes.now ≡ length places.old.items }
    ensures next { next_places sizes.now places.old.items ≡ (if result then Some places.new.items else None) }
    ensures length { length places.new.items ≡ length places.old.items }
{
    let mut i = places.len();
    'back: while i > 0 {
        i -= 1;
        let next = places[i].saturating_add(1);
        if next < sizes[i] {
            places[i] = next;
            return true;
        }
        places[i] = 0;
    }
    false
}
