//! Where the parts of a condition belong: at the leaf of a FROM item, or at a join.
ghost use Rattle.std.specs.Prelude.{◌≡◌, ◌==◌, IfOk, fold, map, max};
ghost use Rattle.std.specs.List.{list_all};
ghost use Rattle.og_plan.specs.Homes as spec;
ghost use Rattle.og_plan.specs.Parts as parts;

use crate::parts::add_copy;
use crate::places::places_of;
use crate::plan::Home;
use og_base::NoMemory;
use og_query::Cond;
use sqlite_items::Items;
use std::alloc::Global;

// The item, from 0, among whose columns the place is, where the items have so many columns.
fn item_at(widths: &[usize], place: usize) -> usize
    ensures { result ≡ spec.item_at widths.now place }
{
    let mut left = place;
    'items: for i in 0..widths.len() {
        if left < widths[i] {
            return i;
        }
        left -= widths[i];
    }
    widths.len()
}

// The items whose columns the part names.
fn items_of(alloc: Global, widths: &[usize], part: &Cond) -> Result<Vec<usize>, NoMemory>
    ensures { IfOk result (λ items. items.items ≡ map (spec.item_at widths.now) (parts.places_of part.now)) }
{
    let mut places = Vec::new(alloc);
    places_of(part, &mut places)?;
    let mut items = Vec::with_capacity(alloc, places.len())?;
    'places: for place in places.as_slice() {
        items.push(item_at(widths, *place))?;
    }
    Ok(items)
}

// The greatest of the numbers.
fn greatest(first: usize, others: &[usize]) -> usize
    ensures { result ≡ fold max first others.now }
{
    let mut most = first;
    'others: for other in others {
        most = most.max(*other);
    }
    most
}

// Whether all are that number.
fn all_are(wanted: usize, others: &[usize]) -> bool
    ensures { result ≡ list_all (λ n. n == wanted) others.now }
{
    others.iter().all(|other| *other == wanted)
}

// Where what names columns of these items belongs: nothing at the first leaf, one item at its leaf,
// others at the join of the last.
fn home_of_items(items: &[usize]) -> Home
    ensures { result ≡ spec.home_of_items items.now }
{
    match items {
        [] => Home::Leaf(0),
        [first, others @ ..] => {
            if all_are(*first, others) {
                Home::Leaf(*first)
            } else {
                Home::Join(greatest(*first, others))
            }
        }
    }
}

// Where a part belongs.
fn home_of(alloc: Global, widths: &[usize], part: &Cond) -> Result<Home, NoMemory>
    ensures { IfOk result (λ home. home ≡ spec.home_of widths.now part.now) }
{
    let items = items_of(alloc, widths, part)?;
    Ok(home_of_items(items.as_slice()))
}

// Whether two homes are one.
fn same_home(home: Home, other: Home) -> bool
    ensures { result ≡ spec.same_home home other }
{
    match (home, other) {
        (Home::Leaf(k), Home::Leaf(n)) => k == n,
        (Home::Join(k), Home::Join(n)) => k == n,
        _ => false,
    }
}

// The parts that belong there, in their order.
pub(crate) fn parts_at(
    alloc: Global,
    widths: &[usize],
    home: Home,
    parts: &[Cond],
) -> Result<Items<Cond>, NoMemory>
    ensures { IfOk result (λ here. here ≡ spec.parts_at widths.now home parts.now) }
{
    let mut here = Items::new(alloc);
    'parts: for part in parts {
        if same_home(home_of(alloc, widths, part)?, home) {
            add_copy(alloc, part, &mut here)?;
        }
    }
    Ok(here)
}
