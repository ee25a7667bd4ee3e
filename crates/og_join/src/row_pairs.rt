//! The places of the rows whose spans overlap, in the order of the rows.
ghost use Rattle.std.specs.Prelude.{◌≡◌, ◌+◌, ◌*◌, ◌<◌, ◌≤◌, ◌&&◌, ◌||◌, ℕ, Bool, IfOk, OnOk, length};
ghost use Rattle.std.specs.List.{list_any};
ghost use Rattle.std.specs.List.Sorted.{IsPermutation};
ghost use Rattle.og_join.specs.Overlaps.{Rises, overlap, overlaps};
ghost use Rattle.og_join.specs.Tried.{rows_pass};

use crate::outers::RisingSpans;
use crate::sweep::candidates;
use og_base::{NoMemory, Outer, Steps};
use std::alloc::Global;
use std::marker::Brand;
use std::sync::ledger::{Blank, Ledger};

// The places of the rows of each left and right span that overlap, in rising order: what is made of them comes
// in the order of the left rows, in which it often is printed.
pub(crate) fn row_pairs(
    alloc: Global,
    left: &[Outer],
    right: &RisingSpans,
) -> Result<Vec<(usize, usize)>, NoMemory>
    ensures rows { IfOk result (λ v. (t : ℕ → ℕ → Bool) → list_any (λ p. t p.0 p.1) v.items
        ≡ list_any (λ a. list_any (λ b. overlap (λ o. o.lo) (λ o. o.hi) a b && t a.row b.row) right.now) left.now) }
    ensures size { IfOk result (λ v. length v.items ≤ length left.now * length right.now) }
{
    let rising = RisingSpans::of(alloc, left)?;
    let (left, right) = (rising.as_slice(), right.as_slice());
    let places = overlapping::<Brand>(alloc, left, right, Blank::new(1))?;
    let mut pairs = rows_of_places(alloc, left, right, places.as_slice())?;
    pairs.sort_unstable();
    Ok(pairs)
}

// The pairs of places of the spans that overlap, counted by a counter of its own.
fn overlapping<L: Ledger>(
    alloc: Global,
    left: &[Outer],
    right: &[Outer],
    blank: Blank,
) -> Result<Vec<(usize, usize)>, NoMemory>
    requires name { blank.name ≡ L.name }
    requires parts { blank.parts ≡ L.parts }
    requires some { 0 < L.parts }
    requires left_rises { Rises (λ o. o.lo) left.now }
    requires right_rises { Rises (λ o. o.lo) right.now }
    ensures { IfOk result (λ v. IsPermutation v.items (overlaps (λ o. o.lo) (λ o. o.hi) 0 0 left.now right.now)) }
{
    let mut steps = Steps::<L>::open(blank);
    candidates(alloc, left, right, &mut steps)
}

// The places of the rows of the spans at the pairs of places.
fn rows_of_places(
    alloc: Global,
    left: &[Outer],
    right: &[Outer],
    places: &[(usize, usize)],
) -> Result<Vec<(usize, usize)>, NoMemory>
    ensures rows { IfOk result (λ v. (t : ℕ → ℕ → Bool) → list_any (λ p. t p.0 p.1) v.items ≡ list_any (rows_pass t left.now right.now) places.now) }
    ensures size { IfOk result (λ v. length v.items ≤ length places.now) }
{
    let mut rows = Vec::with_capacity(alloc, places.len())?;
    'places: for place in places {
        add_rows(left, right, *place, &mut rows)?;
    }
    Ok(rows)
}

// Adds the places of the rows of the spans at both places, where there are such spans.
fn add_rows(
    left: &[Outer],
    right: &[Outer],
    place: (usize, usize),
    rows: &mut Vec<(usize, usize)>,
) -> Result<(), NoMemory>
    ensures rows { OnOk result ((t : ℕ → ℕ → Bool) → list_any (λ p. t p.0 p.1) rows.new.items ≡ (list_any (λ p. t p.0 p.1) rows.old.items || rows_pass t left.now right.now place)) }
    ensures size { OnOk result (length rows.new.items ≤ length rows.old.items + 1) }
{
    let (i, j) = place;
    if i < left.len() && j < right.len() {
        rows.push((left[i].row, right[j].row))?;
    }
    Ok(())
}
