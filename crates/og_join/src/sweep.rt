//! The pairs of spans that overlap, by one walk over two lists in rising order.
ghost use Rattle.std.specs.Prelude.{◌≡◌, ◌+◌, ◌*◌, ◌^◌, ◌<◌, ◌≤◌, ◌++◌, IfOk, OnOk, OnErr, length, drop};
ghost use Rattle.std.specs.List.Sorted.{IsPermutation};
ghost use Rattle.og_join.specs.Overlaps.{Rises, overlaps};
ghost use Rattle.og_join.specs.Sweep.{reach_of, row_places, column_places, rest_of};

use og_base::{Envelope, NoMemory, Steps};
use std::alloc::Global;
use std::sync::ledger::Ledger;

/// The pairs of places of left and right spans that overlap, each once, in any order. Each list has
/// to rise by `lo`. Counts at most two steps for each span and one for each pair, also where it is refused:
/// only for want of memory, and the counter then keeps the steps that were made.
pub fn candidates<L: Ledger, E: Envelope<L>>(
    alloc: Global,
    left: &[E],
    right: &[E],
    steps: &mut Steps<L>,
) -> Result<Vec<(usize, usize)>, NoMemory>
    requires left_rises { Rises E.lo left.now }
    requires right_rises { Rises E.lo right.now }
    ensures exact { IfOk result (λ v. IsPermutation v.items (overlaps E.lo E.hi 0 0 left.now right.now)) }
    ensures cost { IfOk result (λ v. steps.new ≤ steps.old + 2 * (length left.now + length right.now) + length v.items) }
    ensures bound { steps.new ≤ steps.old + 2 * (length left.now + length right.now) + length (overlaps E.lo E.hi 0 0 left.now right.now) }
    ensures later { steps.old ≤ steps.new }
{
    let mut found = Vec::new(alloc);
    let mut i = 0;
    let mut j = 0;
    'sweep: while i < left.len() && j < right.len() {
        if pair_first(left, i, right, j, steps, &mut found)? {
            i += 1;
        } else {
            j += 1;
        }
    }
    Ok(found)
}

// Whether the left span begins first. Adds the pairs of the one that does, from these places on.
fn pair_first<L: Ledger, E: Envelope<L>>(
    left: &[E],
    i: usize,
    right: &[E],
    j: usize,
    steps: &mut Steps<L>,
    found: &mut Vec<(usize, usize)>,
) -> Result<bool, NoMemory>
    requires left_rises { Rises E.lo left.now }
    requires right_rises { Rises E.lo right.now }
    requires left_place { i < length left.now }
    requires right_place { j < length right.now }
    ensures exact { IfOk result (λ first. IsPermutation
        (found.new.items ++ rest_of E.lo E.hi first i j left.now right.now)
        (found.old.items ++ overlaps E.lo E.hi i j (drop i left.now) (drop j right.now))) }
    ensures cost { OnOk result (steps.new + length found.old.items ≤ steps.old + 2 + length found.new.items) }
    ensures refused { OnErr result (steps.new ≤ steps.old + 2 + length (overlaps E.lo E.hi i j (drop i left.now) (drop j right.now))) }
    ensures later { steps.old ≤ steps.new }
{
    let first = &left[i];
    let second = &right[j];
    if first.lo_at_most(second, steps) {
        let count = reach(first, &right[j..], steps);
        push_row(i, j, count, found)?;
        Ok(true)
    } else {
        let count = reach(second, &left[i..], steps);
        push_column(i, j, count, found)?;
        Ok(false)
    }
}

// How many of the first spans begin before the end of this one.
fn reach<L: Ledger, E: Envelope<L>>(span: &E, others: &[E], steps: &mut Steps<L>) -> usize
    ensures value { result ≡ reach_of E.lo (E.hi span.now) others.now }
    ensures cost { steps.new ≤ steps.old + result + 1 }
    ensures later { steps.old ≤ steps.new }
    ensures most { result ≤ length others.now }
{
    let mut count = 0;
    'others: for other in others {
        if !other.lo_below_end(span, steps) {
            return count;
        }
        count += 1;
    }
    count
}

// Adds the pairs of one left place with so many right ones.
fn push_row(
    i: usize,
    j: usize,
    count: usize,
    found: &mut Vec<(usize, usize)>,
) -> Result<(), NoMemory>
    requires fits { j + count < 2 ^ 64 }
    ensures places { OnOk result (found.new.items ≡ found.old.items ++ row_places i j count) }
{
    'places: for k in 0..count {
        found.push((i, j + k))?;
    }
    Ok(())
}

// Adds the pairs of one right place with so many left ones.
fn push_column(
    i: usize,
    j: usize,
    count: usize,
    found: &mut Vec<(usize, usize)>,
) -> Result<(), NoMemory>
    requires fits { i + count < 2 ^ 64 }
    ensures places { OnOk result (found.new.items ≡ found.old.items ++ column_places i j count) }
{
    'places: for k in 0..count {
        found.push((i + k, j))?;
    }
    Ok(())
}
