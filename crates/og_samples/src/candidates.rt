//! Candidates of spans of days.
ghost use Rattle.std.specs.Prelude.{◌≡◌, ◌+◌, ◌≤◌, ◌<◌, ◌<ℤ◌, length};
ghost use Rattle.og_base.specs.Calendar.{IsExtDay};
ghost use Rattle.og_join.specs.Overlaps.{Rises};

use og_base::{ExtDay, Outer, Steps};
use og_join::candidates;
use std::alloc::Global;
use std::marker::Brand;
use std::sync::ledger::{Blank, Ledger};

// The span from the day of one number to the day before that of the other.
fn span(lo: i32, hi: i32) -> Outer
    requires lo_in { IsExtDay lo }
    requires hi_in { IsExtDay hi }
    requires some { lo <ℤ hi }
    ensures lo { result.lo ≡ lo }
    ensures hi { result.hi ≡ hi }
{
    let lo = ExtDay::from_number(lo).unwrap();
    let hi = ExtDay::from_number(hi).unwrap();
    Outer { lo, hi, row: 0 }
}

// Whether these are the pairs of places of the spans that overlap, in rising order.
fn are_pairs(alloc: Global, left: &[Outer], right: &[Outer], pairs: &[(usize, usize)]) -> bool
    requires left_rises { Rises (λ o. o.lo) left.now }
    requires right_rises { Rises (λ o. o.lo) right.now }
{
    are_counted::<Brand>(alloc, left, right, pairs, Blank::new(1))
}

// Whether these are the pairs of places of the spans that overlap, with a new counter.
fn are_counted<L: Ledger>(
    alloc: Global,
    left: &[Outer],
    right: &[Outer],
    pairs: &[(usize, usize)],
    blank: Blank,
) -> bool
    requires name { blank.name ≡ L.name }
    requires parts { blank.parts ≡ L.parts }
    requires some { 0 < L.parts }
    requires left_rises { Rises (λ o. o.lo) left.now }
    requires right_rises { Rises (λ o. o.lo) right.now }
{
    let mut steps = Steps::<L>::open(blank);
    match candidates(alloc, left, right, &mut steps) {
        Ok(mut found) => {
            if left.len() == 2 && right.len() == 1 && found.len() == 2 {
                at_most_eight(&steps);
            }
            found.sort().is_ok() && found.as_slice() == pairs
        }
        Err(_) => false,
    }
}

// At most eight steps were taken.
fn at_most_eight<L: Ledger>(steps: &Steps<L>)
    requires { steps.now ≤ 8 }
{}

#[test]
fn each_pair_of_spans_that_overlap_is_told_once(rt: HostRuntime) {
    let alloc = rt.alloc();
    let one = [span(5, 7)];
    let same = [span(5, 7), span(5, 7)];
    let apart = [span(0, 5), span(7, 9)];
    assert!(rt; are_pairs(alloc, &[span(0, 10), span(5, 6)], &one, &[(0, 0), (1, 0)]));
    assert!(rt; are_pairs(alloc, &same, &same, &[(0, 0), (0, 1), (1, 0), (1, 1)]));
    assert!(rt; are_pairs(alloc, &apart, &one, &[]));
    assert!(rt; are_pairs(alloc, &apart, &[], &[]) && are_pairs(alloc, &[], &one, &[]));
}
