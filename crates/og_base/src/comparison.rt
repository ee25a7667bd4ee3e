//! Comparisons of spans of days, each counted.
ghost use Rattle.std.specs.Prelude.{◌≡◌, ◌↔◌, ◌+◌, ◌<◌, ◌≤ℤ◌, ◌<ℤ◌, ℤ, ℕ, IsTrue};

use crate::day::ExtDay;
use std::marker::Model;
use std::sync::ledger::{Blank, Book, Ledger, Share};

/// How many steps were taken. It has no bytes at run time, begins at 0, and only `tick` changes it.
#[derive(Drop)]
pub struct Steps<L: Ledger> {
    book: Book<L>,
    share: Share<L>,
}

impl<L: Ledger> Model for Steps<L> {
    ghost use Rattle.std.specs.Prelude.{ℕ, ◌<◌};

    ghost Value = { ℕ };

    ghost view = { λ s. s.book.total };

    ghost invariant = { λ s. 0 < s.share.parts };
}

impl<L: Ledger> Steps<L> {
    /// The counter of a new ledger. A ledger has one.
    pub fn open(blank: Blank) -> Steps<L>
        requires name { blank.name ≡ L.name }
        requires parts { blank.parts ≡ L.parts }
        requires some { 0 < L.parts }
        ensures { result ≡ 0 }
    {
        let (book, share) = blank.open();
        Steps { book, share }
    }

    /// One more step.
    pub fn tick(&mut self)
        ensures { self.new ≡ self.old + 1 }
    {
        self.book.add(&mut self.share, 1);
    }
}

/// A span of days, from a first day to an end after it, of which only comparisons can be seen.
pub trait Envelope<L: Ledger> {
    ghost lo: { Self → ℤ };

    ghost hi: { Self → ℤ };

    /// Whether this span begins no later than the other one: one step.
    fn lo_at_most(&self, other: &Self, steps: &mut Steps<L>) -> bool
        ensures answer { IsTrue result ↔ (lo self.now ≤ℤ lo other.now) }
        ensures cost { steps.new ≡ steps.old + 1 };

    /// Whether this span begins before the other one ends: one step.
    fn lo_below_end(&self, other: &Self, steps: &mut Steps<L>) -> bool
        ensures answer { IsTrue result ↔ (lo self.now <ℤ hi other.now) }
        ensures cost { steps.new ≡ steps.old + 1 };

    ghost spans: { (e : Self) → lo e <ℤ hi e };
}

/// The days from `lo` on, up to the day before `hi`, and the place of their row. `lo` is before `hi`.
#[derive(Clone, Copy, Debug)]
pub struct Outer {
    pub lo: ExtDay,
    pub hi: ExtDay,
    pub row: usize,
    ghost spans: { lo <ℤ hi },
}

impl<L: Ledger> Envelope<L> for Outer {
    ghost lo = { λ o. o.lo };

    ghost hi = { λ o. o.hi };

    fn lo_at_most(&self, other: &Outer, steps: &mut Steps<L>) -> bool {
        steps.tick();
        self.lo <= other.lo
    }

    fn lo_below_end(&self, other: &Outer, steps: &mut Steps<L>) -> bool {
        steps.tick();
        self.lo < other.hi
    }

    ghost spans = { λ o. o.spans };
}
