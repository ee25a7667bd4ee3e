//! The days between two ends.
ghost use Rattle.std.specs.Prelude.{◌≡◌, ◌↔◌, ◌<◌, ◌&&◌, ◌||◌, int_lt, ℤ, length, IsSome, IfSome, IfNone, IsTrue};
ghost use Rattle.og_base.specs.Ranges.{in_range, holds_day, ranges_of_cut};
ghost use Rattle.og_base.specs.Boundaries.{ranges_of};
ghost use Rattle.og_base.specs.Calendar.{first_day, after_all};

use crate::day::{ExtDay, RefDay};
use crate::range::Cut;
use std::marker::Model;

/// The days from `lo` on, up to the day before `hi`: none where `hi` is at most `lo`.
#[derive(Clone, Copy)]
pub struct Span {
    pub lo: RefDay,
    pub hi: ExtDay,
}

impl Model for Span {
    ghost use Rattle.og_base.specs.Ranges.{Range};

    ghost Value = { Range };

    ghost view = { λ s. record { lo = s.lo; hi = s.hi } };

    ghost inverse = { λ r. record { lo = r.lo; hi = r.hi } };
}

impl Span {
    /// No day.
    const NONE: Span = Span {
        lo: RefDay::FIRST,
        hi: ExtDay::NEG,
    };

    /// The days between the boundaries, where they are at most two.
    pub fn of(boundaries: &[RefDay]) -> Option<Span>
        ensures span { IfSome result (λ s. (d : ℤ) → holds_day (ranges_of boundaries.now) d ≡ in_range s d) }
        ensures none { IfNone result (2 < length boundaries.now) }
    {
        match boundaries {
            [] => Some(Span::NONE),
            [lo] => Some(Span {
                lo: *lo,
                hi: ExtDay::POS,
            }),
            [lo, hi] => Some(Span {
                lo: *lo,
                hi: ExtDay::of(*hi),
            }),
            _ => None,
        }
    }

    /// The days of the cut, where it has at most one range.
    pub fn of_cut(c: &Cut) -> Option<Span>
        ensures span { IfSome result (λ s. (d : ℤ) → holds_day (ranges_of_cut c.now) d ≡ in_range s d) }
        ensures none { IfNone result (IsSome c.now.second) }
    {
        if c.second.is_some() {
            return None;
        }
        match c.first {
            Some(range) => Some(Span {
                lo: range.lo,
                hi: range.hi,
            }),
            None => Some(Span::NONE),
        }
    }

    /// Whether it holds each reference day.
    pub fn is_all(self) -> bool
        ensures { IsTrue result ↔ (self ≡ record { lo = first_day; hi = after_all }) }
    {
        self.lo == RefDay::FIRST && self.hi == ExtDay::POS
    }

    /// The days that both spans hold.
    pub fn meet(self, other: Span) -> Span
        ensures { (d : ℤ) → in_range result d ≡ (in_range self d && in_range other d) }
    {
        Span {
            lo: later(self.lo, other.lo),
            hi: earlier(self.hi, other.hi),
        }
    }
}

// The later of two days: what is before one of them is before it.
fn later(a: RefDay, b: RefDay) -> RefDay
    ensures { (d : ℤ) → int_lt d result ≡ (int_lt d a || int_lt d b) }
{
    if a < b { b } else { a }
}

// The earlier of two days: what is before both is before it.
fn earlier(a: ExtDay, b: ExtDay) -> ExtDay
    ensures { (d : ℤ) → int_lt d result ≡ (int_lt d a && int_lt d b) }
{
    if a < b { a } else { b }
}
