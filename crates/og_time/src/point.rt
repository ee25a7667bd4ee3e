//! Ongoing points, and their values on a day.
ghost use Rattle.std.specs.Prelude.{◌≡◌, ◌≤ℤ◌, ℤ, SomeIff, int_lt, not};
ghost use Rattle.std.specs.Ordering.{int_eq};
ghost use Rattle.og_base.specs.Calendar.{IsRefDay};
ghost use Rattle.og_base.specs.Ranges.{holds_day, ranges_of_cut};
ghost use Rattle.og_time.specs.FixedOperations.{least_of, greatest_of};

use crate::cuts::{outside, within};
use crate::ends::{earlier, later, parted_after, parted_before};
use og_base::{Cut, ExtDay, RefDay};
use std::marker::Model;

/// An ongoing point `a+b`: two extended days, `a` at most `b`. Its value on a day is that day, but
/// never before `a` and never after `b`. `a+a` is fixed, `-infinity+infinity` is now, `a+infinity`
/// grows and `-infinity+b` is limited.
#[derive(Clone, Copy, Debug, PartialEq, Eq)]
pub struct OngoingPoint {
    low: ExtDay,
    high: ExtDay,
}

impl Model for OngoingPoint {
    ghost use Rattle.og_time.specs.Point.{Point, IsPoint};

    ghost Value = { Point };

    ghost view = { λ p. record { low = p.low; high = p.high } };

    ghost invariant = { λ p. IsPoint (record { low = p.low; high = p.high }) };

    ghost inverse = { λ p. record { low = p.low; high = p.high } };
}

impl OngoingPoint {
    ghost use Rattle.og_time.specs.Point.{Point, IsPoint, point_at};

    /// The point `a+b`, or none where `a` is after `b`.
    pub fn new(a: ExtDay, b: ExtDay) -> Option<OngoingPoint>
        ensures { SomeIff result (a ≤ℤ b) (record { low = a; high = b }) }
    {
        if a > b {
            return None;
        }
        Some(OngoingPoint { low: a, high: b })
    }

    /// The low end is at most the high end, and both are extended days.
    pub fn ordered(self)
        ensures { IsPoint self }
    {
        let _ = self.low;
    }

    /// The first day that the point's value may be.
    pub fn low(self) -> ExtDay
        ensures { result ≡ self.low }
    {
        self.low
    }

    /// The last day that the point's value may be.
    pub fn high(self) -> ExtDay
        ensures { result ≡ self.high }
    {
        self.high
    }

    /// The value on the day: the day itself, but at least the low end and at most the high end.
    pub fn at(self, d: RefDay) -> ExtDay
        ensures { result ≡ point_at self d }
    {
        let day = ExtDay::of(d);
        if day <= self.low {
            self.low
        } else if day < self.high {
            day
        } else {
            self.high
        }
    }

    /// The point that is the earlier of the two on every day.
    pub fn least(self, other: OngoingPoint) -> OngoingPoint
        ensures ends { result ≡ record { low = least_of self.low other.low; high = least_of self.high other.high } }
        ensures value { (d : ℤ) → IsRefDay d → point_at result d ≡ least_of (point_at self d) (point_at other d) }
    {
        OngoingPoint {
            low: earlier(self.low, other.low),
            high: earlier(self.high, other.high),
        }
    }

    /// The point that is the later of the two on every day.
    pub fn greatest(self, other: OngoingPoint) -> OngoingPoint
        ensures ends { result ≡ record { low = greatest_of self.low other.low; high = greatest_of self.high other.high } }
        ensures value { (d : ℤ) → IsRefDay d → point_at result d ≡ greatest_of (point_at self d) (point_at other d) }
    {
        OngoingPoint {
            low: later(self.low, other.low),
            high: later(self.high, other.high),
        }
    }

    /// The days on which this point is before the other.
    pub fn lt_days(self, other: OngoingPoint) -> Cut
        ensures { (d : ℤ) → IsRefDay d →
            holds_day (ranges_of_cut result) d ≡ int_lt (point_at self d) (point_at other d) }
    {
        let before = parted_before(self.low, other.low);
        let after = parted_after(self.high, other.high);
        outside(before, after)
    }

    /// The days on which this point is at most the other.
    pub fn le_days(self, other: OngoingPoint) -> Cut
        ensures { (d : ℤ) → IsRefDay d →
            holds_day (ranges_of_cut result) d ≡ not (int_lt (point_at other d) (point_at self d)) }
    {
        // The days on which the other point is not before this one.
        let before = parted_before(other.low, self.low);
        let after = parted_after(other.high, self.high);
        within(before, after)
    }

    /// The days on which the two points are the same.
    pub fn eq_days(self, other: OngoingPoint) -> Cut
        ensures { (d : ℤ) → IsRefDay d →
            holds_day (ranges_of_cut result) d ≡ int_eq (point_at self d) (point_at other d) }
    {
        // The days on which neither point is before the other.
        let before = later(
            parted_before(self.low, other.low),
            parted_before(other.low, self.low),
        );
        let after = earlier(
            parted_after(self.high, other.high),
            parted_after(other.high, self.high),
        );
        within(before, after)
    }
}
