//! Ongoing periods, and their values on a day.
ghost use Rattle.std.specs.Prelude.{◌≡◌, ◌≤ℤ◌, ℤ};
ghost use Rattle.og_base.specs.Calendar.{IsRefDay};
ghost use Rattle.og_base.specs.Ranges.{holds_day, ranges_of_cut};
ghost use Rattle.og_time.specs.FixedOperations.{least_of, greatest_of, start_of, end_of, period_of, common_of, is_empty_period};
ghost use Rattle.og_time.specs.Point.{point_at};
ghost use Rattle.og_time.specs.Period.{IsPeriod, period_at};

use crate::point::OngoingPoint;
use og_base::{Cut, FixedPeriod, RefDay};
use std::marker::Model;

/// An ongoing period `[start,end)`: two ongoing points. Its value on a day is the pair of their
/// values, and it is empty on the days on which its end is at most its start.
#[derive(Clone, Copy, Debug, PartialEq, Eq)]
pub struct OngoingPeriod {
    start: OngoingPoint,
    end: OngoingPoint,
}

impl Model for OngoingPeriod {
    ghost use Rattle.og_time.specs.Period.{Period};

    ghost Value = { Period };

    ghost view = { λ i. record { start = i.start; end = i.end } };

    ghost inverse = { λ i. record { start = i.start; end = i.end } };
}

impl OngoingPeriod {
    /// The period from the one point to the other.
    pub fn new(start: OngoingPoint, end: OngoingPoint) -> OngoingPeriod
        ensures ends { result ≡ record { start = start; end = end } }
        ensures value { (d : ℤ) → IsRefDay d → period_at result d ≡ period_of (point_at start d) (point_at end d) }
    {
        OngoingPeriod { start, end }
    }

    /// The ends are points.
    pub fn ordered(self)
        ensures { IsPeriod self }
    {
        self.start.ordered();
        self.end.ordered();
    }

    /// The point at which the period starts.
    pub fn start(self) -> OngoingPoint
        ensures point { result ≡ self.start }
        ensures value { (d : ℤ) → IsRefDay d → point_at result d ≡ start_of (period_at self d) }
    {
        self.start
    }

    /// The point at which the period ends.
    pub fn end(self) -> OngoingPoint
        ensures point { result ≡ self.end }
        ensures value { (d : ℤ) → IsRefDay d → point_at result d ≡ end_of (period_at self d) }
    {
        self.end
    }

    /// The value on the day: the values of both ends.
    pub fn at(self, d: RefDay) -> FixedPeriod
        ensures { result ≡ period_at self d }
    {
        FixedPeriod {
            start: self.start.at(d),
            end: self.end.at(d),
        }
    }

    /// The period that has on every day what both periods have in common: from the later of the
    /// starts to the earlier of the ends.
    pub fn common(self, other: OngoingPeriod) -> OngoingPeriod
        ensures start { result.start ≡ record { low = greatest_of self.start.low other.start.low; high = greatest_of self.start.high other.start.high } }
        ensures end { result.end ≡ record { low = least_of self.end.low other.end.low; high = least_of self.end.high other.end.high } }
        ensures value { (d : ℤ) → IsRefDay d → period_at result d ≡ common_of (period_at self d) (period_at other d) }
    {
        OngoingPeriod {
            start: self.start.greatest(other.start),
            end: self.end.least(other.end),
        }
    }

    /// The fixed period round the values on all days: from the low end of the start to the high end
    /// of the end.
    pub fn outer(self) -> FixedPeriod
        ensures ends { result ≡ record { start = self.start.low; end = self.end.high } }
        ensures start { (d : ℤ) → IsRefDay d → result.start ≤ℤ point_at self.start d }
        ensures end { (d : ℤ) → IsRefDay d → point_at self.end d ≤ℤ result.end }
    {
        self.start.ordered();
        self.end.ordered();
        FixedPeriod {
            start: self.start.low(),
            end: self.end.high(),
        }
    }

    /// The days on which the period is empty.
    pub fn empty_days(self) -> Cut
        ensures { (d : ℤ) → IsRefDay d → holds_day (ranges_of_cut result) d ≡ is_empty_period (period_at self d) }
    {
        self.end.le_days(self.start)
    }
}
