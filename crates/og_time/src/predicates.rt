//! What holds of two ongoing periods, or of a period and a point, on which days.
//!
//! Each of the seven predicates asks that both periods are nonempty, and one or two comparisons of
//! their ends (docs/FORMATS.md, "Periods").
ghost use Rattle.std.specs.Prelude.{◌≡◌, ◌&&◌, ℤ, true, IfOk};
ghost use Rattle.og_base.specs.Calendar.{IsRefDay};
ghost use Rattle.og_base.specs.Ranges.{holds_day, ranges_of_cut};
ghost use Rattle.og_time.specs.FixedOperations.{contains_day, are_nonempty, is_before, meets_period, overlaps_period, starts_period, finishes_period, is_during, equals_period};
ghost use Rattle.og_time.specs.Point.{point_at};
ghost use Rattle.og_time.specs.Period.{period_at};

use crate::cuts::within;
use crate::ongoing_bool::OngoingBool;
use crate::period::OngoingPeriod;
use crate::point::OngoingPoint;
use og_base::{Cut, ExtDay, NoMemory, meet_cuts};
use std::alloc::Global;

impl OngoingPeriod {
    /// The days on which the point is in the period: at least its start, and before its end.
    pub fn contains(self, alloc: Global, p: OngoingPoint) -> Result<OngoingBool, NoMemory>
        ensures { IfOk result (λ b. (d : ℤ) → IsRefDay d → holds_day b d ≡ contains_day (period_at self d) (point_at p d)) }
    {
        let (from, to) = (self.start().le_days(p), p.lt_days(self.end()));
        let days = meet_cuts(alloc, from, to, every_day(), every_day())?;
        Ok(OngoingBool::of(days))
    }

    /// The days on which this period ends at most where the other starts, both being nonempty.
    pub fn before(self, alloc: Global, other: OngoingPeriod) -> Result<OngoingBool, NoMemory>
        ensures { IfOk result (λ b. (d : ℤ) → IsRefDay d → holds_day b d ≡ is_before (period_at self d) (period_at other d)) }
    {
        let comparison = self.end().le_days(other.start());
        self.both_nonempty(alloc, other, comparison, every_day())
    }

    /// The days on which this period ends where the other starts, both being nonempty.
    pub fn meets(self, alloc: Global, other: OngoingPeriod) -> Result<OngoingBool, NoMemory>
        ensures { IfOk result (λ b. (d : ℤ) → IsRefDay d → holds_day b d ≡ meets_period (period_at self d) (period_at other d)) }
    {
        let comparison = self.end().eq_days(other.start());
        self.both_nonempty(alloc, other, comparison, every_day())
    }

    /// The days on which each of the two periods starts before the other ends, both being nonempty.
    pub fn overlaps(self, alloc: Global, other: OngoingPeriod) -> Result<OngoingBool, NoMemory>
        ensures { IfOk result (λ b. (d : ℤ) → IsRefDay d → holds_day b d ≡ overlaps_period (period_at self d) (period_at other d)) }
    {
        let first = self.start().lt_days(other.end());
        let second = other.start().lt_days(self.end());
        self.both_nonempty(alloc, other, first, second)
    }

    /// The days on which both periods have one start, both being nonempty.
    pub fn starts(self, alloc: Global, other: OngoingPeriod) -> Result<OngoingBool, NoMemory>
        ensures { IfOk result (λ b. (d : ℤ) → IsRefDay d → holds_day b d ≡ starts_period (period_at self d) (period_at other d)) }
    {
        let comparison = self.start().eq_days(other.start());
        self.both_nonempty(alloc, other, comparison, every_day())
    }

    /// The days on which both periods have one end, both being nonempty.
    pub fn finishes(self, alloc: Global, other: OngoingPeriod) -> Result<OngoingBool, NoMemory>
        ensures { IfOk result (λ b. (d : ℤ) → IsRefDay d → holds_day b d ≡ finishes_period (period_at self d) (period_at other d)) }
    {
        let comparison = self.end().eq_days(other.end());
        self.both_nonempty(alloc, other, comparison, every_day())
    }

    /// The days on which this period starts at least where the other does, and ends at most where it does,
    /// both being nonempty.
    pub fn during(self, alloc: Global, other: OngoingPeriod) -> Result<OngoingBool, NoMemory>
        ensures { IfOk result (λ b. (d : ℤ) → IsRefDay d → holds_day b d ≡ is_during (period_at self d) (period_at other d)) }
    {
        let first = other.start().le_days(self.start());
        let second = self.end().le_days(other.end());
        self.both_nonempty(alloc, other, first, second)
    }

    /// The days on which both periods have one start and one end, both being nonempty.
    pub fn equals(self, alloc: Global, other: OngoingPeriod) -> Result<OngoingBool, NoMemory>
        ensures { IfOk result (λ b. (d : ℤ) → IsRefDay d → holds_day b d ≡ equals_period (period_at self d) (period_at other d)) }
    {
        let first = self.start().eq_days(other.start());
        let second = self.end().eq_days(other.end());
        self.both_nonempty(alloc, other, first, second)
    }

    // Whether both periods are nonempty and both cuts hold the day.
    fn both_nonempty(
        self,
        alloc: Global,
        other: OngoingPeriod,
        first: Cut,
        second: Cut,
    ) -> Result<OngoingBool, NoMemory>
        ensures { IfOk result (λ b. (d : ℤ) → IsRefDay d → holds_day b d ≡ (are_nonempty (period_at self d) (period_at other d)
            && (holds_day (ranges_of_cut first) d && holds_day (ranges_of_cut second) d))) }
    {
        let mine = self.start().lt_days(self.end());
        let theirs = other.start().lt_days(other.end());
        let days = meet_cuts(alloc, mine, theirs, first, second)?;
        Ok(OngoingBool::of(days))
    }
}

// The cut of all reference days.
fn every_day() -> Cut
    ensures { (d : ℤ) → IsRefDay d → holds_day (ranges_of_cut result) d ≡ true }
{
    within(ExtDay::NEG, ExtDay::POS)
}
