//! How long a set of days stays as it is on a day.
ghost use Rattle.std.specs.Prelude.{◌≡◌, ◌⊎◌, ◌&&◌, ◌<ℤ◌, ◌≤ℤ◌, ℤ};
ghost use Rattle.og_base.specs.Ranges.{IsRange, holds_day, in_range};
ghost use Rattle.og_change.specs.Same.{IsLongest};

use og_base::{DayRange, ExtDay, RefDay, RtSet};

/// The longest range of days around the day that the set holds all, where it holds the day, and else that it
/// holds none of. Takes no memory.
pub(crate) fn around(set: &RtSet, d: RefDay) -> DayRange
    ensures { IsLongest (λ e. holds_day set.now e ≡ holds_day set.now d) d result }
{
    set.normal();
    let day = d.number();
    let mut low = RefDay::FIRST;
    'places: for i in 0..set.range_count() {
        let range = set.range(i);
        if day < range.lo.number() {
            let hi = ExtDay::of(range.lo);
            return DayRange { lo: low, hi };
        }
        let Some(end) = range.hi.as_ref_day() else {
            return range;
        };
        if day < end.number() {
            return range;
        }
        low = end;
    }
    DayRange {
        lo: low,
        hi: ExtDay::POS,
    }
}

/// The days that both ranges hold, of which there are some.
pub(crate) fn shared(first: DayRange, second: DayRange) -> DayRange
    requires first_begins { first.lo <ℤ second.hi }
    requires second_begins { second.lo <ℤ first.hi }
    ensures range { IsRange result }
    ensures days { (e : ℤ) → in_range result e ≡ (in_range first e && in_range second e) }
{
    let lo = later(first.lo, second.lo);
    let hi = earlier(first.hi, second.hi);
    DayRange { lo, hi }
}

// The later one of two days.
fn later(first: RefDay, second: RefDay) -> RefDay
    ensures after_first { first ≤ℤ result }
    ensures after_second { second ≤ℤ result }
    ensures one { (result ≡ first) ⊎ (result ≡ second) }
{
    if first < second { second } else { first }
}

// The earlier one of two days.
fn earlier(first: ExtDay, second: ExtDay) -> ExtDay
    ensures before_first { result ≤ℤ first }
    ensures before_second { result ≤ℤ second }
    ensures one { (result ≡ first) ⊎ (result ≡ second) }
{
    if first < second { first } else { second }
}
