//! Cuts made of half-lines of days.
ghost use Rattle.std.specs.Prelude.{◌≡◌, ◌<ℤ◌, ◌&&◌, ◌||◌, not, ℤ, int_lt};
ghost use Rattle.og_base.specs.Calendar.{IsRefDay};
ghost use Rattle.og_base.specs.Ranges.{holds_day, ranges_of_cut};

use og_base::{Cut, DayRange, ExtDay, RefDay};

/// The days before `end`, and the days after `last`.
pub fn outside(end: ExtDay, last: ExtDay) -> Cut
    ensures { (d : ℤ) → IsRefDay d → holds_day (ranges_of_cut result) d ≡ (int_lt d end || int_lt last d) }
{
    if last < end {
        return between(ExtDay::NEG, ExtDay::POS);
    }
    match RefDay::from_number(last.number() + 1) {
        Some(next) => around(end, next),
        None => between(ExtDay::NEG, end),
    }
}

/// The days that are neither before `first` nor after `last`.
pub fn within(first: ExtDay, last: ExtDay) -> Cut
    ensures { (d : ℤ) → IsRefDay d → holds_day (ranges_of_cut result) d ≡ (not (int_lt d first) && not (int_lt last d)) }
{
    match ExtDay::from_number(last.number() + 1) {
        Some(next) => between(first, next),
        None => between(first, ExtDay::POS),
    }
}

// The days before `end`, and the days from `next` on.
fn around(end: ExtDay, next: RefDay) -> Cut
    requires { end <ℤ next }
    ensures { (d : ℤ) → IsRefDay d → holds_day (ranges_of_cut result) d ≡ (int_lt d end || not (int_lt d next)) }
{
    if end <= ExtDay::of(RefDay::FIRST) {
        return between(ExtDay::of(next), ExtDay::POS);
    }
    let first = DayRange {
        lo: RefDay::FIRST,
        hi: end,
    };
    let second = DayRange {
        lo: next,
        hi: ExtDay::POS,
    };
    Cut {
        first: Some(first),
        second: Some(second),
    }
}

// The days from `first` on, up to the day before `end`.
fn between(first: ExtDay, end: ExtDay) -> Cut
    ensures { (d : ℤ) → IsRefDay d → holds_day (ranges_of_cut result) d ≡ (not (int_lt d first) && int_lt d end) }
{
    let lo = first.as_ref_day().unwrap_or(RefDay::FIRST);
    if end <= first || end <= ExtDay::of(lo) {
        return Cut {
            first: None,
            second: None,
        };
    }
    Cut {
        first: Some(DayRange { lo, hi: end }),
        second: None,
    }
}
