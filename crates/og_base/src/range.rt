//! Ranges of days.
ghost use Rattle.std.specs.Prelude.{◌≡◌, ◌<ℤ◌};

use crate::day::{ExtDay, RefDay};
use std::marker::Model;

/// The days from `lo` on, up to the day before `hi`. `lo` is before `hi`.
#[derive(Clone, Copy, Debug, PartialEq, Eq)]
pub struct DayRange {
    pub lo: RefDay,
    pub hi: ExtDay,
}

impl Model for DayRange {
    ghost use Rattle.og_base.specs.Ranges.{Range, IsRange};

    ghost Value = { Range };

    ghost view = { λ r. record { lo = r.lo; hi = r.hi } };

    ghost invariant = { λ r. IsRange (record { lo = r.lo; hi = r.hi }) };

    ghost inverse = { λ r. record { lo = r.lo; hi = r.hi } };
}

/// At most two ranges, which rise and do not touch. `second` stands only beside `first`.
#[derive(Clone, Copy, Debug, PartialEq, Eq)]
pub struct Cut {
    pub first: Option<DayRange>,
    pub second: Option<DayRange>,
}

impl Model for Cut {
    ghost use Rattle.og_base.specs.Ranges.{CutRanges, IsCut};

    ghost Value = { CutRanges };

    ghost view = { λ c. record { first = c.first; second = c.second } };

    ghost invariant = { λ c. IsCut (record { first = c.first; second = c.second }) };

    ghost inverse = { λ c. record { first = c.first; second = c.second } };
}

/// A period on one day: its start and its end. It is empty where its end is at most its start.
#[derive(Clone, Copy, Debug, PartialEq, Eq, PartialOrd, Ord)]
pub struct FixedPeriod {
    pub start: ExtDay,
    pub end: ExtDay,
}
