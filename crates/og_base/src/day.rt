//! Days, seen as their numbers: days counted from 1970-01-01.
ghost use Rattle.std.specs.Prelude.{◌≡◌, ℤ, IfSome, SomeIff};
ghost use Rattle.og_base.specs.Calendar.{IsRefDay, IsExtDay, first_day, last_day, before_all, after_all};

use std::marker::Model;

const FIRST: i32 = -4_371_587;

const LAST: i32 = 2_932_896;

/// A reference day: a civil day of the proleptic Gregorian calendar, from -9999-01-01 to 9999-12-31.
#[derive(Clone, Copy, Debug, PartialEq, Eq, PartialOrd, Ord)]
pub struct RefDay {
    number: i32,
}

impl Model for RefDay {
    ghost Value = { ℤ };

    ghost view = { λ d. d.number };

    ghost invariant = { λ d. IsRefDay d.number };

    ghost inverse = { λ n. record { number = n } };
}

impl RefDay {
    /// -9999-01-01.
    pub const FIRST: RefDay = RefDay { number: FIRST };

    /// 9999-12-31.
    pub const LAST: RefDay = RefDay { number: LAST };

    /// The day with that number, or none where the calendar has no such day.
    pub fn from_number(n: i32) -> Option<RefDay>
        ensures { SomeIff result (IsRefDay n) n }
    {
        if n < FIRST || n > LAST {
            return None;
        }
        Some(RefDay { number: n })
    }

    /// The number of the day: days from 1970-01-01.
    pub fn number(self) -> i32
        ensures value { result ≡ self }
        ensures range { IsRefDay result }
    {
        self.number
    }
}

/// A reference day, -infinity or infinity. Days are ordered by their numbers.
#[derive(Clone, Copy, Debug, PartialEq, Eq, PartialOrd, Ord)]
pub struct ExtDay {
    number: i32,
}

impl Model for ExtDay {
    ghost Value = { ℤ };

    ghost view = { λ d. d.number };

    ghost invariant = { λ d. IsExtDay d.number };

    ghost inverse = { λ n. record { number = n } };
}

impl ExtDay {
    /// -infinity: before every reference day.
    pub const NEG: ExtDay = ExtDay { number: FIRST - 1 };

    /// infinity: after every reference day.
    pub const POS: ExtDay = ExtDay { number: LAST + 1 };

    /// The day with that number, or none where it is the number of no extended day.
    pub fn from_number(n: i32) -> Option<ExtDay>
        ensures { SomeIff result (IsExtDay n) n }
    {
        if n < FIRST - 1 || n > LAST + 1 {
            return None;
        }
        Some(ExtDay { number: n })
    }

    /// The number of the day: days from 1970-01-01, and one past the ends for the infinities.
    pub fn number(self) -> i32
        ensures value { result ≡ self }
        ensures range { IsExtDay result }
    {
        self.number
    }

    /// The reference day as an extended day.
    pub fn of(d: RefDay) -> ExtDay
        ensures { result ≡ d }
    {
        ExtDay { number: d.number }
    }

    /// The reference day that this day is, or none at the two infinities.
    pub fn as_ref_day(self) -> Option<RefDay>
        ensures { SomeIff result (IsRefDay self) self }
    {
        RefDay::from_number(self.number)
    }
}
