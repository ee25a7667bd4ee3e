//! Ongoing booleans: truth values that depend on the day.
ghost use Rattle.std.specs.Prelude.{◌≡◌, ℤ, Bool, not, ◌&&◌, ◌||◌, IfOk};
ghost use Rattle.og_base.specs.Calendar.{IsRefDay};
ghost use Rattle.og_base.specs.Ranges.{holds_day};

use og_base::{NoMemory, RefDay, RtSet};
use std::alloc::Global;
use std::marker::Model;

/// A truth value on every day, seen as the set of the days on which it is true.
#[derive(Drop)]
pub struct OngoingBool {
    days: RtSet,
}

impl Model for OngoingBool {
    ghost use Rattle.std.specs.Prelude.{List};
    ghost use Rattle.og_base.specs.Ranges.{Range};

    ghost Value = { List Range };

    ghost view = { λ b. b.days };
}

impl OngoingBool {
    /// True on exactly these days.
    pub fn of(days: RtSet) -> OngoingBool
        ensures { result ≡ days }
    {
        OngoingBool { days }
    }

    /// The same truth value on every day.
    pub fn constant(alloc: Global, value: bool) -> Result<OngoingBool, NoMemory>
        ensures { IfOk result (λ b. (d : ℤ) → IsRefDay d → holds_day b d ≡ value) }
    {
        let days = if value {
            RtSet::all(alloc)?
        } else {
            RtSet::empty(alloc)
        };
        Ok(OngoingBool { days })
    }

    /// True on the days on which both are.
    pub fn and(&self, other: &OngoingBool) -> Result<OngoingBool, NoMemory>
        ensures { IfOk result (λ b. (d : ℤ) → holds_day b d ≡ (holds_day self.now d && holds_day other.now d)) }
    {
        let days = self.days.meet(&other.days)?;
        Ok(OngoingBool { days })
    }

    /// True on the days on which one of the two is.
    pub fn or(&self, other: &OngoingBool) -> Result<OngoingBool, NoMemory>
        ensures { IfOk result (λ b. (d : ℤ) → holds_day b d ≡ (holds_day self.now d || holds_day other.now d)) }
    {
        let days = self.days.union(&other.days)?;
        Ok(OngoingBool { days })
    }

    /// True on the reference days on which this one is false.
    pub fn not(&self) -> Result<OngoingBool, NoMemory>
        ensures { IfOk result (λ b. (d : ℤ) → IsRefDay d → holds_day b d ≡ not (holds_day self.now d)) }
    {
        let days = self.days.complement()?;
        Ok(OngoingBool { days })
    }

    /// The truth value on the day.
    pub fn holds_at(&self, d: RefDay) -> bool
        ensures { result ≡ holds_day self.now d }
    {
        self.days.contains(d)
    }

    /// The days on which it is true.
    pub fn into_days(self) -> RtSet
        ensures { result ≡ self }
    {
        self.days
    }
}
