//! Rows whose value depends on the day, and what is done with such rows on every day at once.
ghost use Rattle.std.specs.Prelude.{◌≡◌, ◌↔◌, ℤ, Bool, true, false, IfOk};
ghost use Rattle.og_base.specs.Calendar.{IsRefDay};
ghost use Rattle.og_base.specs.Groups.{share_group};
ghost use Rattle.og_base.specs.Ranges.{holds_day};
ghost use Rattle.og_base.specs.Set.{IsExact};

use crate::day::RefDay;
use crate::memory::NoMemory;
use crate::rt_set::RtSet;
use std::alloc::Global;

/// A value that depends on the day.
pub trait Instant {
    /// The value on one day. Its order is total.
    type Fixed: Ord + Drop;

    ghost meaning: { Self → ℤ → Self.Fixed };

    /// The value on the day.
    fn at(&self, alloc: Global, d: RefDay) -> Result<Self::Fixed, NoMemory>
        ensures { IfOk result (λ x. x ≡ meaning self.now d) };

    /// The order answers Equal only for two values that contracts see as the same.
    ghost exact: { IsExact Self.Fixed.cmp };
}

/// A row whose value depends on the day.
pub trait OngoingRow: Instant {
    /// The days on which both rows are equal.
    fn same(&self, alloc: Global, other: &Self) -> Result<RtSet, NoMemory>
        ensures { IfOk result (λ s. (d : ℤ) → IsRefDay d →
            ((holds_day s d ≡ true) ↔ (Self.meaning self.now d ≡ Self.meaning other.now d))) };

    /// The same row once more.
    fn copy(&self, alloc: Global) -> Result<Self, NoMemory>
        ensures { IfOk result (λ r. r ≡ self.now) };
}

/// Two groups of rows, by their numbers. They may be one.
#[derive(Clone, Copy, Debug, PartialEq, Eq)]
pub struct Groups {
    pub first: u64,
    pub second: u64,
}

/// Rows that find by numbers those which they may be equal to. Each row stands in two groups, and
/// seeks its equals in two.
pub trait Grouped: OngoingRow {
    ghost use Rattle.og_base.specs.declared.row.Groups.{Groups};

    /// The groups in which a row stands.
    ghost standing: { Self → Groups };

    /// The groups in which a row seeks those that are equal to it on some day.
    ghost seeking: { Self → Groups };

    /// The groups in which the row stands. Takes no memory.
    fn stands_in(&self) -> Groups
        ensures { result ≡ standing self.now };

    /// The groups in which the row seeks those that are equal to it on some day. Takes no memory.
    fn seeks_in(&self) -> Groups
        ensures { result ≡ seeking self.now };

    /// A row stands in one of the groups in which a row seeks that is equal to it on some day.
    ghost grouped: { (x y : Self) (d : ℤ) → IsRefDay d → Self.meaning x d ≡ Self.meaning y d → share_group (seeking x) (standing y) ≡ true };
}

/// Rows of which two are glued to one.
pub trait Glue: OngoingRow {
    ghost glued: { Self.Fixed → Self.Fixed → Self.Fixed };

    /// The row that is, on each day, the two rows of that day glued.
    fn glue(&self, alloc: Global, right: &Self) -> Result<Self, NoMemory>
        ensures { IfOk result (λ r. (d : ℤ) → IsRefDay d →
            Self.meaning r d ≡ glued (Self.meaning self.now d) (Self.meaning right.now d)) };
}

/// A condition on the rows of a day.
pub trait DayCond<R: Glue + Drop> {
    ghost holds: { Self → ℤ → R.Fixed → Bool };

    /// The days on which the condition holds of the row.
    fn days(&self, alloc: Global, row: &R) -> Result<RtSet, NoMemory>
        ensures { IfOk result (λ s. (d : ℤ) → IsRefDay d →
            holds_day s d ≡ holds self.now d (R.meaning row.now d)) };

    /// The days on which the condition holds of the two rows glued. Where nothing better is known,
    /// the rows are glued for it.
    fn days_of_pair(&self, alloc: Global, left: &R, right: &R) -> Result<RtSet, NoMemory>
        ensures { IfOk result (λ s. (d : ℤ) → IsRefDay d →
            holds_day s d ≡ holds self.now d (R.glued (R.meaning left.now d) (R.meaning right.now d))) }
    {
        let row = left.glue(alloc, right)?;
        self.days(alloc, &row)
    }

    /// Whether the condition may hold of the two rows glued: where not, it holds of them on no day.
    /// Takes no memory. Where nothing better is known, it may.
    fn may_hold(&self, left: &R, right: &R) -> bool
        ensures { result ≡ false → (d : ℤ) → IsRefDay d →
            holds self.now d (R.glued (R.meaning left.now d) (R.meaning right.now d)) ≡ false }
    {
        let _ = left;
        let _ = right;
        true
    }
}

/// A map of the rows of a day.
pub trait RowMap<R: Instant> {
    ghost image: { Self → ℤ → R.Fixed → R.Fixed };

    /// The row that is, on each day, the image of the row of that day.
    fn map(&self, alloc: Global, row: &R) -> Result<R, NoMemory>
        ensures { IfOk result (λ r. (d : ℤ) → IsRefDay d →
            R.meaning r d ≡ image self.now d (R.meaning row.now d)) };
}
