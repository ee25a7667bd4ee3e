//! Rows as they are on a day.
ghost use Rattle.std.specs.Prelude.{◌≡◌, ℤ, IfOk};
ghost use Rattle.og_base.specs.Calendar.{IsRefDay};

use og_base::{NoMemory, OngoingRow, RefDay};

/// Makes rows that do not depend on the day.
pub trait Freezer<R: OngoingRow> {
    /// The row that is on every day what this row is on the day. Refused only for want of memory.
    fn frozen(&self, row: &R, d: RefDay) -> Result<R, NoMemory>
        ensures { IfOk result (λ r. (e : ℤ) → IsRefDay e → R.meaning r e ≡ R.meaning row.now d) };
}
