//! Days through which no row changes.
ghost use Rattle.std.specs.Prelude.{◌≡◌, ℤ, [], ◌∷◌, IfOk};
ghost use Rattle.og_change.specs.Same.{IsAround, IsLongest};
ghost use Rattle.og_rel.specs.Relations.{present};

use crate::around::{around, shared};
use crate::freezer::Freezer;
use og_base::{DayRange, NoMemory, OngoingRow, RefDay, RtSet};
use og_rel::Rel;
use std::alloc::Global;

/// A range around the day through which each row stays: one that is present on the day is so on all of its
/// days, with the values of the day, and one that is not on none. Refused only for want of memory.
pub(crate) fn steady_range<R: OngoingRow + Drop, Z: Freezer<R>>(
    alloc: Global,
    rel: &Rel<R>,
    d: RefDay,
    freezer: &Z,
) -> Result<DayRange, NoMemory>
    ensures { IfOk result (λ range. IsAround (λ e. present R.meaning rel.now e ≡ present R.meaning rel.now d) d range) }
{
    let mut range = around(&RtSet::empty(alloc), d);
    'rows: for i in 0..rel.len() {
        let steady = steady_days(alloc, rel.row(i), rel.days(i), d, freezer)?;
        range = shared(range, steady);
    }
    Ok(range)
}

// A range around the day through which the row stays.
fn steady_days<R: OngoingRow + Drop, Z: Freezer<R>>(
    alloc: Global,
    row: &R,
    days: &RtSet,
    d: RefDay,
    freezer: &Z,
) -> Result<DayRange, NoMemory>
    ensures { IfOk result (λ range. IsAround
        (λ e. present R.meaning ((row.now, days.now) ∷ []) e ≡ present R.meaning ((row.now, days.now) ∷ []) d) d range) }
{
    let there = around(days, d);
    if !days.contains(d) {
        return Ok(there);
    }
    let alike = alike_days(alloc, row, d, freezer)?;
    Ok(shared(there, alike))
}

// The longest range around the day through which the row has the values of the day.
fn alike_days<R: OngoingRow + Drop, Z: Freezer<R>>(
    alloc: Global,
    row: &R,
    d: RefDay,
    freezer: &Z,
) -> Result<DayRange, NoMemory>
    ensures { IfOk result (λ range. IsLongest (λ e. R.meaning row.now e ≡ R.meaning row.now d) d range) }
{
    let frozen = freezer.frozen(row, d)?;
    let same = row.same(alloc, &frozen)?;
    Ok(around(&same, d))
}
