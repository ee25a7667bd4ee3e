//! The longest range of days around a day.
ghost use Rattle.std.specs.Prelude.{◌≡◌, ◌↔◌, ◌-ℤ◌, ℤ, pos, Some, SomeIff, IfOk, IsTrue};
ghost use Rattle.og_base.specs.Calendar.{IsRefDay};
ghost use Rattle.og_base.specs.Set.{IsExact};
ghost use Rattle.og_change.specs.Same.{IsBounded, IsLongest};
ghost use Rattle.og_rel.specs.Relations.{relation_at};

use crate::around::around;
use crate::freezer::Freezer;
use crate::same::same_days;
use crate::steady::steady_range;
use og_base::{DayRange, Glue, Grouped, NoMemory, OngoingRow, RefDay};
use og_rel::Rel;
use std::alloc::Global;

/// The longest range of days around the day on all of which the list of the rows that are present, as `at`
/// gives it, is that of the day. Refused only for want of memory.
pub fn valid_range<R: Glue + Grouped + Drop, Z: Freezer<R>>(
    alloc: Global,
    rel: &Rel<R>,
    d: RefDay,
    freezer: &Z,
) -> Result<DayRange, NoMemory>
    ensures { IfOk result (λ range. IsLongest (λ e. relation_at R.Fixed.cmp R.meaning rel.now e ≡ relation_at R.Fixed.cmp R.meaning rel.now d) d range) }
{
    let steady = steady_range(alloc, rel, d, freezer)?;
    if changes_beside(rel, d, steady)? {
        return Ok(steady);
    }
    let same = same_days(alloc, rel, d, freezer)?;
    Ok(around(&same, d))
}

// Whether the list of the day before the range and that of the day after it are not that of the day, where
// there are such days.
fn changes_beside<R: OngoingRow>(rel: &Rel<R>, d: RefDay, range: DayRange) -> Result<bool, NoMemory>
    ensures { IfOk result (λ b. IsTrue b ↔
        IsBounded (λ e. relation_at R.Fixed.cmp R.meaning rel.now e ≡ relation_at R.Fixed.cmp R.meaning rel.now d) range) }
{
    let rows = rel.at(d)?;
    if has_list(rel, day_before(range.lo), rows.as_slice())? {
        return Ok(false);
    }
    Ok(!has_list(rel, range.hi.as_ref_day(), rows.as_slice())?)
}

// The day before, where there is one.
fn day_before(d: RefDay) -> Option<RefDay>
    ensures { SomeIff result (IsRefDay (d -ℤ pos 1)) (d -ℤ pos 1) }
{
    RefDay::from_number(d.number() - 1)
}

// Whether there is the day and the relation has that list on it.
fn has_list<R: OngoingRow>(
    rel: &Rel<R>,
    day: Option<RefDay>,
    rows: &[R::Fixed],
) -> Result<bool, NoMemory>
    ensures { IfOk result (λ b. IsTrue b ↔ ((e : ℤ) × (day ≡ Some e) × (relation_at R.Fixed.cmp R.meaning rel.now e ≡ rows.now))) }
{
    let Some(day) = day else {
        return Ok(false);
    };
    let there = rel.at(day)?;
    Ok(are_same(there.as_slice(), rows))
}

// Whether the two lists are one.
fn are_same<F: Ord>(first: &[F], second: &[F]) -> bool
    requires exact { IsExact F.cmp }
    ensures { IsTrue result ↔ (first.now ≡ second.now) }
{
    first == second
}
