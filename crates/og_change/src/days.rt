//! The days on which a relation has a row.
ghost use Rattle.std.specs.Prelude.{◌≡◌, ◌≤◌, ℤ, IfOk, drop, length, take};
ghost use Rattle.std.specs.List.{list_any};
ghost use Rattle.og_base.specs.Ranges.{holds_day};

use og_base::{NoMemory, RtSet};
use og_rel::Rel;
use std::alloc::Global;

/// The days on which some row is present. Refused only for want of memory.
pub(crate) fn days_of<R>(alloc: Global, rel: &Rel<R>) -> Result<RtSet, NoMemory>
    ensures { IfOk result (λ s. (d : ℤ) → holds_day s d ≡ list_any (λ p. holds_day p.1 d) rel.now) }
{
    days_between(alloc, rel, 0, rel.len())
}

// The days of the rows from one place up to another. They are put together by halves, so that each range is
// gone over some log n times.
fn days_between<R>(alloc: Global, rel: &Rel<R>, from: usize, to: usize) -> Result<RtSet, NoMemory>
    requires order { from ≤ to }
    requires within { to ≤ length rel.now }
    ensures { IfOk result (λ s. (d : ℤ) → holds_day s d ≡ list_any (λ p. holds_day p.1 d) (drop from (take to rel.now))) }
{
    let count = to - from;
    if count == 0 {
        return Ok(RtSet::empty(alloc));
    }
    if count == 1 {
        return rel.days(from).copy();
    }
    let middle = from + count / 2;
    let first = days_between(alloc, rel, from, middle)?;
    let rest = days_between(alloc, rel, middle, to)?;
    first.union(&rest)
}
