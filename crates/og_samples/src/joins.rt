//! The traits of joins at a small type: deadlines by their day, with spans that tell nothing.
ghost use Rattle.std.specs.Prelude.{◌≡◌};
ghost use Rattle.og_samples.specs.AllDays as spec;

use crate::rows::Deadline;
use og_base::{ExtDay, FixedPeriod, NoMemory, RefDay};
use og_join::{Keys, Spans};
use std::alloc::Global;

/// The key of a deadline is its day; its span is all days.
#[derive(Clone, Copy, Debug)]
pub struct ByDay;

impl Keys<Deadline> for ByDay {
    ghost use Rattle.std.proofs.lemmas.Map.Lookups.{exact_signed};

    type Key = RefDay;

    ghost left_of = { λ keys x. x };

    ghost right_of = { λ keys x. x };

    fn left(&self, _alloc: Global, row: &Deadline) -> Result<RefDay, NoMemory> {
        Ok(row.day)
    }

    fn right(&self, _alloc: Global, row: &Deadline) -> Result<RefDay, NoMemory> {
        Ok(row.day)
    }

    ghost exact = { exact_signed };
}

impl Spans<Deadline> for ByDay {
    ghost use Rattle.og_samples.specs.AllDays.{all_days};

    ghost left_of = { λ spans row. all_days };

    ghost right_of = { λ spans row. all_days };

    fn left(&self, row: &Deadline) -> FixedPeriod {
        let _ = row;
        all_days()
    }

    fn right(&self, row: &Deadline) -> FixedPeriod {
        let _ = row;
        all_days()
    }
}

// The span of all days.
fn all_days() -> FixedPeriod
    ensures { result ≡ spec.all_days }
{
    FixedPeriod {
        start: ExtDay::NEG,
        end: ExtDay::POS,
    }
}

#[cfg(test)]
mod tests;
