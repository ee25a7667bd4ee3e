//! The days on which a relation has the list that it has on one of them.
ghost use Rattle.std.specs.Prelude.{◌≡◌, ◌↔◌, ◌++◌, ℤ, true, [], ◌∷◌, IfOk, OnOk};
ghost use Rattle.og_base.specs.Calendar.{IsRefDay};
ghost use Rattle.og_base.specs.Ranges.{holds_day};
ghost use Rattle.og_rel.specs.Relations.{present, relation_at};

use crate::days::days_of;
use crate::freezer::Freezer;
use og_base::{Glue, Grouped, NoMemory, OngoingRow, RefDay, RtSet};
use og_ops::{BinaryOp, Difference};
use og_rel::Rel;
use std::alloc::Global;

/// Exactly the days on which the list of the rows that are present, as `at` gives it, is that of the day.
/// It differs where a row stands in the one list and not in the other, so the rows of the day are set on
/// all days, and both differences are asked for the days of what is left. Refused only for want of memory.
pub fn same_days<R: Glue + Grouped + Drop, Z: Freezer<R>>(
    alloc: Global,
    rel: &Rel<R>,
    d: RefDay,
    freezer: &Z,
) -> Result<RtSet, NoMemory>
    ensures { IfOk result (λ s. (e : ℤ) → IsRefDay e →
        ((holds_day s e ≡ true) ↔ (relation_at R.Fixed.cmp R.meaning rel.now e ≡ relation_at R.Fixed.cmp R.meaning rel.now d))) }
{
    let frozen = frozen_rows(alloc, rel, d, freezer)?;
    let gone = Difference.apply(alloc, &frozen, rel)?;
    let come = Difference.apply(alloc, rel, &frozen)?;
    let changed = days_of(alloc, &gone)?.union(&days_of(alloc, &come)?)?;
    changed.complement()
}

// The rows of the day, each as it is on it, on all days.
fn frozen_rows<R: Glue + Drop, Z: Freezer<R>>(
    alloc: Global,
    rel: &Rel<R>,
    d: RefDay,
    freezer: &Z,
) -> Result<Rel<R>, NoMemory>
    ensures { IfOk result (λ r. (e : ℤ) → IsRefDay e →
        present R.meaning r e ≡ present R.meaning rel.now d) }
{
    let mut frozen = Rel::new(alloc);
    'rows: for i in 0..rel.len() {
        freeze_row(alloc, rel.row(i), rel.days(i), d, freezer, &mut frozen)?;
    }
    Ok(frozen)
}

// Adds the row as it is on the day, on all days, where it is present on the day.
fn freeze_row<R: OngoingRow + Drop, Z: Freezer<R>>(
    alloc: Global,
    row: &R,
    days: &RtSet,
    d: RefDay,
    freezer: &Z,
    frozen: &mut Rel<R>,
) -> Result<(), NoMemory>
    ensures { OnOk result ((e : ℤ) → IsRefDay e → present R.meaning frozen.new e
        ≡ present R.meaning frozen.old e ++ present R.meaning ((row.now, days.now) ∷ []) d) }
{
    if days.contains(d) {
        let still = freezer.frozen(row, d)?;
        frozen.push(still, RtSet::all(alloc)?)?;
    }
    Ok(())
}
