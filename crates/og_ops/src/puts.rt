//! Rows that are put into a relation on some days.
ghost use Rattle.std.specs.Prelude.{◌≡◌, ◌++◌, ◌+◌, ◌≤◌, ℤ, [], ◌∷◌, OnOk, length, if◌then◌else◌};
ghost use Rattle.og_base.specs.Calendar.{IsRefDay};
ghost use Rattle.og_base.specs.Ranges.{holds_day};
ghost use Rattle.og_rel.specs.Relations.{present, stored};

use og_base::{Glue, NoMemory, RowMap, RtSet};
use og_rel::Rel;
use std::alloc::Global;

// Adds the row on those days, or nothing where there are none.
pub(crate) fn put_row<R: Glue + Drop>(
    alloc: Global,
    row: &R,
    days: RtSet,
    made: &mut Rel<R>,
) -> Result<(), NoMemory>
    ensures { OnOk result (made.new ≡ made.old ++ stored row.now days) }
{
    if days.is_empty() {
        return Ok(());
    }
    let copy = row.copy(alloc)?;
    made.push(copy, days)
}

// Adds the image of the row on those days, or nothing where there are none.
pub(crate) fn put_image<R: Glue + Drop, M: RowMap<R>>(
    alloc: Global,
    items: &M,
    row: &R,
    days: RtSet,
    made: &mut Rel<R>,
) -> Result<(), NoMemory>
    ensures rows { OnOk result ((d : ℤ) → IsRefDay d → present R.meaning made.new d
        ≡ present R.meaning made.old d ++ (if holds_day days d then M.image items.now d (R.meaning row.now d) ∷ [] else [])) }
    ensures size { OnOk result (length made.new ≤ length made.old + 1) }
{
    if days.is_empty() {
        return Ok(());
    }
    let image = items.map(alloc, row)?;
    made.push(image, days)
}
