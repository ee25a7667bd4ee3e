//! Rows that are inserted.
ghost use Rattle.std.specs.Prelude.{◌≡◌, IfOk};
ghost use Rattle.og_db.specs.Insertion.{on_all_days};

use og_base::{NoMemory, RtSet};
use og_rel::Rel;
use og_value::Row;
use std::alloc::Global;

// The rows, each present on all days. Refused only for want of memory.
pub(crate) fn on_all_days(alloc: Global, rows: Vec<Row>) -> Result<Rel<Row>, NoMemory>
    ensures { IfOk result (λ rel. rel ≡ on_all_days rows.items) }
{
    let mut rel = Rel::new(alloc);
    'rows: for row in rows {
        rel.push(row, RtSet::all(alloc)?)?;
    }
    Ok(rel)
}
