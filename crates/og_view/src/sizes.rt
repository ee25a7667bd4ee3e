//! How many rows the answer of a query has at most.
ghost use Rattle.std.specs.Prelude.{◌≡◌, ◌-◌, ◌^◌, min};
ghost use Rattle.og_query.specs.Sizes as spec;
ghost use Rattle.og_exec.specs.Tables.{sizes_of};
ghost use Rattle.og_db.specs.Held.{rows_of};
ghost use Rattle.og_db.specs.Deltas.{IsDelta, after_at};

use crate::table_delta::TableDelta;
use og_query::{Core, Query};
use og_value::SetOp;

// The size of the core over what comes of the tables by a delta, or the greatest number where it is more.
fn core_size(core: &Core, over: &TableDelta<'_>) -> usize
    requires { IsDelta over.now.tables.now over.now.name.now over.now.delta.now }
    ensures { result ≡ min (spec.core_size (sizes_of (rows_of (after_at over.now.name.now over.now.delta.now over.now.tables.now))) core.now) (2 ^ 64 - 1) }
{
    let mut size: usize = 1;
    'tables: for table in core.tables.as_slice() {
        size = size.saturating_mul(over.len_after(&table.name));
    }
    size
}

// The size of two answers together, or the greatest number where it is more.
fn combined_size(op: SetOp, left: usize, right: usize) -> usize
    ensures { result ≡ min (spec.combined_size op left right) (2 ^ 64 - 1) }
{
    match op {
        SetOp::Union => left.saturating_add(right),
        SetOp::Except | SetOp::Intersect => left,
    }
}

// The size of the query over what comes of the tables by a delta, or the greatest number where it is more.
pub(crate) fn size_of(query: &Query, over: &TableDelta<'_>) -> usize
    requires { IsDelta over.now.tables.now over.now.name.now over.now.delta.now }
    ensures { result ≡ min (spec.query_size (sizes_of (rows_of (after_at over.now.name.now over.now.delta.now over.now.tables.now))) query.now) (2 ^ 64 - 1) }
{
    let mut size = core_size(&query.first, over);
    'rests: for rest in query.rest.as_slice() {
        size = combined_size(rest.op, size, core_size(&rest.core, over));
    }
    size
}
