//! Sets of rows of one day, and the operators on them.
ghost use Rattle.std.specs.Prelude.{◌≡◌, IfOk, filter, not, if◌then◌else◌};
ghost use Rattle.og_base.specs.Set.{set_of};
ghost use Rattle.og_value.specs.Order.{row_order};
ghost use Rattle.og_rel.specs.Algebra.{is_in};
ghost use Rattle.og_query.specs.Queries as meant;

use crate::values::append_row;
use og_base::{NoMemory, rising};
use og_value::{FixedRow, SetOp, order_of_rows};
use std::alloc::Global;
use std::cmp::Ordering;

// The set of the rows.
pub(crate) fn as_set(rows: Vec<FixedRow>) -> Result<Vec<FixedRow>, NoMemory>
    ensures { IfOk result (λ set. set.items ≡ set_of row_order rows.items) }
{
    order_of_rows();
    rising(rows)
}

// Whether the row is one of these.
fn has(rows: &[FixedRow], row: &FixedRow) -> bool
    ensures { result ≡ is_in row_order row.now rows.now }
{
    order_of_rows();
    'others: for other in rows {
        if row.cmp(other) == Ordering::Equal {
            return true;
        }
    }
    false
}

// The same row once more.
fn copy_row(alloc: Global, row: &FixedRow) -> Result<FixedRow, NoMemory>
    ensures { IfOk result (λ copy. copy ≡ row.now) }
{
    let mut values = Vec::with_capacity(alloc, row.len())?;
    append_row(row, &mut values)?;
    Ok(FixedRow::of(values))
}

// The rows of the left that are in the right, or those that are not.
fn chosen(
    alloc: Global,
    left: &[FixedRow],
    right: &[FixedRow],
    in_right: bool,
) -> Result<Vec<FixedRow>, NoMemory>
    ensures { IfOk result (λ rows. rows.items ≡ filter (λ row. if in_right then is_in row_order row right.now else not (is_in row_order row right.now)) left.now) }
{
    let mut rows = Vec::new(alloc);
    'left: for row in left {
        let found = has(right, row);
        let is_chosen = if in_right { found } else { !found };
        if is_chosen {
            rows.push(copy_row(alloc, row)?)?;
        }
    }
    Ok(rows)
}

// Two answers, combined by the operator.
pub(crate) fn combined(
    alloc: Global,
    op: SetOp,
    mut left: Vec<FixedRow>,
    mut right: Vec<FixedRow>,
) -> Result<Vec<FixedRow>, NoMemory>
    ensures { IfOk result (λ rows. rows.items ≡ meant.combined op left.items right.items) }
{
    match op {
        SetOp::Union => {
            left.append(&mut right)?;
            as_set(left)
        }
        SetOp::Except => chosen(alloc, left.as_slice(), right.as_slice(), false),
        SetOp::Intersect => chosen(alloc, left.as_slice(), right.as_slice(), true),
    }
}
