//! Which rows of one day a core keeps.
ghost use Rattle.std.specs.Prelude.{◌≡◌, ◌++◌, ℤ, IfOk, true};
ghost use Rattle.std.specs.List.{list_all};
ghost use Rattle.og_query.specs.Queries as meant;
ghost use Rattle.og_query.specs.Steady.{is_steady_cond, is_steady_core};
ghost use Rattle.og_query.specs.Tables.{rows_of, tables_in};

use crate::named::rows_named;
use crate::query::{Core, Semi};
use crate::truths::holds;
use crate::values::append_row;
use og_base::NoMemory;
use og_value::{FixedRow, Name};
use std::alloc::Global;

// The one row followed by the other.
fn glued(alloc: Global, row: &FixedRow, other: &FixedRow) -> Result<FixedRow, NoMemory>
    ensures { IfOk result (λ both. both ≡ row.now ++ other.now) }
{
    let mut values = Vec::new(alloc);
    append_row(row, &mut values)?;
    append_row(other, &mut values)?;
    Ok(FixedRow::of(values))
}

// Whether some row of the semi's table, joined after the row, makes its condition true.
fn has_match(
    alloc: Global,
    semi: &Semi,
    names: &[Name],
    tables: &[Vec<FixedRow>],
    row: &FixedRow,
) -> Result<bool, NoMemory>
    requires steady { is_steady_cond semi.now.cond ≡ true }
    ensures { (d : ℤ) → IfOk result (λ b. b ≡ meant.has_match d (rows_of names.now (tables_in tables.now)) row.now semi.now) }
{
    'others: for other in rows_named(names, tables, &semi.table.name) {
        let both = glued(alloc, row, other)?;
        if holds(alloc, &semi.cond, &both)? {
            return Ok(true);
        }
    }
    Ok(false)
}

// Whether the row meets the semi.
fn meets(
    alloc: Global,
    semi: &Semi,
    names: &[Name],
    tables: &[Vec<FixedRow>],
    row: &FixedRow,
) -> Result<bool, NoMemory>
    requires steady { is_steady_cond semi.now.cond ≡ true }
    ensures { (d : ℤ) → IfOk result (λ b. b ≡ meant.meets d (rows_of names.now (tables_in tables.now)) row.now semi.now) }
{
    let found = has_match(alloc, semi, names, tables, row)?;
    Ok(if semi.positive { found } else { !found })
}

// Whether the row meets each of the semis.
fn meets_all(
    alloc: Global,
    semis: &[Semi],
    names: &[Name],
    tables: &[Vec<FixedRow>],
    row: &FixedRow,
) -> Result<bool, NoMemory>
    requires steady { list_all (λ semi. is_steady_cond semi.cond) semis.now ≡ true }
    ensures { (d : ℤ) → IfOk result (λ b. b ≡ list_all (meant.meets d (rows_of names.now (tables_in tables.now)) row.now) semis.now) }
{
    'semis: for semi in semis {
        if !meets(alloc, semi, names, tables, row)? {
            return Ok(false);
        }
    }
    Ok(true)
}

// Whether the core's condition holds of the row, and the row meets each of its semis.
pub(crate) fn is_kept(
    alloc: Global,
    core: &Core,
    names: &[Name],
    tables: &[Vec<FixedRow>],
    row: &FixedRow,
) -> Result<bool, NoMemory>
    requires steady { is_steady_core core.now ≡ true }
    ensures { (d : ℤ) → IfOk result (λ b. b ≡ meant.is_kept d (rows_of names.now (tables_in tables.now)) core.now row.now) }
{
    if !holds(alloc, &core.cond, row)? {
        return Ok(false);
    }
    meets_all(alloc, core.semis.as_slice(), names, tables, row)
}
