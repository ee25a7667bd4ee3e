//! The rows of names, and the rows at places of the lists of several names.
ghost use Rattle.std.specs.Prelude.{◌≡◌, ◌++◌, IfOk, OnOk, [], length, map, slice_index_or};
ghost use Rattle.og_query.specs.Tables.{rows_of, tables_in};
ghost use Rattle.og_query.specs.Walk.{row_from};

use crate::query::From1;
use crate::values::append_row;
use og_base::NoMemory;
use og_value::{FixedRow, FixedValue, Name};
use std::alloc::Global;

// The rows of the table at the place of the name, and none where it is not listed.
pub(crate) fn rows_named<'a>(
    names: &[Name],
    tables: &'a [Vec<FixedRow>],
    name: &Name,
) -> &'a [FixedRow]
    ensures { result.now ≡ rows_of names.now (tables_in tables.now) name.now }
{
    'names: for i in 0..names.len().min(tables.len()) {
        if names[i] == *name {
            return tables[i].as_slice();
        }
    }
    &[]
}

// How many rows each of the tables has.
pub(crate) fn sizes_of(
    alloc: Global,
    from: &[From1],
    names: &[Name],
    tables: &[Vec<FixedRow>],
) -> Result<Vec<usize>, NoMemory>
    ensures { IfOk result (λ sizes. sizes.items ≡ map (λ table. length (rows_of names.now (tables_in tables.now) table.name)) from.now) }
{
    let mut sizes = Vec::with_capacity(alloc, from.len())?;
    'from: for table in from {
        sizes.push(rows_named(names, tables, &table.name).len())?;
    }
    Ok(sizes)
}

// Appends the values of the row at the place, where there is one.
fn append_at(rows: &[FixedRow], place: usize, out: &mut Vec<FixedValue>) -> Result<(), NoMemory>
    ensures { OnOk result (out.new.items ≡ out.old.items ++ slice_index_or rows.now place []) }
{
    if place < rows.len() {
        append_row(&rows[place], out)
    } else {
        Ok(())
    }
}

// The rows at these places of the tables, joined to one row.
pub(crate) fn joined(
    alloc: Global,
    from: &[From1],
    names: &[Name],
    tables: &[Vec<FixedRow>],
    places: &[usize],
) -> Result<FixedRow, NoMemory>
    requires { length places.now ≡ length from.now }
    ensures { IfOk result (λ row. row ≡ row_from (map (λ table. rows_of names.now (tables_in tables.now) table.name) from.now) places.now) }
{
    let mut values = Vec::new(alloc);
    'from: for i in 0..from.len() {
        let rows = rows_named(names, tables, &from[i].name);
        append_at(rows, places[i], &mut values)?;
    }
    Ok(FixedRow::of(values))
}
