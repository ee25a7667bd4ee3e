//! The slow plain evaluator: what a query has on any day, over rows of that day.
ghost use Rattle.std.specs.Prelude.{◌≡◌, ◌++◌, ◌∷◌, [], ℤ, IfOk, OnOk, true, length, map, filter};
ghost use Rattle.og_query.specs.Combinations.{combinations};
ghost use Rattle.og_query.specs.Queries as meant;
ghost use Rattle.og_query.specs.Steady.{is_steady, is_steady_core};
ghost use Rattle.og_query.specs.Tables.{rows_of, tables_in};
ghost use Rattle.og_query.specs.Walk.{row_from};

use crate::algebra::{as_set, combined};
use crate::kept::is_kept;
use crate::named::{joined, sizes_of};
use crate::query::{Core, Query};
use crate::values::values_of;
use crate::walk::{advance, all_above_zero, first_places};
use og_base::NoMemory;
use og_value::{FixedRow, Name};
use std::alloc::Global;

// Appends the image of the row at these places of the core's tables, where the core keeps it.
fn add_image(
    alloc: Global,
    core: &Core,
    names: &[Name],
    tables: &[Vec<FixedRow>],
    places: &[usize],
    images: &mut Vec<FixedRow>,
) -> Result<(), NoMemory>
    requires steady { is_steady_core core.now ≡ true }
    requires places { length places.now ≡ length core.now.tables }
    ensures { (d : ℤ) → OnOk result (images.new.items ≡ images.old.items
        ++ map (meant.image d core.now.items) (filter (meant.is_kept d (rows_of names.now (tables_in tables.now)) core.now)
        (row_from (map (λ table. rows_of names.now (tables_in tables.now) table.name) core.now.tables) places.now ∷ []))) }
{
    let row = joined(alloc, core.tables.as_slice(), names, tables, places)?;
    if !is_kept(alloc, core, names, tables, &row)? {
        return Ok(());
    }
    let values = values_of(alloc, &core.items, &row)?;
    images.push(FixedRow::of(values))?;
    Ok(())
}

// The images of the combinations that the core keeps, one after the other.
fn images(
    alloc: Global,
    core: &Core,
    names: &[Name],
    tables: &[Vec<FixedRow>],
) -> Result<Vec<FixedRow>, NoMemory>
    requires steady { is_steady_core core.now ≡ true }
    ensures { (d : ℤ) → IfOk result (λ images. images.items
        ≡ map (meant.image d core.now.items) (filter (meant.is_kept d (rows_of names.now (tables_in tables.now)) core.now)
        (combinations (map (λ table. rows_of names.now (tables_in tables.now) table.name) core.now.tables)))) }
{
    let sizes = sizes_of(alloc, core.tables.as_slice(), names, tables)?;
    let mut places = first_places(alloc, sizes.as_slice())?;
    let mut images = Vec::new(alloc);
    let mut more = all_above_zero(sizes.as_slice());
    'walk: while more {
        add_image(alloc, core, names, tables, places.as_slice(), &mut images)?;
        more = advance(sizes.as_slice(), &mut places);
    }
    Ok(images)
}

// The set of the images of the combinations that the core keeps.
fn core_rows(
    alloc: Global,
    core: &Core,
    names: &[Name],
    tables: &[Vec<FixedRow>],
) -> Result<Vec<FixedRow>, NoMemory>
    requires steady { is_steady_core core.now ≡ true }
    ensures { (d : ℤ) → IfOk result (λ rows. rows.items ≡ meant.core_rows d (rows_of names.now (tables_in tables.now)) core.now) }
{
    as_set(images(alloc, core, names, tables)?)
}

/// The rows of the query, rising and each once, where each name has the rows of the table at its
/// place and a name that is not listed has none. Each literal of the query has to be the same on all
/// days. It takes all combinations one after the other, so it is for small tables alone. Refused
/// where memory runs out.
pub fn ordinary(
    alloc: Global,
    query: &Query,
    names: &[Name],
    tables: &[Vec<FixedRow>],
) -> Result<Vec<FixedRow>, NoMemory>
    requires steady { is_steady query.now ≡ true }
    ensures { (d : ℤ) → IfOk result (λ rows. rows.items ≡ meant.ordinary_query d (rows_of names.now (tables_in tables.now)) query.now) }
{
    let mut answer = core_rows(alloc, &query.first, names, tables)?;
    'rests: for rest in query.rest.as_slice() {
        let rows = core_rows(alloc, &rest.core, names, tables)?;
        answer = combined(alloc, rest.op, answer, rows)?;
    }
    Ok(answer)
}
