//! The checks of CREATE TABLE, INSERT and UPDATE.
ghost use Rattle.std.specs.Prelude.{◌≡◌, ◌==◌, ◌++◌, ◌∷◌, [], IfOk, OnOk};
ghost use Rattle.std.specs.List.{list_any};
ghost use Rattle.std.specs.Str.{bytes_eq};
ghost use Rattle.og_check.specs.Results.{Gives, listed, wrote};
ghost use Rattle.og_check.specs.Statements as spec;
ghost use Rattle.og_check.specs.Steps.{on_each};

use crate::columns::found;
use crate::expressions::{expr_of, kind_of};
use crate::kinds::{same_count, same_kind};
use crate::refusal::CheckRefusal;
use crate::sight::Sight;
use og_base::{NoMemory, OngoingRow};
use og_query::Assign;
use og_syntax::SetText;
use og_value::{Column, Name, Row, Schema};
use sqlite_items::Items;
use std::alloc::Global;

/// The columns, of which each has another name than those before it.
pub fn new_columns(alloc: Global, columns: &[Column]) -> Result<Vec<Column>, CheckRefusal>
    ensures new { Gives (listed result) (spec.new_columns columns.now) }
    ensures same { IfOk result (λ new. new.items ≡ columns.now) }
{
    let mut new = Vec::new(alloc);
    'each: for column in columns {
        add_column(column, &mut new)?;
    }
    Ok(new)
}

// Adds the column, which has another name than those before it.
fn add_column(column: &Column, columns: &mut Vec<Column>) -> Result<(), CheckRefusal>
    ensures new { Gives (wrote columns.new.items result) (spec.with_column columns.old.items column.now) }
    ensures same { OnOk result (columns.new.items ≡ columns.old.items ++ column.now ∷ []) }
{
    new_column(&column.name, columns.as_slice())?;
    columns.push(column.copy()?)?;
    Ok(())
}

// `NameTaken` exactly where one of the columns has the name.
fn new_column(name: &Name, before: &[Column]) -> Result<(), CheckRefusal>
    ensures { Gives result (spec.new_column name.now before.now) }
{
    if has_column(name, before) {
        return Err(CheckRefusal::NameTaken { name: name.copy()? });
    }
    Ok(())
}

// Whether one of the columns has the name.
fn has_column(name: &Name, columns: &[Column]) -> bool
    ensures { result ≡ list_any (λ other. bytes_eq other.name name.now) columns.now }
{
    columns.iter().any(|other| other.name == *name)
}

/// The first fault of the tuples, of which each has a value of the kind of each column.
pub fn rows_agree(columns: &Schema, rows: &[Row]) -> Result<(), CheckRefusal>
    ensures { Gives result (on_each (spec.tuple_of columns.now) rows.now) }
{
    'each: for row in rows {
        row_agrees(columns, row)?;
    }
    Ok(())
}

// The first fault of the tuple, which has a value of the kind of each column.
fn row_agrees(columns: &Schema, row: &Row) -> Result<(), CheckRefusal>
    ensures { Gives result (spec.tuple_of columns.now row.now) }
{
    same_count(row.len(), columns.len())?;
    'values: for i in 0..row.len() {
        same_kind(kind_of(row.value(i)), columns.column(i).kind)?;
    }
    Ok(())
}

/// The tuples once more.
pub fn rows_copied(alloc: Global, rows: &[Row]) -> Result<Items<Row>, NoMemory>
    ensures { IfOk result (λ copies. copies ≡ rows.now) }
{
    let mut copies = Items::new(alloc);
    'rows: for row in rows {
        copies.push(row.copy(alloc)?)?;
    }
    Ok(copies)
}

/// The assignments of UPDATE.
pub fn sets_of(
    alloc: Global,
    sight: &Sight,
    sets: &[SetText],
) -> Result<Items<Assign>, CheckRefusal>
    ensures { Gives result (spec.sets_of sight.now sets.now) }
{
    let mut typed = Items::new(alloc);
    'each: for set in sets {
        add_set(alloc, sight, set, &mut typed)?;
    }
    Ok(typed)
}

// Adds one more assignment.
fn add_set(
    alloc: Global,
    sight: &Sight,
    set: &SetText,
    sets: &mut Items<Assign>,
) -> Result<(), CheckRefusal>
    ensures { Gives (wrote sets.new result) (spec.with_set sight.now sets.old set.now) }
{
    let one = set_of(alloc, sight, sets.as_slice(), set)?;
    sets.push(one)?;
    Ok(())
}

// The assignment, whose column is not one of those that are set before.
fn set_of(
    alloc: Global,
    sight: &Sight,
    before: &[Assign],
    set: &SetText,
) -> Result<Assign, CheckRefusal>
    ensures { Gives result (spec.set_of sight.now before.now set.now) }
{
    let (column, wanted) = found(alloc, sight, &None, &set.column)?;
    if is_set(column, before) {
        return Err(CheckRefusal::NameTaken {
            name: set.column.copy()?,
        });
    }
    let (expr, found) = expr_of(alloc, sight, &set.expr)?;
    same_kind(found, wanted).and(Ok(Assign { column, expr }))
}

// Whether one of the assignments sets the column at the place.
fn is_set(place: usize, sets: &[Assign]) -> bool
    ensures { result ≡ list_any (λ other. other.column == place) sets.now }
{
    sets.iter().any(|other| other.column == place)
}
