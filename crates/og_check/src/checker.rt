//! The checks of a statement.
ghost use Rattle.std.specs.Prelude.{◌≡◌, Ok, Err, IfOk, IfErr};
ghost use Rattle.og_check.specs.Statements.{checked};
ghost use Rattle.og_check.specs.Statements as spec;
ghost use Rattle.og_check.specs.Expressions.{where_of};
ghost use Rattle.og_check.specs.Makings.{named_query, named_where, new_schema, tuples_agree};
ghost use Rattle.og_check.specs.Names.{schemas_in};
ghost use Rattle.og_check.specs.Results.{Gives};
ghost use Rattle.og_check.specs.Steps.{OrNoMemory};

use crate::changes::{new_columns, rows_agree, rows_copied, sets_of};
use crate::conditions::where_of;
use crate::kinds::within;
use crate::names::{Names, fresh_name, known_columns, known_name};
use crate::queries::query_of;
use crate::refusal::CheckRefusal;
use crate::sight::{Item, Sight};
use og_base::{NoMemory, RefDay};
use og_query::{Assign, Cond, Query, Typed};
use og_syntax::{CondText, QueryText, SetText, Stmt};
use og_value::{Catalog, Column, MAX_COLUMNS, Name, Row, Schema, Text};
use sqlite_items::Items;
use std::alloc::Global;

/// The statement with its names and kinds looked up in the catalog, or its first fault in the order
/// of docs/LANGUAGE.md, "Checks". Refused with `NoMemory` where memory runs out.
pub fn check<C: Catalog>(alloc: Global, stmt: &Stmt, known: &C) -> Result<Typed, CheckRefusal>
    ensures typed { IfOk result (λ typed. checked (C.known known.now) stmt.now ≡ Ok typed) }
    ensures refused { IfErr result (OrNoMemory (λ reason. checked (C.known known.now) stmt.now ≡ Err reason)) }
{
    statement(alloc, known, stmt)
}

/// As `check`, of a statement that is not used again: the tuples of INSERT go from it into the typed
/// statement, and none is copied.
pub fn check_owned<C: Catalog>(alloc: Global, stmt: Stmt, known: &C) -> Result<Typed, CheckRefusal>
    ensures typed { IfOk result (λ typed. checked (C.known known.now) stmt ≡ Ok typed) }
    ensures refused { IfErr result (OrNoMemory (λ reason. checked (C.known known.now) stmt ≡ Err reason)) }
{
    match stmt {
        Stmt::Insert { name, rows } => insert_owned(known, name, rows),
        other => {
            let result = check(alloc, &other, known);
            // By one call, whichever statement it is.
            drop(other);
            result
        }
    }
}

// The typed statement, or its first fault.
fn statement<C: Catalog>(alloc: Global, known: &C, stmt: &Stmt) -> Result<Typed, CheckRefusal>
    ensures { Gives result (checked (C.known known.now) stmt.now) }
{
    match stmt {
        Stmt::Create { name, columns } => create(alloc, known, name, columns.as_slice()),
        Stmt::Insert { name, rows } => insert(alloc, known, name, rows.as_slice()),
        Stmt::Delete { name, cond } => delete(alloc, known, name, cond),
        Stmt::Update { name, sets, cond } => update(alloc, known, name, sets.as_slice(), cond),
        Stmt::Drop { name } => Ok(Typed::Drop {
            name: known_name(known, Names::All, name)?,
        }),
        Stmt::Tables => Ok(Typed::Tables),
        Stmt::Keep { name, query } => {
            let (name, query) = named_query(alloc, known, Names::All, name, query)?;
            Ok(Typed::Keep { name, query })
        }
        Stmt::PrintName { name, day } => Ok(Typed::PrintName {
            name: known_name(known, Names::All, name)?,
            day: *day,
        }),
        Stmt::PrintQuery { query, day } => Ok(Typed::PrintQuery {
            query: query_of(alloc, known, Names::All, query)?,
            day: *day,
        }),
        Stmt::Save { name, file } => save(known, name, file),
        Stmt::OpenFile { name, file } => open_file(known, name, file),
        Stmt::ImportFile { name, file } => import_file(known, name, file),
        Stmt::Explain { query } => explain(alloc, known, query),
        Stmt::Valid { name, day } => Ok(Typed::Valid {
            name: known_name(known, Names::All, name)?,
            day: *day,
        }),
        Stmt::Live { name, query } => {
            let (name, query) = named_query(alloc, known, Names::Tables, name, query)?;
            Ok(Typed::Live { name, query })
        }
    }
}

// CREATE TABLE: a new name, and 1 to 64 columns with names of their own.
fn create<C: Catalog>(
    alloc: Global,
    known: &C,
    name: &Name,
    columns: &[Column],
) -> Result<Typed, CheckRefusal>
    ensures { Gives result (spec.create (C.known known.now) name.now columns.now) }
{
    let name = fresh_name(known, name)?;
    match new_schema(alloc, columns) {
        Ok(schema) => Ok(Typed::Create { name, schema }),
        Err(refusal) => {
            drop(name);
            Err(refusal)
        }
    }
}

// The columns of CREATE TABLE as a schema.
fn new_schema(alloc: Global, columns: &[Column]) -> Result<Schema, CheckRefusal>
    ensures { Gives result (new_schema columns.now) }
{
    within(MAX_COLUMNS, columns.len())?;
    let columns = new_columns(alloc, columns)?;
    Ok(Schema::of(columns))
}

// INSERT INTO: a table, and tuples of its columns' kinds.
fn insert<C: Catalog>(
    alloc: Global,
    known: &C,
    name: &Name,
    rows: &[Row],
) -> Result<Typed, CheckRefusal>
    ensures { Gives result (spec.insert (C.known known.now) name.now rows.now) }
{
    tuples_agree(known, name, rows)?;
    let rows = rows_copied(alloc, rows)?;
    match name.copy() {
        Ok(name) => Ok(Typed::Insert { name, rows }),
        Err(NoMemory) => {
            drop(rows);
            Err(CheckRefusal::NoMemory)
        }
    }
}

// The same of a name and of tuples that are not used again.
fn insert_owned<C: Catalog>(known: &C, name: Name, rows: Items<Row>) -> Result<Typed, CheckRefusal>
    ensures { Gives result (spec.insert (C.known known.now) name rows) }
{
    tuples_agree(known, &name, rows.as_slice()).and(Ok(Typed::Insert { name, rows }))
}

// The first fault of a table and of tuples for it.
fn tuples_agree<C: Catalog>(known: &C, name: &Name, rows: &[Row]) -> Result<(), CheckRefusal>
    ensures { Gives result (tuples_agree (C.known known.now) name.now rows.now) }
{
    let columns = known_columns(known, Names::Tables, name)?;
    rows_agree(columns, rows)
}

// DELETE FROM: a table, and a condition on its columns.
fn delete<C: Catalog>(
    alloc: Global,
    known: &C,
    name: &Name,
    cond: &Option<CondText>,
) -> Result<Typed, CheckRefusal>
    ensures { Gives result (spec.delete (C.known known.now) name.now cond.now) }
{
    let columns = known_columns(known, Names::Tables, name)?;
    let (name, cond) = named_where(alloc, name, columns, cond)?;
    Ok(Typed::Delete { name, cond })
}

// The name of a table, and a condition on its columns.
fn named_where(
    alloc: Global,
    name: &Name,
    columns: &Schema,
    cond: &Option<CondText>,
) -> Result<(Name, Cond), CheckRefusal>
    ensures { Gives result (named_where name.now columns.now cond.now) }
{
    let cond = where_of(alloc, &Sight::of(&[Item::of(name, columns)]), cond)?;
    match name.copy() {
        Ok(name) => Ok((name, cond)),
        Err(NoMemory) => {
            drop(cond);
            Err(CheckRefusal::NoMemory)
        }
    }
}

// Assignments to the columns of one table.
fn table_sets(
    alloc: Global,
    name: &Name,
    columns: &Schema,
    sets: &[SetText],
) -> Result<Items<Assign>, CheckRefusal>
    ensures { Gives result (spec.sets_of (spec.sees_table name.now columns.now) sets.now) }
{
    sets_of(alloc, &Sight::of(&[Item::of(name, columns)]), sets)
}

// UPDATE: a table, assignments to its columns, and a condition on them.
fn update<C: Catalog>(
    alloc: Global,
    known: &C,
    name: &Name,
    sets: &[SetText],
    cond: &Option<CondText>,
) -> Result<Typed, CheckRefusal>
    ensures { Gives result (spec.update (C.known known.now) name.now sets.now cond.now) }
{
    let columns = known_columns(known, Names::Tables, name)?;
    let sets = table_sets(alloc, name, columns, sets)?;
    match named_where(alloc, name, columns, cond) {
        Ok((name, cond)) => Ok(Typed::Update { name, sets, cond }),
        Err(refusal) => {
            drop(sets);
            Err(refusal)
        }
    }
}

// A new name, and a query over the names that may be asked.
fn named_query<C: Catalog>(
    alloc: Global,
    known: &C,
    names: Names,
    name: &Name,
    query: &QueryText,
) -> Result<(Name, Query), CheckRefusal>
    ensures { Gives result (named_query (C.known known.now) (schemas_in names (C.known known.now)) name.now query.now) }
{
    let name = fresh_name(known, name)?;
    match query_of(alloc, known, names, query) {
        Ok(query) => Ok((name, query)),
        Err(refusal) => {
            drop(name);
            Err(refusal)
        }
    }
}

// SAVE: a name.
fn save<C: Catalog>(known: &C, name: &Name, file: &Text) -> Result<Typed, CheckRefusal>
    ensures { Gives result (spec.save (C.known known.now) name.now file.now) }
{
    let name = known_name(known, Names::All, name)?;
    match file.copy() {
        Ok(file) => Ok(Typed::Save { name, file }),
        Err(NoMemory) => {
            drop(name);
            Err(CheckRefusal::NoMemory)
        }
    }
}

// OPEN: a new name.
fn open_file<C: Catalog>(known: &C, name: &Name, file: &Text) -> Result<Typed, CheckRefusal>
    ensures { Gives result (spec.open_file (C.known known.now) name.now file.now) }
{
    let name = fresh_name(known, name)?;
    match file.copy() {
        Ok(file) => Ok(Typed::OpenFile { name, file }),
        Err(NoMemory) => {
            drop(name);
            Err(CheckRefusal::NoMemory)
        }
    }
}

// IMPORT INTO: a table.
fn import_file<C: Catalog>(known: &C, name: &Name, file: &Text) -> Result<Typed, CheckRefusal>
    ensures { Gives result (spec.import_file (C.known known.now) name.now file.now) }
{
    let name = known_name(known, Names::Tables, name)?;
    match file.copy() {
        Ok(file) => Ok(Typed::ImportFile { name, file }),
        Err(NoMemory) => {
            drop(name);
            Err(CheckRefusal::NoMemory)
        }
    }
}

// EXPLAIN: a query.
fn explain<C: Catalog>(alloc: Global, known: &C, query: &QueryText) -> Result<Typed, CheckRefusal>
    ensures { Gives result (spec.explain (C.known known.now) query.now) }
{
    let query = query_of(alloc, known, Names::All, query)?;
    Ok(Typed::Explain { query })
}
