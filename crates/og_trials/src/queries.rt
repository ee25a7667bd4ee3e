//! The queries that a case prints, asked anew.
ghost use Rattle.std.specs.Prelude.{◌≡◌, List, IfOk};
ghost use Rattle.std.specs.List.{All};
ghost use Rattle.og_value.specs.declared.schema.Column.{Column};
ghost use Rattle.og_db.specs.Database.{IsTableOf};
ghost use Rattle.og_db.specs.Held.{known_of};
ghost use Rattle.og_query.specs.Fits.{IsFit, IsFitQuery, IsFitRow, schemas_of};

use crate::answers::{engine_lines, plain_lines};
use crate::report::Report;
use og_base::{NoMemory, OngoingRow, RefDay};
use og_case_files::{Case, Refusal};
use og_check::{CheckRefusal, check, checked_fits};
use og_db::{Db, delta_of_insert};
use og_query::{Query, Typed};
use og_syntax::Stmt;
use og_value::{Name, Row};
use std::alloc::Global;
use std::thread::Threads;

/// Makes and fills tables as the statements say, and asks each query that they print anew, up to the
/// first statement that does something else or is refused.
pub fn ask_queries<H: Threads + Sync + AllocGlobal>(
    rt: &H,
    case: &Case,
    stmts: &[Stmt],
    report: &mut Report,
) -> Result<(), Refusal> {
    let mut db = Db::new(rt.alloc());
    let mut number = 0_usize;
    for stmt in stmts {
        number = number.wrapping_add(1);
        if !goes_on(rt, case, number, stmt, &mut db, report)? {
            return Ok(());
        }
    }
    Ok(())
}

// Does what the statement says of tables, or asks its query anew. False where it does something else
// or is refused.
fn goes_on<H: Threads + Sync + AllocGlobal>(
    rt: &H,
    case: &Case,
    number: usize,
    stmt: &Stmt,
    db: &mut Db,
    report: &mut Report,
) -> Result<bool, Refusal> {
    checked_fits();
    match check(rt.alloc(), stmt, db) {
        Ok(typed) => {
            let goes_on = take(rt, case, number, &typed, db, report);
            // One call drops the typed statement, so that the fields of each of its kinds are not
            // dropped one by one where this arm ends.
            drop(typed);
            goes_on
        }
        Err(CheckRefusal::NoMemory) => Err(Refusal::NoMemory),
        Err(_) => Ok(false),
    }
}

// The same of a statement that was checked.
fn take<H: Threads + Sync + AllocGlobal>(
    rt: &H,
    case: &Case,
    number: usize,
    typed: &Typed,
    db: &mut Db,
    report: &mut Report,
) -> Result<bool, Refusal>
    requires { IsFit (known_of db.old) typed.now }
{
    match typed {
        Typed::Create { name, schema } => db.create(name.copy()?, schema.copy()?)?,
        Typed::Insert { name, rows } => insert(rt.alloc(), name, rows.as_slice(), db)?,
        Typed::PrintQuery { query, day } => ask(rt, case, number, query, *day, db, report)?,
        Typed::PrintName { .. }
        | Typed::Tables
        | Typed::Explain { .. }
        | Typed::Save { .. }
        | Typed::Valid { .. } => {}
        _ => return Ok(false),
    }
    Ok(true)
}

// Inserts copies of the rows into the table.
fn insert(alloc: Global, name: &Name, rows: &[Row], db: &mut Db) -> Result<(), NoMemory>
    requires { (columns : List Column) × IsTableOf columns db.old name.now × All (IsFitRow columns) rows.now }
{
    let rows = copies_of(alloc, rows)?;
    let delta = delta_of_insert(alloc, db, name, rows)?;
    db.apply(name, delta)
}

// Copies of the rows.
fn copies_of(alloc: Global, rows: &[Row]) -> Result<Vec<Row>, NoMemory>
    ensures { IfOk result (λ copies. copies.items ≡ rows.now) }
{
    let mut copies = Vec::with_capacity(alloc, rows.len())?;
    'rows: for row in rows {
        copies.push(row.copy(alloc)?)?;
    }
    Ok(copies)
}

// Compares the answer of one worker with those of more, and with that of the plain evaluator where it
// has one.
fn ask<H: Threads + Sync + AllocGlobal>(
    rt: &H,
    case: &Case,
    number: usize,
    query: &Query,
    day: RefDay,
    db: &Db,
    report: &mut Report,
) -> Result<(), Refusal>
    requires { IsFitQuery (schemas_of (known_of db.now)) query.now }
{
    let alloc = rt.alloc();
    let wanted = engine_lines(rt, query, day, db, 1)?;
    for workers in &[2, 64] {
        let found = engine_lines(rt, query, day, db, *workers)?;
        let way = format!(in alloc; "of statement {number} by {workers} workers")?;
        report.compare(
            alloc,
            case,
            way.as_str(),
            wanted.as_slice(),
            found.as_slice(),
        )?;
    }
    if let Some(found) = plain_lines(alloc, query, day, db)? {
        let way = format!(in alloc; "of statement {number} by the plain evaluator")?;
        report.compare(
            alloc,
            case,
            way.as_str(),
            wanted.as_slice(),
            found.as_slice(),
        )?;
    }
    Ok(())
}
