//! The rows of a query on a day as lines, by the engine and by the plain evaluator.
ghost use Rattle.std.specs.Prelude.{◌≡◌, ◌≤◌, true};
ghost use Rattle.og_par.specs.Limits.{max_workers};
ghost use Rattle.og_db.specs.Held.{known_of};
ghost use Rattle.og_query.specs.Fits.{IsFitQuery, schemas_of};
ghost use Rattle.og_query.specs.Steady.{is_steady};

use og_base::{NoMemory, RefDay};
use og_db::Db;
use og_exec::exec;
use og_par::{Crew, OpenGate};
use og_plan::{fitting_queries, plan_of};
use og_query::{Query, ordinary};
use og_rel::{Rel, Tables};
use og_value::{FixedRow, Name, Row, write_fixed};
use std::alloc::Global;
use std::thread::Threads;

/// The lines of the rows that the query has on the day, when its plan is carried out by so many workers.
pub fn engine_lines<H: Threads + Sync + AllocGlobal>(
    rt: &H,
    query: &Query,
    day: RefDay,
    db: &Db,
    workers: usize,
) -> Result<Vec<u8>, NoMemory>
    requires least { 1 ≤ workers }
    requires most { workers ≤ max_workers }
    requires fits { IsFitQuery (schemas_of (known_of db.now)) query.now }
{
    let rel = answer(rt, query, db, workers)?;
    let rows = rel.at(day)?;
    lines(rt.alloc(), rows.as_slice())
}

// The answer of the query on all days.
fn answer<H: Threads + Sync + AllocGlobal>(
    rt: &H,
    query: &Query,
    db: &Db,
    workers: usize,
) -> Result<Rel<Row>, NoMemory>
    requires least { 1 ≤ workers }
    requires most { workers ≤ max_workers }
    requires fits { IsFitQuery (schemas_of (known_of db.now)) query.now }
{
    fitting_queries();
    db.rows_fit();
    let plan = plan_of(rt.alloc(), query)?;
    let crew = Crew::new(rt, rt.alloc(), workers, &OpenGate);
    let rel = exec(&crew, &plan, db);
    drop(plan);
    rel
}

/// The lines that the plain evaluator gives, where the query's literals are the same on all days.
pub fn plain_lines(
    alloc: Global,
    query: &Query,
    day: RefDay,
    db: &Db,
) -> Result<Option<Vec<u8>>, NoMemory> {
    if !query.is_steady() {
        return Ok(None);
    }
    let rows = plain_rows(alloc, query, day, db)?;
    Ok(Some(lines(alloc, rows.as_slice())?))
}

// The rows that the plain evaluator gives.
fn plain_rows(alloc: Global, query: &Query, day: RefDay, db: &Db) -> Result<Vec<FixedRow>, NoMemory>
    requires { is_steady query.now ≡ true }
{
    let mut names = Vec::new(alloc);
    let mut tables = Vec::new(alloc);
    for place in 0..db.len() {
        let name = db.name_at(place);
        if let Some(rel) = db.rel(name.bytes()) {
            tables.push(rel.at(day)?)?;
            names.push(name.copy()?)?;
        }
    }
    copy_rows(alloc, query, names.as_slice(), tables.as_slice())
}

// The rows of a copy of the query.
fn copy_rows(
    alloc: Global,
    query: &Query,
    names: &[Name],
    tables: &[Vec<FixedRow>],
) -> Result<Vec<FixedRow>, NoMemory>
    requires { is_steady query.now ≡ true }
{
    let copy = query.copy(alloc)?;
    let rows = ordinary(alloc, &copy, names, tables);
    drop(copy);
    rows
}

// The values of the rows with commas between them, each row on a line.
fn lines(alloc: Global, rows: &[FixedRow]) -> Result<Vec<u8>, NoMemory> {
    let mut out = Vec::new(alloc);
    for row in rows {
        for i in 0..row.len() {
            if i > 0 {
                out.push(b',')?;
            }
            write_fixed(row.value(i), &mut out)?;
        }
        out.push(b'\n')?;
    }
    Ok(out)
}
