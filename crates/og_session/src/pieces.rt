//! What a statement writes.
ghost use Rattle.std.specs.Prelude.{List};
ghost use Rattle.og_io.specs.declared.sink.PutRefusal.{PutRefusal};
ghost use Rattle.og_query.specs.Fits.{IsFit, IsFitQuery, schemas_of};
ghost use Rattle.og_query.specs.declared.typed.Typed.{Typed};
ghost use Rattle.og_query.specs.declared.typed.Typed.TheVariants as t;
ghost use Rattle.og_db.specs.Held.{Held, known_of};
ghost use Rattle.og_db.specs.Database.{Relation};
ghost use Rattle.og_db.specs.Effects.{Effect, on_names};
ghost use Rattle.og_db.specs.Runs.{IsWorldOf};
ghost use Rattle.og_db.specs.Statements.{IsOfNames};
ghost use Rattle.og_faults.specs.Counts.{IsFaultCount, is_unput};
ghost use Rattle.og_output.specs.Puts.{IsPut};
ghost use Rattle.og_session.specs.Headline.{HasGrown};
ghost use Rattle.og_session.specs.Output.{piece_of};

use crate::answer::answer;
use crate::names::Names;
use crate::valid::put_valid;
use og_base::RefDay;
use og_io::{PutRefusal, Sink};
use og_output::{names_text, put, put_plan, put_relation};
use og_par::{Crew, Gate};
use og_query::{Query, Typed};
use og_rel::Tables;
use og_value::{Catalog, Name};
use std::thread::Threads;

/// Puts what the statement, which fits, writes: a PRINT the rows on its day, TABLES the names, EXPLAIN
/// the plan, VALID its range, and any other nothing. Where it is refused, a front of it was put.
pub fn put_piece<H: Threads + Sync, K: Sink, G: Gate + Sync>(
    crew: &Crew<'_, H, G>,
    stmt: &Typed,
    names: &Names,
    out: &mut K,
) -> Result<(), PutRefusal>
    requires fits { IsFit (known_of names.now.names) stmt.now }
    ensures put { (of : IsOfNames stmt.now) (files : List (Held Relation)) (before : List Effect) → IsWorldOf names.now.names files before →
        IsPut (K.written out.old) (K.written out.new) (piece_of before (on_names (stmt.now, of))) result }
    ensures counted { IsFaultCount (is_unput result) (K.faults out.old) (K.faults out.new) }
    ensures grown { HasGrown (K.written out.old) (K.written out.new) }
{
    let alloc = crew.alloc();
    match stmt {
        Typed::PrintName { name, day } => put_name(crew, name, *day, names, out),
        Typed::PrintQuery { query, day } => put_query(crew, query, *day, names, out),
        Typed::Tables => put(names_text(alloc, names.held())?.as_slice(), out),
        Typed::Explain { query } => put_plan(alloc, query, out),
        Typed::Valid { name, day } => put_valid(alloc, name, *day, names, out),
        _ => Ok(()),
    }
}

// Puts the rows of a name on a day.
fn put_name<H: Threads + Sync, K: Sink, G: Gate + Sync>(
    crew: &Crew<'_, H, G>,
    name: &Name,
    day: RefDay,
    names: &Names,
    out: &mut K,
) -> Result<(), PutRefusal>
    ensures put { (files : List (Held Relation)) (before : List Effect) → IsWorldOf names.now.names files before → IsPut (K.written out.old) (K.written out.new) (piece_of before (on_names (t.PrintName name.now day, tt))) result }
    ensures counted { IsFaultCount (is_unput result) (K.faults out.old) (K.faults out.new) }
    ensures grown { HasGrown (K.written out.old) (K.written out.new) }
{
    // For its clause: the day is a reference day.
    day.number();
    let Some(schema) = names.schema(name) else {
        return Ok(());
    };
    let Some(rel) = names.rel(name.bytes()) else {
        return Ok(());
    };
    put_relation(crew, schema, rel, day, out)
}

// Puts the rows of a query on a day.
fn put_query<H: Threads + Sync, K: Sink, G: Gate + Sync>(
    crew: &Crew<'_, H, G>,
    query: &Query,
    day: RefDay,
    names: &Names,
    out: &mut K,
) -> Result<(), PutRefusal>
    requires fits { IsFitQuery (schemas_of (known_of names.now.names)) query.now }
    ensures put { (files : List (Held Relation)) (before : List Effect) → IsWorldOf names.now.names files before → IsPut (K.written out.old) (K.written out.new) (piece_of before (on_names (t.PrintQuery query.now day, tt))) result }
    ensures counted { IsFaultCount (is_unput result) (K.faults out.old) (K.faults out.new) }
    ensures grown { HasGrown (K.written out.old) (K.written out.new) }
{
    names.rows_fit();
    // For its clause: the day is a reference day.
    day.number();
    let rel = answer(crew, query, names)?;
    let schema = &query.first.schema;
    put_relation(crew, schema, &rel, day, out)
}
