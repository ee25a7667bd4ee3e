//! Rows of cores that are derived again, over those rows alone of what a delta leaves of their tables that such
//! rows are made of.
ghost use Rattle.std.specs.Prelude.{◌≡◌, ◌++◌, ◌<◌, ℤ, Some, true, IfOk, IfSome, OnOk, [], length, slice_get, take};
ghost use Rattle.std.specs.List.{All, flat_map};
ghost use Rattle.og_base.specs.Calendar.{IsRefDay};
ghost use Rattle.og_base.specs.Set.{set_of};
ghost use Rattle.og_value.specs.Order.{row_order};
ghost use Rattle.og_query.specs.Fits.{IsFitCore, Schemas};
ghost use Rattle.og_query.specs.Queries.{Fixed, image};
ghost use Rattle.og_query.specs.declared.expression.Expr.TheVariants as expr;
ghost use Rattle.og_query.specs.declared.query.From1.{From1};
ghost use Rattle.og_exec.specs.Tables.{rows_on};
ghost use Rattle.og_db.specs.Held.{rows_of};
ghost use Rattle.og_view.specs.Again.{passing_rows};
ghost use Rattle.og_db.specs.Deltas.{IsDelta, rest_at};
ghost use Rattle.og_view.specs.Tables.{AreHeld};
ghost use Rattle.og_view.specs.Parts.{AreParts, IsPart, own_at};
ghost use Rattle.og_reduce.specs.Sieves.{passes};

use crate::part::{Part, Parts, handed};
use crate::placed::Placed;
use crate::table_delta::TableDelta;
use og_base::NoMemory;
use og_db::fitting_rows;
use og_par::{Crew, Gate};
use og_query::{Expr, From1};
use og_reduce::{Sieve, add_test, shared};
use og_rel::Rel;
use og_value::Row;
use std::alloc::Global;
use std::thread::Threads;

// The column of the joined row that an item hands through, where it does so.
fn column_handed(items: &[Expr], item: usize) -> Option<usize>
    ensures { IfSome result (λ place. slice_get items.now item ≡ Some (expr.Column place)) }
{
    match items.get(item) {
        Some(Expr::Column(place)) => Some(*place),
        _ => None,
    }
}

// The tests of items, of the columns of the joined row that these hand through.
fn of_columns<'k>(alloc: Global, sieve: &Sieve<'k>, items: &[Expr]) -> Result<Sieve<'k>, NoMemory>
    ensures { IfOk result (λ tests. (d : ℤ) (row : Fixed) → passes sieve.now (image d items.now row) ≡ true → passes tests row ≡ true) }
{
    let mut tests = Vec::new(alloc);
    'tests: for test in sieve.tests.as_slice() {
        add_test(&mut tests, column_handed(items, test.column), test.keys)?;
    }
    Ok(Sieve::new(tests))
}

// The part of the table at a place that rows which pass the sieve can be made of.
fn part_of<'k, 't>(
    alloc: Global,
    sieve: &Sieve<'k>,
    tables: &[From1],
    place: usize,
    over: &TableDelta<'t>,
) -> Result<Part<'k, 't>, NoMemory>
    requires delta { IsDelta over.now.tables.now over.now.name.now over.now.delta.now }
    requires place { place < length tables.now }
    ensures { (table : From1) → slice_get tables.now place ≡ Some table →
        IfOk result (IsPart (rows_of (rest_at over.now.name.now over.now.delta.now over.now.tables.now) table.name) sieve.now (take place tables.now) table) }
{
    let sieve = handed(alloc, sieve, tables, place)?;
    let rows = over.rest(alloc, &tables[place].name, &sieve)?;
    Ok(Part { sieve, rows })
}

// Such parts of all tables.
fn parts_of<'k, 't>(
    alloc: Global,
    sieve: &Sieve<'k>,
    tables: &[From1],
    over: &TableDelta<'t>,
) -> Result<Vec<Part<'k, 't>>, NoMemory>
    requires { IsDelta over.now.tables.now over.now.name.now over.now.delta.now }
    ensures { IfOk result (λ parts. AreParts (own_at (rows_of (rest_at over.now.name.now over.now.delta.now over.now.tables.now)) tables.now) sieve.now [] tables.now parts.items) }
{
    let mut parts = Vec::with_capacity(alloc, tables.len())?;
    'places: for place in 0..tables.len() {
        parts.push(part_of(alloc, sieve, tables, place, over)?)?;
    }
    Ok(parts)
}

// Appends the rows of a core that pass the sieve.
fn add_rederived<H: Threads + Sync, G: Gate + Sync>(
    crew: &Crew<'_, H, G>,
    placed: &Placed,
    over: &TableDelta<'_>,
    sieve: &Sieve<'_>,
    again: &mut Rel<Row>,
) -> Result<(), NoMemory>
    requires delta { IsDelta over.now.tables.now over.now.name.now over.now.delta.now }
    requires fits { (schemas : Schemas) × IsFitCore schemas placed.now × AreHeld schemas (rows_of (rest_at over.now.name.now over.now.delta.now over.now.tables.now)) }
    ensures { OnOk result ((d : ℤ) → IsRefDay d →
        rows_on again.new d ≡ set_of row_order (rows_on again.old d ++ passing_rows d (rows_of (rest_at over.now.name.now over.now.delta.now over.now.tables.now)) sieve.now placed.now)) }
{
    let alloc = crew.alloc();
    fitting_rows();
    let core = &placed.core;
    let tables = core.tables.as_slice();
    let tests = of_columns(alloc, sieve, core.items.as_slice())?;
    let tests = shared(&core.cond, tables.len(), tests)?;
    let parts = parts_of(alloc, &tests, tables, over)?;
    let places = Parts {
        parts: parts.as_slice(),
    };
    let rel = placed.asked.answered(crew, &places)?;
    again.append(rel.passing(sieve)?)
}

// The rows of cores that pass the sieve, one core after the other.
pub(crate) fn rederived<H: Threads + Sync, G: Gate + Sync>(
    crew: &Crew<'_, H, G>,
    cores: &[Placed],
    over: &TableDelta<'_>,
    sieve: &Sieve<'_>,
) -> Result<Rel<Row>, NoMemory>
    requires delta { IsDelta over.now.tables.now over.now.name.now over.now.delta.now }
    requires fits { (schemas : Schemas) × All (IsFitCore schemas) cores.now × AreHeld schemas (rows_of (rest_at over.now.name.now over.now.delta.now over.now.tables.now)) }
    ensures { IfOk result (λ again. (d : ℤ) → IsRefDay d →
        rows_on again d ≡ set_of row_order (flat_map (passing_rows d (rows_of (rest_at over.now.name.now over.now.delta.now over.now.tables.now)) sieve.now) cores.now)) }
{
    let alloc = crew.alloc();
    let mut again = Rel::new(alloc);
    'cores: for core in cores {
        add_rederived(crew, core, over, sieve, &mut again)?;
    }
    Ok(again)
}
