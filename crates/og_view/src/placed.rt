//! Cores over names by place, which are asked for what they have by new rows of a table.
ghost use Rattle.std.specs.Prelude.{◌≡◌, ◌≤◌, ◌<◌, ◌+◌, ◌++◌, ℕ, ℤ, Some, true, [], IfOk, IfSome, OnOk, length, slice_get, slice_index_or, take};
ghost use Rattle.std.specs.List.{All, flat_map};
ghost use Rattle.og_base.specs.Calendar.{IsRefDay};
ghost use Rattle.og_base.specs.Set.{set_of};
ghost use Rattle.og_value.specs.Order.{row_order};
ghost use Rattle.og_query.specs.Conditions.{truth};
ghost use Rattle.og_query.specs.Fits.{IsFitCore, IsFitQuery, Schemas};
ghost use Rattle.og_query.specs.Queries.{Fixed};
ghost use Rattle.og_query.specs.declared.query.From1.{From1};
ghost use Rattle.og_exec.specs.Tables.{rows_on};
ghost use Rattle.og_view.specs.Tables.{HasNew};
ghost use Rattle.og_view.specs.Parts.{AreParts, IsPart, beside_at, width_of};
ghost use Rattle.og_view.specs.Placed as spec;
ghost use Rattle.og_view.specs.Placed.{beside, cores_of, more_lists, more_rows, placed_query};
ghost use Rattle.og_view.specs.Rows.{rows_over};
ghost use Rattle.og_reduce.specs.Sieves.{passes, tests_from};

use crate::asked::Asked;
use crate::delta_rows::DeltaRows;
use crate::narrowed::Narrowed;
use crate::part::{Part, Parts, handed};
use og_base::NoMemory;
use og_db::fitting_rows;
use og_par::{Crew, Gate};
use og_query::{Core, From1, Query, copy_expressions};
use og_reduce::{Keys, Sieve, keys_of, shared};
use og_rel::Rel;
use og_value::{Name, NameRefusal, Row};
use sqlite_items::Items;
use std::alloc::Global;
use std::marker::Model;
use std::thread::Threads;

// So many new rows at most tell what other tables have to have beside them.
const FEW_ROWS: usize = 1_000;

// A core, and with its plan the query of that core alone over names by place.
#[derive(Drop)]
pub(crate) struct Placed {
    pub(crate) core: Core,
    pub(crate) asked: Asked,
}

impl Model for Placed {
    ghost use Rattle.std.specs.Coded.{codes};
    ghost use Rattle.std.specs.Prelude.{◌≡◌};
    ghost use Rattle.og_query.specs.contracts.query.Core as c;
    ghost use Rattle.og_query.specs.declared.query.Core.{Core};
    ghost use Rattle.og_view.specs.Placed.{placed_query};

    ghost Value = { Core };

    ghost coded = { Prim.hlevel (codes, c.the_row.coded) };

    ghost view = { λ p. p.core };

    ghost invariant = { λ p. p.asked ≡ placed_query p.core };
}

// The name that those letters are.
fn name_of(alloc: Global, letters: &[u8]) -> Result<Name, NoMemory>
    requires { (k : ℕ) × (letters.now ≡ spec.letters (k + 1)) }
    ensures { IfOk result (λ name. name ≡ letters.now) }
{
    match Name::of(alloc, letters) {
        Ok(name) => Ok(name),
        Err(NameRefusal::NoMemory) => Err(NoMemory),
        Err(NameRefusal::NotAName) => unreachable!(),
    }
}

// The tables under the names of their places.
fn placed_tables(alloc: Global, tables: &[From1]) -> Result<Items<From1>, NoMemory>
    ensures { IfOk result (λ placed. placed ≡ spec.placed_from 0 tables.now) }
{
    let mut letters = Vec::new(alloc);
    let mut placed = Items::new(alloc);
    'tables: for table in tables {
        letters.push(b'p')?;
        let name = name_of(alloc, letters.as_slice())?;
        let schema = table.schema.copy()?;
        placed.push(From1 { name, schema })?;
    }
    Ok(placed)
}

// The query of a core alone over names by place.
fn placed_query_of(alloc: Global, core: &Core) -> Result<Query, NoMemory>
    ensures { IfOk result (λ query. query ≡ placed_query core.now) }
{
    let tables = placed_tables(alloc, core.tables.as_slice())?;
    let items = copy_expressions(alloc, &core.items)?;
    let schema = core.schema.copy()?;
    let cond = core.cond.copy(alloc)?;
    let first = Core {
        tables,
        cond,
        semis: Items::new(alloc),
        items,
        schema,
    };
    Ok(Query {
        first,
        rest: Items::new(alloc),
    })
}

impl Placed {
    // The core with its plan.
    pub(crate) fn new(alloc: Global, core: &Core) -> Result<Placed, NoMemory>
        requires fits { (schemas : Schemas) × IsFitCore schemas core.now }
        ensures { IfOk result (λ placed. placed ≡ core.now) }
    {
        let query = placed_query_of(alloc, core)?;
        let asked = Asked::new(alloc, &query)?;
        let core = core.copy(alloc)?;
        Ok(Placed { core, asked })
    }

    // Tests of columns of the joined row that each passes of which the condition holds, where the table at a
    // place has in its columns what is told.
    fn tests_at<'k>(
        &self,
        alloc: Global,
        place: usize,
        keys: &'k [Keys],
    ) -> Result<Sieve<'k>, NoMemory>
        requires { place < length self.now.tables }
        ensures { IfOk result (λ tests. (d : ℤ) (row : Fixed) → truth d row self.now.cond ≡ true →
            passes (tests_from (width_of (take place self.now.tables)) keys.now) row ≡ true → passes tests row ≡ true) }
    {
        let tables = self.core.tables.as_slice();
        match width_before(tables, place) {
            Some(start) => {
                let tests = Sieve::of(alloc, start, keys)?;
                shared(&self.core.cond, tables.len(), tests)
            }
            None => Ok(Sieve::new(Vec::new(alloc))),
        }
    }

    // Appends the rows that the core has by the new rows at one place, where the table there gets some. Where these
    // are few, of the other tables those rows alone are joined that have in columns which the condition says are
    // equal to some of the new rows what these have there.
    fn add_at<H: Threads + Sync, T: Narrowed, G: Gate + Sync>(
        &self,
        crew: &Crew<'_, H, G>,
        change: &DeltaRows<'_, T>,
        place: usize,
        more: &mut Rel<Row>,
    ) -> Result<(), NoMemory>
        requires within { place < length self.now.tables }
        requires fits { (schemas : Schemas) × IsFitCore schemas self.now × HasNew schemas (T.Tables.named change.now.over.now) change.now.name.now change.now.new.now }
        ensures { OnOk result ((d : ℤ) → IsRefDay d → rows_on more.new d ≡ set_of row_order (rows_on more.old d
            ++ rows_over d self.now (slice_index_or (more_lists d (T.Tables.named change.now.over.now) change.now.name.now change.now.new.now self.now) place []))) }
    {
        let alloc = crew.alloc();
        fitting_rows();
        let tables = self.core.tables.as_slice();
        if change.new.len() == 0 || *change.name != tables[place].name {
            return Ok(());
        }
        let columns = told(change.new.len(), tables[place].schema.len());
        let keys = keys_of(alloc, change.new, columns)?;
        let tests = self.tests_at(alloc, place, keys.as_slice())?;
        let parts = parts_beside(alloc, &tests, tables, place, change)?;
        let places = Parts {
            parts: parts.as_slice(),
        };
        let rel = self.asked.answered(crew, &places)?;
        more.append(rel)
    }

    // Appends the rows that the core has by the new rows, place by place.
    pub(crate) fn add<H: Threads + Sync, T: Narrowed, G: Gate + Sync>(
        &self,
        crew: &Crew<'_, H, G>,
        change: &DeltaRows<'_, T>,
        more: &mut Rel<Row>,
    ) -> Result<(), NoMemory>
        requires fits { (schemas : Schemas) × IsFitCore schemas self.now × HasNew schemas (T.Tables.named change.now.over.now) change.now.name.now change.now.new.now }
        ensures { OnOk result ((d : ℤ) → IsRefDay d → rows_on more.new d ≡ set_of row_order (rows_on more.old d
            ++ more_rows d (T.Tables.named change.now.over.now) change.now.name.now change.now.new.now self.now)) }
    {
        'places: for place in 0..self.core.tables.len() {
            self.add_at(crew, change, place, more)?;
        }
        Ok(())
    }
}

// So many columns, or none where the rows are many: then it takes more to gather what they have than it spares.
fn told(rows: usize, columns: usize) -> usize
    ensures { result ≤ columns }
{
    if rows <= FEW_ROWS { columns } else { 0 }
}

// How many columns the tables before a place have together, where that is no number too great.
fn width_before(tables: &[From1], place: usize) -> Option<usize>
    requires { place ≤ length tables.now }
    ensures { IfSome result (λ width. width ≡ width_of (take place tables.now)) }
{
    let mut width: usize = 0;
    'tables: for i in 0..place {
        width = width.checked_add(tables[i].schema.len())?;
    }
    Some(width)
}

// The part of a table at that place, beside new rows at one place, that rows which pass the sieve can be made of.
fn part_beside<'k, 't, T: Narrowed>(
    alloc: Global,
    sieve: &Sieve<'k>,
    tables: &[From1],
    place: usize,
    k: usize,
    change: &'t DeltaRows<'_, T>,
) -> Result<Part<'k, 't>, NoMemory>
    requires { k < length tables.now }
    ensures { (table : From1) → slice_get tables.now k ≡ Some table →
        IfOk result (IsPart (beside (T.Tables.named change.now.over.now) change.now.new.now place k (Some table)) sieve.now (take k tables.now) table) }
{
    let sieve = handed(alloc, sieve, tables, k)?;
    let rows = change.narrowed(alloc, place, k, &tables[k], &sieve)?;
    Ok(Part { sieve, rows })
}

// Such parts of all tables.
fn parts_beside<'k, 't, T: Narrowed>(
    alloc: Global,
    sieve: &Sieve<'k>,
    tables: &[From1],
    place: usize,
    change: &'t DeltaRows<'_, T>,
) -> Result<Vec<Part<'k, 't>>, NoMemory>
    ensures { IfOk result (λ parts. AreParts (beside_at (T.Tables.named change.now.over.now) change.now.new.now place tables.now) sieve.now [] tables.now parts.items) }
{
    let mut parts = Vec::with_capacity(alloc, tables.len())?;
    'places: for k in 0..tables.len() {
        parts.push(part_beside(alloc, sieve, tables, place, k, change)?)?;
    }
    Ok(parts)
}

// The cores of a query, each with its plan.
pub(crate) fn placed_cores(alloc: Global, query: &Query) -> Result<Vec<Placed>, NoMemory>
    requires fits { (schemas : Schemas) × IsFitQuery schemas query.now }
    ensures { IfOk result (λ cores. cores.items ≡ cores_of query.now) }
{
    let mut cores = Vec::new(alloc);
    cores.push(Placed::new(alloc, &query.first)?)?;
    'rests: for rest in query.rest.as_slice() {
        cores.push(Placed::new(alloc, &rest.core)?)?;
    }
    Ok(cores)
}

// The rows that cores have by new rows, one core after the other.
pub(crate) fn more_of<H: Threads + Sync, T: Narrowed, G: Gate + Sync>(
    crew: &Crew<'_, H, G>,
    cores: &[Placed],
    change: &DeltaRows<'_, T>,
) -> Result<Rel<Row>, NoMemory>
    requires fits { (schemas : Schemas) × All (IsFitCore schemas) cores.now × HasNew schemas (T.Tables.named change.now.over.now) change.now.name.now change.now.new.now }
    ensures { IfOk result (λ more. (d : ℤ) → IsRefDay d →
        rows_on more d ≡ set_of row_order (flat_map (more_rows d (T.Tables.named change.now.over.now) change.now.name.now change.now.new.now) cores.now)) }
{
    let alloc = crew.alloc();
    let mut more = Rel::new(alloc);
    'cores: for core in cores {
        core.add(crew, change, &mut more)?;
    }
    Ok(more)
}
