//! Parts of the tables at the places of a core: their rows that combinations which pass tests are made of.
ghost use Rattle.std.specs.Prelude.{◌≡◌, ◌+◌, ◌<◌, Some, IfOk, IfSome, length, option_map, slice_get, take};
ghost use Rattle.std.specs.List.{All};
ghost use Rattle.og_query.specs.declared.query.From1.{From1};
ghost use Rattle.og_view.specs.Parts as spec;
ghost use Rattle.og_view.specs.Parts.{IsHanded, LiesIn, rel_of};
ghost use Rattle.og_reduce.specs.Sieves.{sifted};

use og_base::NoMemory;
use og_query::From1;
use og_reduce::{Sieve, Stored, Test};
use og_rel::{Rel, Tables};
use og_value::Row;
use std::alloc::Global;

// The rows of a part: those of the table, lent, or some of them.
#[derive(Drop)]
pub(crate) enum PartRows<'t> {
    All(&'t Rel<Row>),
    Sifted(Rel<Row>),
}

impl<'t> PartRows<'t> {
    // The rows of the relation that pass the sieve.
    pub(crate) fn of(rel: &'t Rel<Row>, sieve: &Sieve<'_>) -> Result<PartRows<'t>, NoMemory>
        ensures { IfOk result (λ rows. rel_of rows ≡ sifted sieve.now rel.now) }
    {
        if sieve.tests.len() == 0 {
            return Ok(PartRows::All(rel));
        }
        Ok(PartRows::Sifted(rel.passing(sieve)?))
    }

    // The rows of the table that pass the sieve.
    pub(crate) fn of_table(
        alloc: Global,
        table: &'t Stored,
        sieve: &Sieve<'_>,
    ) -> Result<PartRows<'t>, NoMemory>
        ensures { IfOk result (λ rows. rel_of rows ≡ sifted sieve.now table.now) }
    {
        if sieve.tests.len() == 0 {
            return Ok(PartRows::All(table.rel()));
        }
        let found = table.found(alloc, sieve)?;
        Ok(PartRows::Sifted(found.rows))
    }

    // The rows.
    pub(crate) fn rel(&self) -> &Rel<Row>
        ensures { result.now ≡ rel_of self.now }
    {
        match self {
            PartRows::All(rel) => *rel,
            PartRows::Sifted(rel) => rel,
        }
    }
}

// The part of a table that its tests leave; no rows where there is no such table.
#[derive(Drop)]
pub(crate) struct Part<'k, 't> {
    pub(crate) sieve: Sieve<'k>,
    pub(crate) rows: Option<PartRows<'t>>,
}

// The places of a core, each with the part of its table.
#[derive(Drop)]
pub(crate) struct Parts<'p, 'k, 't> {
    pub(crate) parts: &'p [Part<'k, 't>],
}

impl Parts<'_, '_, '_> {
    // The relation of a place.
    fn at(&self, place: usize) -> Option<&Rel<Row>>
        ensures { option_map (λ r. r.now) result ≡ spec.part_at (slice_get self.now.parts.now place) }
    {
        match self.parts.get(place) {
            Some(
                Part {
                    rows: Some(rows),
                    ..
                },
            ) => Some(rows.rel()),
            _ => None,
        }
    }
}

impl Tables<Row> for Parts<'_, '_, '_> {
    ghost use Rattle.og_view.specs.Parts.{part_rels};

    ghost named = { λ p. part_rels p.parts.now };

    fn rel(&self, name: &[u8]) -> Option<&Rel<Row>> {
        match name.split_first() {
            Some((_, rest)) => self.at(rest.len()),
            None => None,
        }
    }
}

// A column of the joined row, as a column of the table at a place where it lies in that.
fn column_in(tables: &[From1], place: usize, column: usize) -> Option<usize>
    requires { place < length tables.now }
    ensures { (table : From1) → slice_get tables.now place ≡ Some table → IfSome result (LiesIn (take place tables.now) table column) }
{
    let mut left = column;
    'tables: for i in 0..place {
        let width = tables[i].schema.len();
        if left < width {
            return None;
        }
        left -= width;
    }
    if left < tables[place].schema.len() {
        Some(left)
    } else {
        None
    }
}

// The tests of columns of the joined row that can be asked of the table at a place.
pub(crate) fn handed<'k>(
    alloc: Global,
    sieve: &Sieve<'k>,
    tables: &[From1],
    place: usize,
) -> Result<Sieve<'k>, NoMemory>
    requires { place < length tables.now }
    ensures { (table : From1) → slice_get tables.now place ≡ Some table → IfOk result (λ tests. All (IsHanded sieve.now (take place tables.now) table) tests) }
{
    let mut tests = Vec::new(alloc);
    'tests: for test in sieve.tests.as_slice() {
        let keys = test.keys;
        if let Some(column) = column_in(tables, place, test.column) {
            tests.push(Test { column, keys })?;
        }
    }
    Ok(Sieve::new(tests))
}
