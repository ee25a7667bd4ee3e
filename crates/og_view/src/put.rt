//! Tables of which one has another relation.
ghost use Rattle.std.specs.Prelude.{◌≡◌, ℕ, List, Some};
ghost use Rattle.og_value.specs.declared.schema.Column.{Column};
ghost use Rattle.og_query.specs.Fits.{schemas_of};
ghost use Rattle.og_db.specs.Database.{HaveKinds, Relation};
ghost use Rattle.og_db.specs.Held.{known_of, put_at, rows_of};
ghost use Rattle.og_view.specs.Tables.{IsPut};

use crate::narrowed::Narrowed;
use crate::part::PartRows;
use og_base::NoMemory;
use og_db::Db;
use og_reduce::Sieve;
use og_rel::{Rel, Tables};
use og_value::{Name, Row};
use std::alloc::Global;
use std::marker::Model;

// Tables, and another relation for one of them, seen as the tables with it.
#[derive(Drop)]
pub(crate) struct Put<'b> {
    tables: &'b Db,
    name: &'b Name,
    rel: &'b Rel<Row>,
}

impl<'b> Model for Put<'b> {
    ghost use Rattle.std.specs.Prelude.{List};
    ghost use Rattle.og_db.specs.Database.{Relation};
    ghost use Rattle.og_db.specs.Held.{Held, put_at};
    ghost use Rattle.og_view.specs.Tables.{IsPut};

    ghost Value = { List (Held Relation) };

    ghost view = { λ p. put_at p.name.now p.rel.now p.tables.now };

    ghost invariant = { λ p. IsPut p.tables.now p.name.now p.rel.now };
}

impl<'b> Put<'b> {
    // The tables, where the one of that name has that relation.
    pub(crate) fn new(tables: &'b Db, name: &'b Name, rel: &'b Rel<Row>) -> Put<'b>
        requires { IsPut tables.now name.now rel.now }
        ensures { result ≡ put_at name.now rel.now tables.now }
    {
        Put { tables, name, rel }
    }

    // Each table has a relation whose rows fit its columns.
    pub(crate) fn rows_fit(&self)
        ensures held { (name : List ℕ) (columns : List Column) → schemas_of (known_of self.now) name ≡ Some columns →
            (rel : Relation) × (rows_of self.now name ≡ Some rel) × HaveKinds columns rel }
    {
        self.tables.rows_fit();
    }
}

impl Tables<Row> for Put<'_> {
    ghost use Rattle.og_db.specs.Held.{rows_of};

    ghost named = { rows_of };

    fn rel(&self, name: &[u8]) -> Option<&Rel<Row>> {
        let Some(own) = self.tables.rel(name) else {
            return None;
        };
        if self.name.bytes() == name {
            return Some(self.rel);
        }
        Some(own)
    }
}

impl Narrowed for Put<'_> {
    fn narrowed(
        &self,
        alloc: Global,
        name: &Name,
        sieve: &Sieve<'_>,
    ) -> Result<Option<PartRows<'_>>, NoMemory> {
        let _ = alloc;
        let Some(rel) = self.rel(name.bytes()) else {
            return Ok(None);
        };
        Ok(Some(PartRows::of(rel, sieve)?))
    }
}
