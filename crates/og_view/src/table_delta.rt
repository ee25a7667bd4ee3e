//! A delta of one of the tables that are lent to a view.
ghost use Rattle.std.specs.Prelude.{◌≡◌, ◌^◌, ◌-◌, ℕ, List, Some, IfOk, min};
ghost use Rattle.std.specs.Option.{option_map};
ghost use Rattle.og_value.specs.declared.schema.Column.{Column};
ghost use Rattle.og_query.specs.Fits.{schemas_of};
ghost use Rattle.og_exec.specs.Tables.{sizes_of};
ghost use Rattle.og_db.specs.Database.{HaveKinds, Relation};
ghost use Rattle.og_db.specs.Deltas.{IsDelta, after_at, rest_at};
ghost use Rattle.og_db.specs.Held.{known_of, put_at, rows_of};
ghost use Rattle.og_reduce.specs.Sieves.{sifted};
ghost use Rattle.og_view.specs.Parts.{rel_of};
ghost use Rattle.og_view.specs.Tables.{IsPut};

use crate::part::PartRows;
use og_base::NoMemory;
use og_db::{Db, Delta};
use og_reduce::{EachRow, Sieve};
use og_rel::{Rel, Tables};
use og_value::{Name, Row};
use std::alloc::Global;

// Tables, and a delta of one of them: what it leaves of the tables, and what comes of them, of which no row is
// copied but those that are asked for.
#[derive(Drop)]
pub(crate) struct TableDelta<'t> {
    pub(crate) tables: &'t Db,
    pub(crate) name: &'t Name,
    pub(crate) delta: &'t Delta,
}

impl<'t> TableDelta<'t> {
    // The rows that the delta leaves of the table of a name, of those that pass the sieve; None where there is no
    // such table.
    pub(crate) fn rest(
        &self,
        alloc: Global,
        name: &Name,
        sieve: &Sieve<'_>,
    ) -> Result<Option<PartRows<'t>>, NoMemory>
        requires { IsDelta self.now.tables.now self.now.name.now self.now.delta.now }
        ensures { IfOk result (λ rows. option_map rel_of rows
            ≡ option_map (sifted sieve.now) (rows_of (rest_at self.now.name.now self.now.delta.now self.now.tables.now) name.now)) }
    {
        let Some(own) = self.tables.stored(name) else {
            return Ok(None);
        };
        if *self.name == *name {
            let mut rows = own.others(alloc, self.delta.at.as_slice(), sieve)?;
            rows.append(self.delta.left.passing(sieve)?)?;
            return Ok(Some(PartRows::Sifted(rows)));
        }
        Ok(Some(PartRows::of_table(alloc, own, sieve)?))
    }

    // What comes of the table, whole.
    pub(crate) fn whole(&self, alloc: Global) -> Result<Rel<Row>, NoMemory>
        requires { IsDelta self.now.tables.now self.now.name.now self.now.delta.now }
        ensures put { IfOk result (λ rel. put_at self.now.name.now rel self.now.tables.now ≡ after_at self.now.name.now self.now.delta.now self.now.tables.now) }
        ensures fits { IfOk result (IsPut self.now.tables.now self.now.name.now) }
    {
        self.tables.names_differ();
        let own = self.tables.table(self.name);
        let mut rel = own.others(alloc, self.delta.at.as_slice(), &EachRow)?;
        rel.append(self.delta.left.copy()?)?;
        rel.append(self.delta.added.copy()?)?;
        Ok(rel)
    }

    // The number of rows that come of the table of a name, or the greatest number where there are more.
    pub(crate) fn len_after(&self, name: &Name) -> usize
        requires { IsDelta self.now.tables.now self.now.name.now self.now.delta.now }
        ensures { result ≡ min (sizes_of (rows_of (after_at self.now.name.now self.now.delta.now self.now.tables.now)) name.now) (2 ^ 64 - 1) }
    {
        let Some(own) = self.tables.stored(name) else {
            return 0;
        };
        let len = own.rel().len();
        if *self.name == *name {
            let others = len.saturating_sub(self.delta.at.len());
            let rest = others.saturating_add(self.delta.left.len());
            rest.saturating_add(self.delta.added.len())
        } else {
            len
        }
    }

    // Each table has, by what the delta leaves, a relation whose rows fit its columns, and by what comes of it.
    pub(crate) fn rows_fit(&self)
        requires { IsDelta self.now.tables.now self.now.name.now self.now.delta.now }
        ensures rest { (name : List ℕ) (columns : List Column) → schemas_of (known_of (rest_at self.now.name.now self.now.delta.now self.now.tables.now)) name ≡ Some columns →
            (rel : Relation) × (rows_of (rest_at self.now.name.now self.now.delta.now self.now.tables.now) name ≡ Some rel) × HaveKinds columns rel }
        ensures after { (name : List ℕ) (columns : List Column) → schemas_of (known_of (after_at self.now.name.now self.now.delta.now self.now.tables.now)) name ≡ Some columns →
            (rel : Relation) × (rows_of (after_at self.now.name.now self.now.delta.now self.now.tables.now) name ≡ Some rel) × HaveKinds columns rel }
    {
        self.tables.rows_fit();
    }
}
