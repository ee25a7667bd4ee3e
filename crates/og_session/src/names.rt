//! What a run holds between statements.
ghost use Rattle.std.specs.Prelude.{◌≡◌, ◌≤◌, ◌++◌, ◌∷◌, [], ℕ, ℤ, List, Some, OnOk, OnErr, length};
ghost use Rattle.og_base.specs.Calendar.{IsRefDay};
ghost use Rattle.og_rel.specs.Relations.{relation_at};
ghost use Rattle.og_value.specs.Order.{row_order};
ghost use Rattle.og_value.specs.Values.{row_at};
ghost use Rattle.og_value.specs.declared.kind.What.TheVariants as what;
ghost use Rattle.og_value.specs.declared.schema.Column.{Column};
ghost use Rattle.og_query.specs.Fits.{IsFit, IsNew, schemas_of};
ghost use Rattle.og_query.specs.Queries.{ordinary_query};
ghost use Rattle.og_query.specs.Sizes.{query_size};
ghost use Rattle.og_query.specs.declared.query.Query.{Query};
ghost use Rattle.og_query.specs.declared.typed.Typed.{Typed};
ghost use Rattle.og_query.specs.declared.typed.Typed.TheVariants as t;
ghost use Rattle.og_db.specs.Database.{Relation, HaveKinds, names_at};
ghost use Rattle.og_db.specs.Effects.{on_names};
ghost use Rattle.og_db.specs.Held.{known_of, rows_of};
ghost use Rattle.og_db.specs.Runs.{sizes_at, stored};
ghost use Rattle.og_db.specs.Statements.{IsOfNames, OfNames, named_rows, named_sizes};
ghost use Rattle.og_view.specs.Views.{IsLiveQuery};
ghost use Rattle.og_output.specs.Records.{names_text};
ghost use Rattle.og_session.specs.Following.{IsChange, IsOnlyWritten};
ghost use Rattle.og_session.specs.Names.{IsDone};

use crate::changes::delta_of;
use crate::follow::{end, follow, keep_columns};
use crate::settle::settle_all;
use indexmap::IndexMap;
use og_base::NoMemory;
use og_db::{Db, Sought};
use og_par::{Crew, Gate};
use og_query::{Query, Typed};
use og_rel::{Rel, Tables};
use og_value::{Catalog, Name, Row, Schema, What};
use og_view::View;
use std::alloc::Global;
use std::marker::Model;
use std::thread::Threads;

/// All names of a run: a database, in which a live name has its columns and no rows, and the views of the
/// live names in the order of creation. It is seen as the names, the live ones with the results of their
/// views, and the views.
#[derive(Drop)]
pub struct Names {
    db: Db,
    views: IndexMap<Name, View>,
}

impl Model for Names {
    ghost use Rattle.std.specs.Coded.{codes};
    ghost use Rattle.og_query.specs.contracts.query.Query as q;
    ghost use Rattle.og_session.specs.Names.{Watched, AreLiveViews, watched};

    ghost Value = { Watched };

    ghost coded = { Prim.hlevel (codes, q.the_row.coded) };

    ghost view = { λ n. watched n.db n.views.entries };

    ghost invariant = { λ n. AreLiveViews n.db n.views.entries };
}

impl Names {
    /// No names. Takes no memory.
    pub fn new(alloc: Global) -> Names
        ensures names { result.names ≡ [] }
        ensures views { result.views ≡ [] }
    {
        Names {
            db: Db::new(alloc),
            views: IndexMap::new(alloc),
        }
    }

    /// The names alone, each with what it is.
    pub fn held(&self) -> &Db
        ensures { names_text result.now ≡ names_text self.now.names }
    {
        &self.db
    }

    /// The tables and the kept results, as a run leaves them. Takes no memory.
    pub fn into_stored(self) -> Db
        ensures { result ≡ stored self.names }
    {
        let mut db = self.db;
        db.names_differ();
        db.drop_live();
        db
    }

    /// Each name that is known has a relation, whose rows fit its columns.
    pub fn rows_fit(&self)
        ensures held { (name : List ℕ) (columns : List Column) → schemas_of (known_of self.now.names) name ≡ Some columns →
            (rel : Relation) × (rows_of self.now.names name ≡ Some rel) × HaveKinds columns rel }
    {
        self.db.rows_fit();
    }

    /// A statement that only writes leaves all as it is.
    pub fn stay(&self)
        ensures { (stmt : OfNames) → IsOnlyWritten stmt.0 → IsDone self.now self.now (on_names stmt) }
    {
        self.db.names_differ();
    }

    /// Adds a table without rows, as the last name. Refused only for want of memory.
    pub fn create(&mut self, name: Name, schema: Schema) -> Result<(), NoMemory>
        requires { IsNew (known_of self.old.names) name }
        ensures done { OnOk result (IsDone self.old self.new (on_names (t.Create name schema, tt))) }
        ensures refused { OnErr result (stored self.new.names ≡ stored self.old.names) }
    {
        self.db.names_differ();
        self.db.create(name, schema)
    }

    /// Adds a result with its rows, as the last name: where they are the answer of a query on every day, and no
    /// more than its size, as KEEP does. Refused only for want of memory.
    pub fn keep(&mut self, name: Name, schema: Schema, rel: Rel<Row>) -> Result<(), NoMemory>
        requires new { IsNew (known_of self.old.names) name }
        requires fits { HaveKinds schema rel }
        ensures kept { OnOk result (self.new.names ≡ self.old.names ++ record { name = name; what = what.Kept; columns = schema; rows = rel } ∷ []) }
        ensures views { OnOk result (self.new.views ≡ self.old.views) }
        ensures done { OnOk result ((query : Query) → schema ≡ query.first.schema →
            ((d : ℤ) → IsRefDay d → relation_at row_order row_at rel d ≡ ordinary_query d (named_rows (names_at d self.old.names)) query) →
            length rel ≤ query_size (named_sizes (sizes_at self.old.names)) query → IsDone self.old self.new (on_names (t.Keep name query, tt))) }
        ensures refused { OnErr result (stored self.new.names ≡ stored self.old.names) }
    {
        self.db.names_differ();
        self.db.keep(name, schema, rel)
    }

    /// Adds a live result, as the last name, with the view of its query. Refused only for want of memory.
    pub fn live<H: Threads + Sync, G: Gate + Sync>(
        &mut self,
        crew: &Crew<'_, H, G>,
        name: &Name,
        query: &Query,
    ) -> Result<(), NoMemory>
        requires fits { IsFit (known_of self.old.names) (t.Live name.now query.now) }
        requires live { IsLiveQuery query.now }
        ensures done { OnOk result (IsDone self.old self.new (on_names (t.Live name.now query.now, tt))) }
        ensures refused { OnErr result (stored self.new.names ≡ stored self.old.names) }
    {
        self.db.names_differ();
        let schema = query.first.schema.copy()?;
        let key = name.copy()?;
        let shown = name.copy()?;
        let view = View::new(crew, query, &self.db)?;
        self.db.live(shown, schema)?;
        self.views.insert(key, view)?;
        Ok(())
    }

    /// Keeps beside the rows that live results use the numbers in their columns, by which changes look up rows. Takes
    /// memory where there is some.
    pub fn keep_columns(&mut self)
        ensures { self.new ≡ self.old }
    {
        keep_columns(&mut self.db, &self.views);
    }

    /// Changes the rows of a table. What the statement does is found once, as a delta of the table: first each
    /// view follows it, and when all have, it is put into the table and all results are put, without taking
    /// memory. Refused only for want of memory, and then nothing has changed.
    pub fn change<H: Threads + Sync, G: Gate + Sync>(
        &mut self,
        crew: &Crew<'_, H, G>,
        stmt: Typed,
    ) -> Result<(), NoMemory>
        requires change { IsChange stmt }
        requires fits { IsFit (known_of self.old.names) stmt }
        ensures done { OnOk result ((of : IsOfNames stmt) → IsDone self.old self.new (on_names (stmt, of))) }
        ensures refused { OnErr result (self.new ≡ self.old) }
    {
        self.db.names_differ();
        let (name, delta) = delta_of(crew.alloc(), stmt, &self.db)?;
        let done = match follow(crew, &self.db, &name, &delta, &mut self.views) {
            Ok(()) => self.db.apply(&name, delta),
            Err(refusal) => Err(refusal),
        };
        end(done.is_ok(), &mut self.views);
        done
    }

    /// Takes a name out. A live result whose query names it becomes a kept one, with the rows that it has. Takes
    /// no memory.
    pub fn drop_name(&mut self, name: &Name)
        ensures { IsDone self.old self.new (on_names (t.Drop name.now, tt)) }
    {
        self.db.names_differ();
        settle_all(name, &mut self.views, &mut self.db);
        self.db.drop_name(name);
    }
}

impl Catalog for Names {
    ghost use Rattle.og_db.specs.Held.{known_of};

    ghost known = { λ n. known_of n.names };

    fn what(&self, name: &Name) -> Option<What> {
        self.db.what(name)
    }

    fn schema(&self, name: &Name) -> Option<&Schema> {
        self.db.schema(name)
    }
}

impl Tables<Row> for Names {
    ghost use Rattle.og_db.specs.Held.{rows_of};

    ghost named = { λ n. rows_of n.names };

    fn rel(&self, name: &[u8]) -> Option<&Rel<Row>> {
        let Some(rel) = self.db.rel(name) else {
            return None;
        };
        match self.views.get(Sought { bytes: name }) {
            Some(view) => Some(view.rel()),
            None => Some(rel),
        }
    }
}
