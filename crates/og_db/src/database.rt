//! The names of a run and what they hold.
ghost use Rattle.std.specs.Prelude.{◌≡◌, ◌++◌, ◌<◌, ◌≤◌, ℕ, ℤ, List, [], ◌∷◌, Some, IfOk, OnOk, OnErr, length, map, slice_index_or};
ghost use Rattle.std.specs.List.{All, IsDistinct};
ghost use Rattle.std.specs.Str.{bytes_eq};
ghost use Rattle.og_base.specs.Calendar.{IsRefDay};
ghost use Rattle.std.specs.Option.{option_map};
ghost use Rattle.og_rel.specs.Relations.{relation_at};
ghost use Rattle.og_value.specs.Order.{row_order};
ghost use Rattle.og_value.specs.Values.{row_at};
ghost use Rattle.og_value.specs.declared.kind.What.TheVariants as what;
ghost use Rattle.og_value.specs.declared.schema.Column.{Column};
ghost use Rattle.og_query.specs.Fits.{IsNew, schemas_of};
ghost use Rattle.og_query.specs.Queries.{ordinary_query};
ghost use Rattle.og_query.specs.Sizes.{query_size};
ghost use Rattle.og_query.specs.declared.query.Query.{Query};
ghost use Rattle.og_query.specs.declared.typed.Typed.TheVariants as t;
ghost use Rattle.og_db.specs.Deltas.{IsApplied, IsDelta};
ghost use Rattle.og_db.specs.Held.{Held, known_of, rows_of, without};
ghost use Rattle.og_db.specs.Live.{kept_at};
ghost use Rattle.og_db.specs.Runs.{AreWithin, is_stored, sizes_at, stored};
ghost use Rattle.og_db.specs.Statements.{named_rows, named_sizes, names_after, name_sizes_after};
ghost use Rattle.og_db.specs.Database.{Relation, HaveKinds, IsTableOf, IsLiveOf, names_at};

use crate::delta::{Delta, apply};
use crate::holding::Holding;
use crate::sought::Sought;
use indexmap::IndexMap;
use og_base::NoMemory;
use og_reduce::Stored;
use og_rel::{Rel, Tables};
use og_value::{Catalog, Name, Row, Schema, What};
use std::alloc::Global;
use std::marker::Model;

/// Names in the order of creation, each with what it is, its columns and its relation. The rows of a
/// name fit its columns.
#[derive(Drop)]
pub struct Db {
    names: IndexMap<Name, Holding>,
}

impl Model for Db {
    ghost use Rattle.std.specs.Prelude.{List, map};
    ghost use Rattle.og_db.specs.Held.{Held};
    ghost use Rattle.og_db.specs.Database.{Relation};
    ghost use Rattle.og_db.specs.Entries.{AllFit, held_of};

    ghost Value = { List (Held Relation) };

    ghost view = { λ d. map held_of d.names.entries };

    ghost invariant = { λ d. AllFit d.names.entries };
}

impl Db {
    /// No names. Takes no memory.
    pub fn new(alloc: Global) -> Db
        ensures { result ≡ [] }
    {
        Db {
            names: IndexMap::new(alloc),
        }
    }

    /// Adds a table without rows, as the last name. Refused only for want of memory, and then nothing
    /// has changed.
    pub fn create(&mut self, name: Name, schema: Schema) -> Result<(), NoMemory>
        requires { IsNew (known_of self.old) name }
        ensures created { OnOk result (self.new ≡ self.old ++ record { name = name; what = what.Table; columns = schema; rows = [] } ∷ []) }
        ensures law { OnOk result ((d : ℤ) → IsRefDay d →
            names_at d self.new ≡ names_after d (names_at d self.old) (t.Create name schema, tt)) }
        ensures size { OnOk result (AreWithin (sizes_at self.new) (name_sizes_after (sizes_at self.old) (t.Create name schema, tt))) }
        ensures refused { OnErr result (self.new ≡ self.old) }
    {
        let rel = Rel::new(*self.names.allocator());
        self.enter(name, What::Table, schema, rel)
    }

    /// Adds a result with its rows, as the last name: where they are the answer of a query on every day, and
    /// no more than its size, as KEEP does. Refused only for want of memory, and then nothing has changed.
    pub fn keep(&mut self, name: Name, schema: Schema, rel: Rel<Row>) -> Result<(), NoMemory>
        requires new { IsNew (known_of self.old) name }
        requires fits { HaveKinds schema rel }
        ensures kept { OnOk result (self.new ≡ self.old ++ record { name = name; what = what.Kept; columns = schema; rows = rel } ∷ []) }
        ensures law { OnOk result ((query : Query) → schema ≡ query.first.schema →
            ((d : ℤ) → IsRefDay d → relation_at row_order row_at rel d ≡ ordinary_query d (named_rows (names_at d self.old)) query) →
            (d : ℤ) → IsRefDay d → names_at d self.new ≡ names_after d (names_at d self.old) (t.Keep name query, tt)) }
        ensures size { OnOk result ((query : Query) → schema ≡ query.first.schema → length rel ≤ query_size (named_sizes (sizes_at self.old)) query →
            AreWithin (sizes_at self.new) (name_sizes_after (sizes_at self.old) (t.Keep name query, tt))) }
        ensures refused { OnErr result (self.new ≡ self.old) }
    {
        self.enter(name, What::Kept, schema, rel)
    }

    /// Adds a live result, as the last name, and holds no rows for it: those are what its query answers.
    /// Refused only for want of memory, and then nothing has changed.
    pub fn live(&mut self, name: Name, schema: Schema) -> Result<(), NoMemory>
        requires { IsNew (known_of self.old) name }
        ensures added { OnOk result (self.new ≡ self.old ++ record { name = name; what = what.Live; columns = schema; rows = [] } ∷ []) }
        ensures refused { OnErr result (self.new ≡ self.old) }
    {
        let rel = Rel::new(*self.names.allocator());
        self.enter(name, What::Live, schema, rel)
    }

    /// Makes a live result a kept one with these rows. Its place in the order stays. Takes no memory.
    pub fn settle(&mut self, name: &Name, rel: Rel<Row>)
        requires { (columns : List Column) × IsLiveOf columns self.old name.now × HaveKinds columns rel }
        ensures { self.new ≡ kept_at name.now rel self.old }
    {
        let Some(at) = self.names.get_index_of(name) else {
            unreachable!();
        };
        let alloc = *self.names.allocator();
        let held = &mut self.names[at];
        held.what = What::Kept;
        held.rel = Stored::bare(alloc, rel);
    }

    /// Takes all live results out. The others keep their order. Takes no memory.
    pub fn drop_live(&mut self)
        ensures { self.new ≡ stored self.old }
    {
        self.names.retain(
            |_name: &Name, held: &mut Holding| -> bool
                ensures { (result ≡ is_stored held.old.what) × (held.new ≡ held.old) }
            { held.what != What::Live },
        );
    }

    /// Adds a name with what it is, its columns and its rows, as the last. Refused only for want of memory,
    /// and then nothing has changed.
    pub fn enter(
        &mut self,
        name: Name,
        what: What,
        schema: Schema,
        rel: Rel<Row>,
    ) -> Result<(), NoMemory>
        requires new { IsNew (known_of self.old) name }
        requires fits { HaveKinds schema rel }
        ensures entered { OnOk result (self.new ≡ self.old ++ record { name = name; what = what; columns = schema; rows = rel } ∷ []) }
        ensures refused { OnErr result (self.new ≡ self.old) }
    {
        let rel = Stored::new(*self.names.allocator(), rel);
        self.names.insert(name, Holding { what, schema, rel })?;
        Ok(())
    }

    /// The rows of a table, as they are stored. Takes no memory.
    pub fn table(&self, name: &Name) -> &Stored
        requires table { (columns : List Column) × IsTableOf columns self.now name.now }
        ensures rows { (rel : Relation) → rows_of self.now name.now ≡ Some rel → result.now ≡ rel }
        ensures fits { (columns : List Column) → IsTableOf columns self.now name.now → HaveKinds columns result.now }
    {
        self.rows_fit();
        let Some(rel) = self.stored(name) else {
            unreachable!();
        };
        rel
    }

    /// The rows of a name, as they are stored; None where it is not known. Takes no memory.
    pub fn stored(&self, name: &Name) -> Option<&Stored>
        ensures { option_map (λ rel. rel.now) result ≡ rows_of self.now name.now }
    {
        match self.names.get(name) {
            Some(holding) => Some(&holding.rel),
            None => None,
        }
    }

    /// Keeps beside the rows of the name at that place, counted from 0, the numbers of their columns, by which a
    /// change looks up rows. Takes memory where there is some.
    pub fn keep_columns(&mut self, i: usize)
        requires { i < length self.old }
        ensures { self.new ≡ self.old }
    {
        let alloc = *self.names.allocator();
        let held = &mut self.names[i];
        held.rel.keep_columns(alloc, held.schema.len());
    }

    /// Puts a delta into its table: what is left of the touched rows and what is new comes where those stood, in
    /// order, and behind the others where there is more. Refused only for want of memory, and then nothing has
    /// changed.
    pub fn apply(&mut self, name: &Name, delta: Delta) -> Result<(), NoMemory>
        requires { IsDelta self.old name.now delta }
        ensures applied { OnOk result (IsApplied name.now delta self.old self.new) }
        ensures refused { OnErr result (self.new ≡ self.old) }
    {
        let Some(at) = self.names.get_index_of(name) else {
            unreachable!();
        };
        apply(&mut self.names[at].rel, delta)
    }

    /// No two names are the same.
    pub fn names_differ(&self)
        ensures { IsDistinct bytes_eq (map (λ h. h.name) self.now) }
    {
        let _ = self.names.len();
    }

    /// The number of names.
    pub fn len(&self) -> usize
        ensures { result ≡ length self.now }
    {
        self.names.len()
    }

    /// The name at that place, counted from 0.
    pub fn name_at(&self, i: usize) -> &Name
        requires { i < length self.now }
        ensures { (h : Held Relation) → result.now ≡ (slice_index_or self.now i h).name }
    {
        let Some((name, _)) = self.names.get_index(i) else {
            unreachable!();
        };
        name
    }

    /// Takes a name out. The others keep their order.
    pub fn drop_name(&mut self, name: &Name)
        ensures dropped { self.new ≡ without name.now self.old }
        ensures law { (d : ℤ) → IsRefDay d → names_at d self.new ≡ names_after d (names_at d self.old) (t.Drop name.now, tt) }
        ensures size { AreWithin (sizes_at self.new) (name_sizes_after (sizes_at self.old) (t.Drop name.now, tt)) }
    {
        let _ = self.names.len();
        self.names.shift_remove(name);
    }

    /// The rows of each name fit its columns, and so each name that is known has a relation whose rows do.
    pub fn rows_fit(&self)
        ensures all { All (λ h. HaveKinds h.columns h.rows) self.now }
        ensures held { (name : List ℕ) (columns : List Column) → schemas_of (known_of self.now) name ≡ Some columns →
            (rel : Relation) × (rows_of self.now name ≡ Some rel) × HaveKinds columns rel }
    {
        let _ = &self.names;
    }
}

impl Catalog for Db {
    ghost use Rattle.og_db.specs.Held.{known_of};

    ghost known = { known_of };

    fn what(&self, name: &Name) -> Option<What> {
        match self.names.get(name) {
            Some(holding) => Some(holding.what),
            None => None,
        }
    }

    fn schema(&self, name: &Name) -> Option<&Schema> {
        match self.names.get(name) {
            Some(holding) => Some(&holding.schema),
            None => None,
        }
    }
}

impl Tables<Row> for Db {
    ghost use Rattle.og_db.specs.Held.{rows_of};

    ghost named = { rows_of };

    fn rel(&self, name: &[u8]) -> Option<&Rel<Row>> {
        match self.names.get(Sought { bytes: name }) {
            Some(holding) => Some(holding.rel.rel()),
            None => None,
        }
    }
}
