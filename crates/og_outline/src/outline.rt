//! The outline of a script.
ghost use Rattle.std.specs.Prelude.{◌≡◌, ◌↔◌, [], Some, None, not, option_copied, string_bytes, IfOk, IsTrue, OnOk};
ghost use Rattle.std.specs.Map.{lookup};
ghost use Rattle.std.specs.Option.{option_map};
ghost use Rattle.std.specs.Str.{bytes_eq};
ghost use Rattle.og_query.specs.Fits.{IsFit, IsNew};
ghost use Rattle.og_value.specs.declared.kind.What.TheVariants as what;
ghost use Rattle.og_db.specs.Held.{all_made_of, known_of};
ghost use Rattle.og_db.specs.Statements.{IsOfNames};
ghost use Rattle.og_outline.specs.Known.{ends_beside, uses_base, without_base};
ghost use Rattle.og_outline.specs.Outlines.{ending_names, names_differ, outlined_after, outlined_drop, outlined_open, outlined_save, with_name};

use crate::known::Known;
use indexmap::IndexMap;
use og_base::NoMemory;
use og_db::Db;
use og_query::{Query, Typed};
use og_rel::Rel;
use og_value::{Catalog, Name, Schema, Text, What};
use og_view::uses;
use std::alloc::Global;
use std::marker::Model;

/// A file that a SAVE wrote: the number of that statement, and the columns.
#[derive(Drop)]
pub struct SavedFile {
    pub number: usize,
    pub schema: Schema,
}

/// The names with their columns and without rows, and the columns of the files that were saved.
#[derive(Drop)]
pub struct Outline {
    alloc: Global,
    names: IndexMap<Name, Known>,
    files: IndexMap<String, SavedFile>,
}

impl Model for Outline {
    ghost use Rattle.std.specs.Coded.{codes};
    ghost use Rattle.og_query.specs.contracts.query.Query as q;
    ghost use Rattle.og_outline.specs.Outlines.{Outlined, outlined_of};

    ghost Value = { Outlined };

    ghost coded = { Prim.hlevel (codes, q.the_row.coded) };

    ghost view = { λ o. outlined_of o.names.entries o.files.entries };
}

impl Outline {
    /// No names and no files. Takes no memory.
    pub fn new(alloc: Global) -> Outline
        ensures names { result.names ≡ [] }
        ensures files { result.files ≡ [] }
    {
        Outline {
            alloc,
            names: IndexMap::new(alloc),
            files: IndexMap::new(alloc),
        }
    }

    /// Whether the name is a live result.
    pub fn is_live(&self, name: &Name) -> bool
        ensures { IsTrue result ↔ (option_map (λ k. k.0) (known_of self.now.names name.now) ≡ Some what.Live) }
    {
        matches!(self.what(name), Some(What::Live))
    }

    /// No two names are the same.
    pub fn names_differ(&self)
        ensures { names_differ self.now }
    {
        let _ = self.names.len();
    }

    /// What the last SAVE to the file wrote, if there was one.
    pub fn saved(&self, file: &Text) -> Option<&SavedFile>
        ensures { option_copied result ≡ lookup (bytes_eq file.now) self.now.files }
    {
        self.files.get(file.as_str())
    }

    /// Does to the names what a statement does that acts on names alone. Refused only for want of memory.
    pub fn apply(&mut self, typed: &Typed) -> Result<(), NoMemory>
        requires of { IsOfNames typed.now }
        requires fits { IsFit (known_of self.old.names) typed.now }
        ensures done { OnOk result (self.new ≡ outlined_after self.old typed.now) }
    {
        match typed {
            Typed::Create { name, schema } => self.add(name, What::Table, schema),
            Typed::Keep { name, query } => self.add(name, What::Kept, &query.first.schema),
            Typed::Live { name, query } => self.add_live(name, query),
            Typed::Drop { name } => {
                self.drop_name(name);
                Ok(())
            }
            _ => Ok(()),
        }
    }

    // Adds a table or a kept result, as the last name.
    fn add(&mut self, name: &Name, what: What, schema: &Schema) -> Result<(), NoMemory>
        requires { IsNew (known_of self.old.names) name.now }
        ensures added { OnOk result (self.new ≡ with_name name.now what schema.now None self.old) }
    {
        let key = name.copy()?;
        let schema = schema.copy()?;
        let known = Known {
            what,
            schema,
            query: None,
        };
        self.enter(key, known)
    }

    // Adds a live result, as the last name.
    fn add_live(&mut self, name: &Name, query: &Query) -> Result<(), NoMemory>
        requires { IsNew (known_of self.old.names) name.now }
        ensures added { OnOk result (self.new ≡ with_name name.now what.Live query.now.first.schema (Some query.now) self.old) }
    {
        let key = name.copy()?;
        let schema = query.first.schema.copy()?;
        let query = query.copy(self.alloc)?;
        let known = Known {
            what: What::Live,
            schema,
            query: Some(query),
        };
        self.enter(key, known)
    }

    // Adds a name with what is known of it, as the last.
    fn enter(&mut self, name: Name, known: Known) -> Result<(), NoMemory>
        requires { IsNew (known_of self.old.names) name }
        ensures { OnOk result (self.new ≡ with_name name known.what known.schema known.query self.old) }
    {
        self.names.insert(name, known)?;
        Ok(())
    }

    // Takes a name out. A live result whose query names it becomes a kept one.
    fn drop_name(&mut self, name: &Name)
        ensures { self.new ≡ outlined_drop name.now self.old }
    {
        self.names.retain(
            |key: &Name, known: &mut Known| -> bool
                ensures { (result ≡ not (bytes_eq name.entry.now key.now)) × (known.new ≡ without_base name.entry.now known.old) }
            {
                end_with(name, known);
                *name != *key
            },
        );
    }

    /// The names of the live results that end with the DROP of the name but are not it, in the order of creation. Refused
    /// only for want of memory.
    pub fn ending(&self, name: &Name) -> Result<Vec<Name>, NoMemory>
        ensures { IfOk result (λ names. names.items ≡ ending_names name.now self.now.names) }
    {
        let mut names = Vec::new(self.alloc);
        'names: for (key, known) in self.names.iter() {
            if ends_beside(name, key, known) {
                names.push(key.copy()?)?;
            }
        }
        Ok(names)
    }

    /// Adds a kept result, as an OPEN does. Refused only for want of memory.
    pub fn open(&mut self, name: &Name, schema: &Schema) -> Result<(), NoMemory>
        requires { IsNew (known_of self.old.names) name.now }
        ensures { OnOk result (self.new ≡ outlined_open name.now schema.now self.old) }
    {
        self.add(name, What::Kept, schema)
    }

    /// Remembers that the statement with that number saved a name to the file. Refused only for want of memory.
    pub fn save(&mut self, number: usize, schema: &Schema, file: &Text) -> Result<(), NoMemory>
        ensures { OnOk result (self.new ≡ outlined_save number schema.now file.now self.old) }
    {
        let file = String::from_str(self.alloc, file.as_str())?;
        let schema = schema.copy()?;
        self.put(file, SavedFile { number, schema })
    }

    // Remembers a saved file, in place of an older one.
    fn put(&mut self, file: String, saved: SavedFile) -> Result<(), NoMemory>
        ensures { OnOk result (self.new ≡ outlined_save saved.number saved.schema (string_bytes file) self.old) }
    {
        self.files.insert(file, saved)?;
        Ok(())
    }

    /// The names as a database, in which none has rows. Refused only for want of memory.
    pub fn to_db(&self) -> Result<Db, NoMemory>
        ensures { IfOk result (λ db. db ≡ all_made_of (λ _. []) self.now.names) }
    {
        let mut db = Db::new(self.alloc);
        'names: for (key, known) in self.names.iter() {
            let name = key.copy()?;
            let schema = known.schema.copy()?;
            db.enter(name, known.what, schema, Rel::new(self.alloc))?;
        }
        Ok(db)
    }
}

// Whether the name is of a live result whose query names the other.
fn uses_base(name: &Name, known: &Known) -> bool
    ensures { result ≡ uses_base name.now known.now }
{
    match &known.query {
        Some(query) => uses(query, name),
        None => false,
    }
}

// Whether the first name is not the second, which is of a live result whose query names it.
fn ends_beside(name: &Name, key: &Name, known: &Known) -> bool
    ensures { result ≡ ends_beside name.now key.now known.now }
{
    *name != *key && uses_base(name, known)
}

// Makes a live result whose query names the other name a kept one.
fn end_with(name: &Name, known: &mut Known)
    ensures { known.new ≡ without_base name.now known.old }
{
    if uses_base(name, known) {
        known.what = What::Kept;
        known.query = None;
    }
}

impl Catalog for Outline {
    ghost use Rattle.og_db.specs.Held.{known_of};

    ghost known = { λ o. known_of o.names };

    fn what(&self, name: &Name) -> Option<What> {
        match self.names.get(name) {
            Some(known) => Some(known.what),
            None => None,
        }
    }

    fn schema(&self, name: &Name) -> Option<&Schema> {
        match self.names.get(name) {
            Some(known) => Some(&known.schema),
            None => None,
        }
    }
}
