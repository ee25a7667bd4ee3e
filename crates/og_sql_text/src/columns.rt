//! The columns of a node's rows.

use crate::identifiers::{may_be_column, put_marked, put_name};
use crate::sql::Sql;
use og_base::NoMemory;
use og_value::{Kind, Schema};
use std::alloc::Global;

// A column: its name in ongq, the number behind `$` where it has one, and its kind.
#[derive(Drop)]
struct One {
    name: Vec<u8>,
    mark: usize,
    kind: Kind,
}

/// The columns of a node's rows, each under a name of its own in SQL.
#[derive(Drop)]
pub struct Columns {
    alloc: Global,
    list: Vec<One>,
}

impl Columns {
    /// No columns. Takes no memory.
    pub fn none(alloc: Global) -> Columns {
        Columns {
            alloc,
            list: Vec::new(alloc),
        }
    }

    /// The columns of a table or of an answer, for a text, which is cut where memory runs out.
    pub fn of(schema: &Schema, out: &mut Sql) -> Columns {
        let mut columns = Columns::none(out.alloc());
        columns.add_schema(schema, out);
        columns
    }

    /// Adds the columns of a table behind these.
    pub fn add_schema(&mut self, schema: &Schema, out: &mut Sql) {
        'columns: for i in 0..schema.len() {
            let column = schema.column(i);
            self.add(column.name.bytes(), column.kind, out);
        }
    }

    /// The columns once more.
    pub fn copy(&self, out: &mut Sql) -> Columns {
        let mut columns = Columns::none(self.alloc);
        columns.add_all(self, out);
        columns
    }

    /// The number of columns.
    pub fn len(&self) -> usize {
        self.list.len()
    }

    /// The kind of the column at that place. A row has a place that a checked query names.
    pub fn kind(&self, place: usize) -> Kind {
        match self.list.get(place) {
            Some(one) => one.kind,
            None => Kind::Int,
        }
    }

    /// Adds a column. Where its name is taken or no name of a column, it has its place behind `$`. Where memory runs out the
    /// text is cut.
    pub fn add(&mut self, name: &[u8], kind: Kind, out: &mut Sql) {
        let mark = if may_be_column(name) && !self.has(name) {
            0
        } else {
            self.list.len().saturating_add(1)
        };
        let added = self.push(name, mark, kind);
        out.made(added);
    }

    // Adds a column under its name and the number behind `$`.
    fn push(&mut self, name: &[u8], mark: usize, kind: Kind) -> Result<(), NoMemory> {
        let name = Vec::from_slice(self.alloc, name)?;
        self.list.push(One { name, mark, kind })?;
        Ok(())
    }

    // Whether a column has that name, with or without a number behind it.
    fn has(&self, name: &[u8]) -> bool {
        'columns: for one in self.list.as_slice() {
            if one.name.as_slice() == name {
                return true;
            }
        }
        false
    }

    /// Adds all columns of the other row behind these.
    pub fn add_all(&mut self, other: &Columns, out: &mut Sql) {
        'columns: for one in other.list.as_slice() {
            self.add(one.name.as_slice(), one.kind, out);
        }
    }

    /// Appends the name of the column at that place.
    pub fn put(&self, place: usize, out: &mut Sql) {
        match self.list.get(place) {
            Some(one) if one.mark > 0 => put_marked(one.name.as_slice(), one.mark, out),
            Some(one) => put_name(one.name.as_slice(), out),
            None => {}
        }
    }

    /// Whether both have one name in SQL at these places.
    pub fn is_same(&self, place: usize, other: &Columns, there: usize) -> bool {
        match (self.list.get(place), other.list.get(there)) {
            (Some(one), Some(two)) => {
                one.mark == two.mark && one.name.as_slice() == two.name.as_slice()
            }
            _ => false,
        }
    }

    /// Appends the names, with commas between them, each after a dot and the word where there is one.
    pub fn put_all(&self, before: &str, out: &mut Sql) {
        'columns: for i in 0..self.list.len() {
            out.put(if i > 0 { ", " } else { "" });
            out.put(before);
            self.put(i, out);
        }
    }

    /// Appends the places of the columns from 1, with commas between them.
    pub fn put_places(&self, out: &mut Sql) {
        'columns: for i in 0..self.list.len() {
            out.put(if i > 0 { ", " } else { "" });
            out.number(i.saturating_add(1));
        }
    }

    /// Appends the columns as CREATE TABLE has them.
    pub fn put_types(&self, out: &mut Sql) {
        'columns: for i in 0..self.list.len() {
            self.put(i, out);
            out.put(type_of(self.kind(i)));
        }
        out.put("days datemultirange NOT NULL DEFAULT '{(,)}'")
    }
}

// The type of a column, and the comma behind it.
fn type_of(kind: Kind) -> &'static str {
    match kind {
        Kind::Int => " bigint NOT NULL, ",
        Kind::Text => " text COLLATE \"C\" NOT NULL, ",
        Kind::Date => " ongoing_point NOT NULL, ",
        Kind::Period => " ongoing_period NOT NULL, ",
    }
}
