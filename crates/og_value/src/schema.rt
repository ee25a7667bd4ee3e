//! Columns and schemas.
ghost use Rattle.std.specs.Prelude.{◌≡◌, ◌≤◌, ◌<◌, length, slice_get, Some, IfOk};

use crate::kind::Kind;
use crate::listed::Listed;
use crate::name::Name;
use og_base::NoMemory;
use std::marker::Model;

/// The most columns of a schema.
pub const MAX_COLUMNS: usize = 64;

/// A column: its name, and the kind of its values.
#[derive(Debug, PartialEq, Eq, Drop)]
pub struct Column {
    pub name: Name,
    pub kind: Kind,
}

impl Column {
    /// The same column once more.
    pub fn copy(&self) -> Result<Column, NoMemory>
        ensures { IfOk result (λ c. c ≡ self.now) }
    {
        let name = self.name.copy()?;
        Ok(Column {
            name,
            kind: self.kind,
        })
    }
}

/// A schema, seen as its columns, from 1 to `MAX_COLUMNS`. Two columns may have one name.
#[derive(Debug, PartialEq, Eq, Drop)]
pub struct Schema {
    columns: Listed<Column>,
}

impl Model for Schema {
    ghost use Rattle.std.specs.Prelude.{List};
    ghost use Rattle.og_value.specs.declared.schema.Column.{Column};
    ghost use Rattle.og_value.specs.Schemas.{IsSchema};

    ghost Value = { List Column };

    ghost view = { λ s. s.columns };

    ghost invariant = { λ s. IsSchema s.columns };

    ghost inverse = { λ cs. record { columns = cs } };
}

impl Schema {
    ghost use Rattle.og_value.specs.Schemas.{IsSchema};

    /// The schema of the columns, of which there are 1 to `MAX_COLUMNS`.
    pub fn of(columns: Vec<Column>) -> Schema
        requires { IsSchema columns.items }
        ensures { result ≡ columns.items }
    {
        Schema {
            columns: Listed::of(columns),
        }
    }

    /// A schema has 1 to `MAX_COLUMNS` columns.
    pub fn bounded(&self)
        ensures { IsSchema self.now }
    {
        let _ = &self.columns;
    }

    /// The number of columns.
    pub fn len(&self) -> usize
        ensures { result ≡ length self.now }
    {
        self.columns.len()
    }

    /// The column with that number, counted from 0.
    pub fn column(&self, i: usize) -> &Column
        requires { i < length self.now }
        ensures { slice_get self.now i ≡ Some result.now }
    {
        self.columns.part(i)
    }

    /// The same schema once more.
    pub fn copy(&self) -> Result<Schema, NoMemory>
        ensures { IfOk result (λ s. s ≡ self.now) }
    {
        let columns = self.columns.as_slice();
        let mut copies = Listed::with_room(self.columns.allocator(), columns.len())?;
        'columns: for column in columns {
            copies.push(column.copy()?)?;
        }
        Ok(Schema { columns: copies })
    }
}
