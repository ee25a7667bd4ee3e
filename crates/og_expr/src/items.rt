//! Items, as a map of rows and of pairs of rows.
ghost use Rattle.std.specs.Prelude.{◌≡◌, ◌++◌, ℤ, IfOk, map};
ghost use Rattle.og_base.specs.Calendar.{IsRefDay};
ghost use Rattle.og_query.specs.Expressions.{meaning};
ghost use Rattle.og_query.specs.Queries as meant;
ghost use Rattle.og_value.specs.Values.{row_at};

use crate::columns::Columns;
use crate::values::value;
use og_base::{NoMemory, RowMap};
use og_query::Expr;
use og_value::Row;
use std::alloc::Global;

/// Items, as the row of their values.
#[derive(Drop)]
pub struct ItemMap<'a> {
    pub items: &'a [Expr],
}

impl RowMap<Row> for ItemMap<'_> {
    ghost image = { λ m d row. meant.image d m.items.now row };

    fn map(&self, alloc: Global, row: &Row) -> Result<Row, NoMemory> {
        let none = Row::empty(alloc);
        row_of_pair(alloc, self.items, row, &none)
    }
}

/// The row that is, on each day, the values of the items on the two rows of that day, the right one
/// after the left one. The two are not glued for it. Refused only for want of memory.
pub fn row_of_pair(alloc: Global, items: &[Expr], left: &Row, right: &Row) -> Result<Row, NoMemory>
    ensures { IfOk result (λ row. (d : ℤ) → IsRefDay d → row_at row d ≡ meant.image d items.now (row_at left.now d ++ row_at right.now d)) }
{
    let columns = Columns { left, right };
    row_of_items(alloc, items, &columns)
}

// The row of the values of the items on the columns.
fn row_of_items(alloc: Global, items: &[Expr], columns: &Columns<'_>) -> Result<Row, NoMemory>
    ensures { IfOk result (λ row. (d : ℤ) → IsRefDay d → row_at row d ≡ map (meaning d (row_at columns.now d)) items.now) }
{
    let mut row = Row::with_room(alloc, items.len())?;
    'items: for item in items {
        row.push(value(alloc, item, columns)?)?;
    }
    Ok(row)
}
