//! Assignments, as a map of rows.
ghost use Rattle.std.specs.Prelude.{◌≡◌, ℤ, IfOk, OnOk, set};
ghost use Rattle.og_base.specs.Calendar.{IsRefDay};
ghost use Rattle.og_value.specs.Values.{row_at};
ghost use Rattle.og_query.specs.Expressions.{meaning};

use og_base::{NoMemory, RowMap};
use og_expr::value_on;
use og_query::Assign;
use og_value::{Row, Value};
use std::alloc::Global;

// Assignments, as the row with the new values, each computed from the old row.
#[derive(Drop)]
pub(crate) struct Assignments<'a> {
    pub(crate) sets: &'a [Assign],
}

impl RowMap<Row> for Assignments<'_> {
    ghost use Rattle.og_db.specs.Statements.{assigned};

    ghost image = { λ m d row. assigned d m.sets.now row };

    fn map(&self, alloc: Global, row: &Row) -> Result<Row, NoMemory> {
        let mut values = values_in(alloc, row)?;
        'sets: for one in self.sets {
            assign(alloc, one, row, &mut values)?;
        }
        Ok(Row::of(values))
    }
}

// The values of the row.
fn values_in(alloc: Global, row: &Row) -> Result<Vec<Value>, NoMemory>
    ensures { IfOk result (λ vs. vs.items ≡ row.now) }
{
    let mut values = Vec::with_capacity(alloc, row.len())?;
    'values: for i in 0..row.len() {
        values.push(row.value(i).copy()?)?;
    }
    Ok(values)
}

// Puts the new value in its column, computed from the row as it was.
fn assign(alloc: Global, one: &Assign, row: &Row, values: &mut Vec<Value>) -> Result<(), NoMemory>
    ensures { OnOk result ((d : ℤ) → IsRefDay d →
        row_at values.new.items d ≡ set (row_at values.old.items d) one.now.column (meaning d (row_at row.now d) one.now.expr)) }
{
    let value = value_on(alloc, &one.expr, row)?;
    if one.column < values.len() {
        values[one.column] = value;
    }
    Ok(())
}
