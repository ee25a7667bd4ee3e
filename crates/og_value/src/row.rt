//! Rows, whose values depend on the day, and rows of one day.
ghost use Rattle.std.specs.Prelude.{◌≡◌, ◌<◌, ◌++◌, ◌∷◌, [], ℤ, length, slice_get, Some, IfOk, OnOk, OnErr, List};
ghost use Rattle.std.specs.Option.{option_map};
ghost use Rattle.og_base.specs.Calendar.{IsRefDay};
ghost use Rattle.og_base.specs.Ranges.{holds_day};
ghost use Rattle.og_base.specs.Set.{IsExactOrder};
ghost use Rattle.og_value.specs.Heads.{number_at};
ghost use Rattle.og_value.specs.Order.{row_order};
ghost use Rattle.og_value.specs.Values.{row_at};
ghost use Rattle.og_value.specs.declared.value.FixedValue as fixed;

use crate::digests::{are_steady, loose, whole};
use crate::headed::Headed;
use crate::listed::Listed;
use crate::measured::Measured;
use crate::value::{FixedValue, Value};
use og_base::{Glue, Grouped, Groups, Instant, NoMemory, OngoingRow, RefDay, RtSet};
use std::alloc::Global;
use std::marker::Model;

/// A row, seen as the list of its values.
#[derive(Debug, PartialEq, Eq, Drop)]
pub struct Row {
    values: Headed,
}

impl Model for Row {
    ghost use Rattle.std.specs.Prelude.{List};
    ghost use Rattle.og_value.specs.declared.value.Value.{Value as OneValue};

    ghost Value = { List OneValue };

    ghost view = { λ r. r.values };

    ghost inverse = { λ vs. record { values = vs } };
}

/// A row on one day, seen as the list of its values. Rows are ordered from the left, and a row comes
/// after each front of it.
#[derive(Debug, PartialEq, Eq, PartialOrd, Ord, Drop)]
pub struct FixedRow {
    values: Measured<FixedValue>,
}

impl Model for FixedRow {
    ghost use Rattle.std.specs.Prelude.{List};
    ghost use Rattle.og_value.specs.declared.value.FixedValue.{FixedValue};

    ghost Value = { List FixedValue };

    ghost view = { λ r. r.values };

    ghost inverse = { λ vs. record { values = vs } };
}

impl Row {
    /// The row of the values. At most two move into the row itself, and their list gives its memory back.
    pub fn of(values: Vec<Value>) -> Row
        ensures { result ≡ values.items }
    {
        Row {
            values: Headed::of(Listed::of(values)),
        }
    }

    /// The row of no values. Takes no memory.
    pub fn empty(alloc: Global) -> Row
        ensures { result ≡ [] }
    {
        Row {
            values: Headed::empty(alloc),
        }
    }

    /// A row of no values, with room for so many.
    pub fn with_room(alloc: Global, count: usize) -> Result<Row, NoMemory>
        ensures { IfOk result (λ row. row ≡ []) }
    {
        let values = Headed::with_room(alloc, count)?;
        Ok(Row { values })
    }

    /// Adds the value behind the others. The row stays as it is where memory runs out.
    pub fn push(&mut self, value: Value) -> Result<(), NoMemory>
        ensures pushed { OnOk result (self.new ≡ self.old ++ value ∷ []) }
        ensures refused { OnErr result (self.new ≡ self.old) }
    {
        self.values.push(value)
    }

    /// The number of values.
    pub fn len(&self) -> usize
        ensures { result ≡ length self.now }
    {
        self.values.len()
    }

    /// The value with that number, counted from 0.
    pub fn value(&self, i: usize) -> &Value
        requires { i < length self.now }
        ensures { slice_get self.now i ≡ Some result.now }
    {
        self.values.value(i)
    }

    /// The value with that number, counted from 0; None where there are fewer.
    pub fn get(&self, i: usize) -> Option<&Value>
        ensures { option_map (λ v. v.now) result ≡ slice_get self.now i }
    {
        self.values.as_slice().get(i)
    }

    /// The number that stands at the place, counted from 0; None where there is another value or none. The one
    /// at place 0 is told without a look at the values.
    pub fn number(&self, i: usize) -> Option<i64>
        ensures { result ≡ number_at self.now i }
    {
        self.values.number(i)
    }

    /// The values.
    pub(crate) fn as_slice(&self) -> &[Value]
        ensures { result.now ≡ self.now }
    {
        self.values.as_slice()
    }
}

impl FixedRow {
    /// The row of the values. At most two move into the row itself, and their list gives its memory back.
    pub fn of(values: Vec<FixedValue>) -> FixedRow
        ensures { result ≡ values.items }
    {
        FixedRow {
            values: Measured::of(Listed::of(values)),
        }
    }

    /// The number of values.
    pub fn len(&self) -> usize
        ensures { result ≡ length self.now }
    {
        self.values.len()
    }

    /// The value with that number, counted from 0.
    pub fn value(&self, i: usize) -> &FixedValue
        requires { i < length self.now }
        ensures { slice_get self.now i ≡ Some result.now }
    {
        self.values.part(i)
    }
}

impl Instant for Row {
    ghost use Rattle.og_value.specs.Exact.{rows_exact};

    type Fixed = FixedRow;

    ghost meaning = { λ row d. row_at row d };

    fn at(&self, alloc: Global, d: RefDay) -> Result<FixedRow, NoMemory> {
        let mut values = Listed::with_room(alloc, self.len())?;
        'values: for value in self.values.as_slice() {
            values.push(value.at(d)?)?;
        }
        Ok(FixedRow {
            values: Measured::of(values),
        })
    }

    ghost exact = { rows_exact };
}

impl OngoingRow for Row {
    fn same(&self, alloc: Global, other: &Row) -> Result<RtSet, NoMemory> {
        if self.len() != other.len() {
            return Ok(RtSet::empty(alloc));
        }
        let mut days = RtSet::all(alloc)?;
        'columns: for i in 0..self.len() {
            days = self.value(i).same_within(alloc, other.value(i), days)?;
        }
        Ok(days)
    }

    fn copy(&self, alloc: Global) -> Result<Row, NoMemory> {
        joined(alloc, self.values.as_slice(), &[])
    }
}

/// A row that is the same on all days finds its like by all of its values. All others find each other
/// by numbers and texts.
impl Grouped for Row {
    ghost use Rattle.og_value.specs.GroupLaws.{rows_grouped};
    ghost use Rattle.og_value.specs.Groups.{row_standing, row_seeking};

    ghost standing = { λ row. row_standing row };

    ghost seeking = { λ row. row_seeking row };

    fn stands_in(&self) -> Groups {
        let values = self.values.as_slice();
        if are_steady(values) {
            let first = loose(1, values);
            let second = whole(2, values);
            return Groups { first, second };
        }
        let group = loose(0, values);
        Groups {
            first: group,
            second: group,
        }
    }

    fn seeks_in(&self) -> Groups {
        let values = self.values.as_slice();
        let first = loose(0, values);
        let second = if are_steady(values) {
            whole(2, values)
        } else {
            loose(1, values)
        };
        Groups { first, second }
    }

    ghost grouped = { rows_grouped };
}

impl Glue for Row {
    ghost glued = { λ left right. left ++ right };

    fn glue(&self, alloc: Global, right: &Row) -> Result<Row, NoMemory> {
        joined(alloc, self.values.as_slice(), right.values.as_slice())
    }
}

// The row of copies of both lists of values, one after the other, with room for them taken at once.
fn joined(alloc: Global, first: &[Value], second: &[Value]) -> Result<Row, NoMemory>
    ensures { IfOk result (λ r. r ≡ first.now ++ second.now) }
{
    let mut values = Listed::with_room(alloc, first.len().saturating_add(second.len()))?;
    append_copies(first, &mut values)?;
    append_copies(second, &mut values)?;
    Ok(Row {
        values: Headed::of(values),
    })
}

// Appends a copy of each of the values.
fn append_copies(values: &[Value], out: &mut Listed<Value>) -> Result<(), NoMemory>
    ensures { OnOk result (out.new ≡ out.old ++ values.now) }
{
    'values: for value in values {
        out.push(value.copy()?)?;
    }
    Ok(())
}

/// Rows of one day are ordered from the left by their values, and only rows that are the same tie.
pub fn order_of_rows()
    ensures order { (x y : List fixed.FixedValue) → ⟦<FixedRow as Ord>⟧.cmp x y ≡ row_order x y }
    ensures exact { IsExactOrder ⟦<FixedRow as Ord>⟧.cmp }
{}
