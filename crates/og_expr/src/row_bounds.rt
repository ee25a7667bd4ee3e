//! Conditions as tests of single rows.
ghost use Rattle.std.specs.Prelude.{◌≡◌, ℤ, Some, IsFalse, false, List};
ghost use Rattle.og_value.specs.Heads.{number_at};
ghost use Rattle.og_base.specs.Calendar.{IsRefDay};
ghost use Rattle.og_value.specs.Values.{row_at};
ghost use Rattle.og_value.specs.declared.value.Value as values;
ghost use Rattle.og_query.specs.Conditions.{truth};
ghost use Rattle.og_query.specs.declared.condition.Cond as conds;
ghost use Rattle.og_expr.specs.Bounds as meant;

use crate::bounds::may_hold;
use crate::column_test::{ColumnTest, told_by};
use crate::columns::Columns;
use og_query::Cond;
use og_value::Row;
use std::alloc::Global;
use std::marker::Model;

/// A condition as a test of single rows: whether it may hold of a row on some day. Seen as the condition.
#[derive(Drop)]
pub struct RowBounds<'c> {
    cond: &'c Cond,
    // What tells of most rows that it may not hold, where the condition has such a part.
    first: Option<ColumnTest>,
    // The row without values, which stands beside each row.
    none: Row,
}

impl<'c> Model for RowBounds<'c> {
    ghost use Rattle.std.specs.Coded.{codes};
    ghost use Rattle.std.specs.Prelude.{◌≡◌, [], IfSome};
    ghost use Rattle.og_query.specs.contracts.condition.Cond as c;
    ghost use Rattle.og_query.specs.declared.condition.Cond.{Cond as OneCond};
    ghost use Rattle.og_expr.specs.ColumnTests.{Tells};

    ghost Value = { OneCond };

    ghost coded = { Prim.hlevel (codes, c.the_row.coded) };

    ghost view = { λ b. b.cond.now };

    ghost invariant = { λ b. (b.none ≡ []) × IfSome b.first (λ test. Tells test b.cond.now) };
}

impl<'c> RowBounds<'c> {
    /// The condition as a test. Takes no memory.
    pub fn new(alloc: Global, cond: &'c Cond) -> RowBounds<'c>
        ensures { result ≡ cond.now }
    {
        RowBounds {
            cond,
            first: told_by(cond),
            none: Row::empty(alloc),
        }
    }

    /// Whether the condition may hold of the row; where not, it holds of it on no day. Takes no memory.
    pub fn may_hold(&self, row: &Row) -> bool
        ensures exact { result ≡ meant.may_hold row.now self.now }
    {
        if let Some(test) = &self.first {
            if !test.may_pass(row) {
                return false;
            }
        }
        self.all_may_hold(row)
    }

    /// The column by whose number most rows are told, where the condition compares one with a number. Nothing else
    /// rests on which it is. Takes no memory.
    pub fn column(&self) -> Option<usize> {
        match &self.first {
            Some(test) => Some(test.column),
            None => None,
        }
    }

    /// Whether the condition may hold of a row that has the number in the column. Takes no memory.
    pub fn may_have(&self, column: usize, number: &i64) -> bool
        ensures { IsFalse result → (row : List values.Value) → number_at row column ≡ Some number.now → meant.may_hold row self.now ≡ false }
    {
        match &self.first {
            Some(test) => test.may_have(column, number),
            None => true,
        }
    }

    // The same, by all parts of the condition. Few rows come so far, so the others need not make room for this call.
    #[inline(never)]
    fn all_may_hold(&self, row: &Row) -> bool
        ensures { result ≡ meant.may_hold row.now self.now }
    {
        let columns = Columns {
            left: row,
            right: &self.none,
        };
        may_hold(self.cond, &columns)
    }
}

/// A condition that may not hold of a row holds of it on no day.
pub fn bounds_hold()
    ensures { (row : List values.Value) (cond : conds.Cond) → meant.may_hold row cond ≡ false → (d : ℤ) → IsRefDay d → truth d (row_at row d) cond ≡ false }
{}
