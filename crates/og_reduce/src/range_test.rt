//! Tests of one number of a row: of a sieve what tells most rows at the least cost.
ghost use Rattle.std.specs.Prelude.{◌≡◌, List, Some, IsFalse, false};
ghost use Rattle.og_value.specs.Heads.{number_at};
ghost use Rattle.og_value.specs.declared.value.Value.{Value};
ghost use Rattle.og_reduce.specs.RangeTests.{may_pass};

use og_value::Row;

// Two numbers, between which a number lies that stands in a column.
#[derive(Drop)]
pub(crate) struct RangeTest {
    pub(crate) column: usize,
    pub(crate) least: i64,
    pub(crate) greatest: i64,
}

impl RangeTest {
    // Whether the row may pass: what stands in the column lies between the two, or is no number.
    pub(crate) fn may_pass(&self, row: &Row) -> bool
        ensures { result ≡ may_pass self.now row.now }
    {
        match row.number(self.column) {
            Some(n) => self.least <= n && n <= self.greatest,
            None => true,
        }
    }

    // Whether a row may pass that has the number in the column.
    pub(crate) fn may_have(&self, column: usize, number: &i64) -> bool
        ensures { IsFalse result → (row : List Value) → number_at row column ≡ Some number.now → may_pass self.now row ≡ false }
    {
        self.column != column || (self.least <= *number && *number <= self.greatest)
    }
}
