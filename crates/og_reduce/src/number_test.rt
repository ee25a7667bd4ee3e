//! Tests of rows that may tell by the number in one column.
ghost use Rattle.std.specs.Prelude.{◌≡◌, List, Some, IsFalse, false};
ghost use Rattle.og_value.specs.Heads.{number_at};
ghost use Rattle.og_value.specs.declared.value.Value.{Value};

use og_rel::RowTest;
use og_value::Row;

/// A test of rows that may tell by the number in one column.
pub trait NumberTest: RowTest<Row> {
    /// The column by whose number most rows are told, if there is one. Nothing else rests on which it is. Takes no
    /// memory.
    fn column(&self) -> Option<usize>;

    /// Whether a row may pass that has the number in the column. Takes no memory.
    fn may_have(&self, column: usize, number: &i64) -> bool
        ensures { IsFalse result → (row : List Value) → number_at row column ≡ Some number.now → Self.passes self.now row ≡ false };
}

/// The test that each row passes.
#[derive(Clone, Copy, Debug)]
pub struct EachRow;

impl RowTest<Row> for EachRow {
    ghost use Rattle.std.specs.Prelude.{true};

    ghost passes = { λ test row. true };

    fn test(&self, row: &Row) -> bool {
        let _ = row;
        true
    }
}

impl NumberTest for EachRow {
    fn column(&self) -> Option<usize> {
        None
    }

    fn may_have(&self, column: usize, number: &i64) -> bool {
        let _ = column;
        let _ = number;
        true
    }
}
