//! Tests of one column of a row: of a condition what tells most rows at the least cost.
ghost use Rattle.std.specs.Prelude.{◌≡◌, ℤ, List, Some, IsFalse, false, true, IfSome};
ghost use Rattle.std.specs.List.{list_all};
ghost use Rattle.og_value.specs.Heads.{number_at};
ghost use Rattle.og_value.specs.declared.value.Value.{Value as AnyValue};
ghost use Rattle.og_expr.specs.Bounds.{may_hold};
ghost use Rattle.og_expr.specs.ColumnTests.{Tells, TellsAll, compares_so, is_above, is_below, is_between, may_pass};

use og_query::{Cond, Expr};
use og_value::{Cmp, Row, Value};
use sqlite_items::Items;

// Bounds of the number that stands in a column.
#[derive(Clone, Copy, Debug)]
pub(crate) struct ColumnTest {
    pub(crate) column: usize,
    pub(crate) least: Option<i64>,
    pub(crate) greatest: Option<i64>,
}

impl ColumnTest {
    // Whether the number lies between the bounds.
    fn has(&self, number: i64) -> bool
        ensures { result ≡ is_between self.now.least self.now.greatest number }
    {
        let above = match self.least {
            Some(least) => least <= number,
            None => true,
        };
        let below = match self.greatest {
            Some(greatest) => number <= greatest,
            None => true,
        };
        above && below
    }

    // Whether the row may pass: a number between the bounds stands in the column, or there is no such column.
    pub(crate) fn may_pass(&self, row: &Row) -> bool
        ensures { result ≡ may_pass self.now row.now }
    {
        match row.number(self.column) {
            Some(number) => self.has(number),
            None => row.get(self.column).is_none(),
        }
    }

    // Whether a row may pass that has the number in the column.
    pub(crate) fn may_have(&self, column: usize, number: &i64) -> bool
        ensures { IsFalse result → (row : List AnyValue) → number_at row column ≡ Some number.now → may_pass self.now row ≡ false }
    {
        self.column != column || self.has(*number)
    }

    // This test and another one at once, where they are of one column, and else this one.
    fn and(self, other: ColumnTest) -> ColumnTest
        ensures { (row : List AnyValue) → may_pass self row ≡ true → may_pass other row ≡ true → may_pass result row ≡ true }
    {
        if self.column != other.column {
            return self;
        }
        ColumnTest {
            column: self.column,
            least: greater(self.least, other.least),
            greatest: less(self.greatest, other.greatest),
        }
    }
}

// The greater of two lower bounds.
fn greater(one: Option<i64>, other: Option<i64>) -> Option<i64>
    ensures { (n : ℤ) → is_above one n ≡ true → is_above other n ≡ true → is_above result n ≡ true }
{
    match (one, other) {
        (Some(m), Some(n)) => Some(if m <= n { n } else { m }),
        (Some(m), None) => Some(m),
        (None, bound) => bound,
    }
}

// The less of two upper bounds.
fn less(one: Option<i64>, other: Option<i64>) -> Option<i64>
    ensures { (n : ℤ) → is_below one n ≡ true → is_below other n ≡ true → is_below result n ≡ true }
{
    match (one, other) {
        (Some(m), Some(n)) => Some(if m <= n { m } else { n }),
        (Some(m), None) => Some(m),
        (None, bound) => bound,
    }
}

// Bounds of the numbers in a column that compare so with a number.
fn compared(column: usize, op: Cmp, number: i64) -> ColumnTest
    ensures { (row : List AnyValue) → compares_so column op number row ≡ true → may_pass result row ≡ true }
{
    let (least, greatest) = match op {
        Cmp::Eq => (Some(number), Some(number)),
        Cmp::Ne => (None, None),
        Cmp::Lt | Cmp::Le => (None, Some(number)),
        Cmp::Gt | Cmp::Ge => (Some(number), None),
    };
    ColumnTest {
        column,
        least,
        greatest,
    }
}

// The test of a column that the condition is, where it compares one with a number.
fn test_of(cond: &Cond) -> Option<ColumnTest>
    ensures { IfSome result (λ test. Tells test cond.now) }
{
    let Cond::Compare { op, left, right } = cond else {
        return None;
    };
    match (left, right) {
        (Expr::Column(column), Expr::Lit(Value::Int(number))) => Some(compared(
            *column, *op, *number,
        )),
        _ => None,
    }
}

// The first such test among the conditions.
fn first_of(parts: &Items<Cond>) -> Option<ColumnTest>
    ensures { IfSome result (λ test. TellsAll test parts.now) }
{
    'parts: for part in parts.as_slice() {
        if let Some(test) = test_of(part) {
            return Some(test);
        }
    }
    None
}

// The test that all such tests of the column are that the first of them is of.
fn test_of_all(parts: &Items<Cond>) -> Option<ColumnTest>
    ensures { IfSome result (λ test. TellsAll test parts.now) }
{
    let mut test = first_of(parts)?;
    'parts: for part in parts.as_slice() {
        if let Some(other) = test_of(part) {
            test = test.and(other);
        }
    }
    Some(test)
}

// Whether the first such test among the conditions, where there is one, may hold of the row.
pub(crate) fn first_may_hold(parts: &Items<Cond>, row: &Row) -> bool
    ensures { result ≡ false → list_all (may_hold row.now) parts.now ≡ false }
{
    match first_of(parts) {
        Some(test) => test.may_pass(row),
        None => true,
    }
}

// Such a test that the condition is, or that parts of it are where it is an AND.
pub(crate) fn told_by(cond: &Cond) -> Option<ColumnTest>
    ensures { IfSome result (λ test. Tells test cond.now) }
{
    match cond {
        Cond::And(parts) => test_of_all(parts),
        _ => test_of(cond),
    }
}
