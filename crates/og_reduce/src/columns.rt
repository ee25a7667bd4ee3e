//! The numbers that the rows of a relation have in a column, kept beside the relation.
ghost use Rattle.std.specs.Prelude.{◌≡◌, ◌++◌, ◌<◌, ◌≤◌, ℕ, List, Some, IfSome, false, length, map, pos, slice_index_or};
ghost use Rattle.std.specs.List.{All};
ghost use Rattle.og_value.specs.Heads.{number_at};
ghost use Rattle.og_value.specs.declared.value.Value.{Value};
ghost use Rattle.og_reduce.specs.Columns as spec;
ghost use Rattle.og_reduce.specs.Columns.{AreNumbers, IsBeside, MayEdit};
ghost use Rattle.og_reduce.specs.Sieves.{Relation};

use crate::number_test::NumberTest;
use og_rel::{Pair, remove_at};
use og_value::Row;

// The numbers that rows have in a column, one after the other; None where one of them has none there, or where
// there was no memory for them.
#[derive(Drop)]
pub(crate) struct Column {
    pub(crate) place: usize,
    pub(crate) numbers: Option<Vec<i64>>,
}

// What is made of the rows of a relation, and of the columns beside it.
#[derive(Clone, Copy)]
pub(crate) enum Edit<'e> {
    Append(&'e [Pair<Row>]),
    Truncate(usize),
    Swap(usize, usize),
    RemoveAt(&'e [usize]),
}

// The numbers, and behind them those that the rows have in the column; None where one has none there, or where
// there is no memory for them.
pub(crate) fn and_numbers(numbers: Vec<i64>, place: usize, pairs: &[Pair<Row>]) -> Option<Vec<i64>>
    ensures { IfSome result (λ all. map Some all.items ≡ map Some numbers.items ++ map (λ p. number_at p.row place) pairs.now) }
{
    let mut all = numbers;
    'pairs: for pair in pairs {
        let number = pair.row.number(place)?;
        let Ok(()) = all.push(number) else {
            return None;
        };
    }
    Some(all)
}

// What an edit makes of the numbers in a column.
fn edited(numbers: Vec<i64>, place: usize, edit: &Edit<'_>) -> Option<Vec<i64>>
    requires { MayEdit edit.now (length numbers.items) }
    ensures { IfSome result (λ after. (rel : Relation) → AreNumbers place numbers.items rel → AreNumbers place after.items (spec.edited edit.now rel)) }
{
    let mut numbers = numbers;
    match edit {
        Edit::Append(pairs) => return and_numbers(numbers, place, *pairs),
        Edit::Truncate(len) => numbers.truncate(*len),
        Edit::Swap(i, j) => numbers.swap(*i, *j),
        Edit::RemoveAt(at) => remove_at(&mut numbers, *at),
    }
    Some(numbers)
}

impl Column {
    // Makes the edit of the numbers. Where there is no memory for it, they go.
    fn edit(&mut self, edit: &Edit<'_>)
        requires { IfSome self.old.numbers (λ numbers. MayEdit edit.now (length numbers.items)) }
        ensures { (rel : Relation) → IsBeside rel self.old → IsBeside (spec.edited edit.now rel) self.new }
    {
        if let Some(numbers) = self.numbers.take() {
            self.numbers = edited(numbers, self.place, edit);
        }
    }
}

// Makes the edit of each of the columns beside a relation.
pub(crate) fn edit_all(columns: &mut Vec<Column>, edit: &Edit<'_>)
    requires { (rel : Relation) × All (IsBeside rel) columns.old.items × MayEdit edit.now (length rel) }
    ensures { (rel : Relation) → All (IsBeside rel) columns.old.items → All (IsBeside (spec.edited edit.now rel)) columns.new.items }
{
    'columns: for i in 0..columns.len() {
        columns[i].edit(edit);
    }
}

// The first place from one on at which a number stands that a row may have there which passes the test, or the end.
pub(crate) fn next_of<T: NumberTest>(numbers: &[i64], from: usize, place: usize, test: &T) -> usize
    requires { from ≤ length numbers.now }
    ensures least { from ≤ result }
    ensures most { result ≤ length numbers.now }
    ensures others { (k : ℕ) → from ≤ k → k < result → (row : List Value) →
        number_at row place ≡ Some (slice_index_or numbers.now k (pos 0)) → T.RowTest.passes test.now row ≡ false }
{
    let mut i = from;
    'numbers: while i < numbers.len() && !test.may_have(place, &numbers[i]) {
        i += 1;
    }
    i
}
