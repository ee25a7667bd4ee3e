//! Relations as they are stored: beside the rows the numbers that these have in columns.
ghost use Rattle.std.specs.Prelude.{◌≡◌, ◌≢◌, ◌++◌, ◌+◌, ◌<◌, ◌≤◌, ◌-◌, ℕ, IfOk, IfSome, IsFalse, IsTrue, OnOk, OnErr, List, false, length, slice_index_or, swap, take};
ghost use Rattle.std.specs.List.Sorted.{IsPermutation};
ghost use Rattle.og_base.specs.Ranges.{Range};
ghost use Rattle.og_rel.specs.Places.{ArePlaces, others_at, places};
ghost use Rattle.og_rel.specs.Relations.{passing};
ghost use Rattle.og_value.specs.declared.value.Value.{Value};
ghost use Rattle.og_reduce.specs.Columns.{AreNumbers};

use crate::columns::{Column, Edit, and_numbers, edit_all, next_of};
use crate::number_test::NumberTest;
use og_base::{NoMemory, OngoingRow};
use og_rel::Rel;
use og_value::Row;
use std::alloc::Global;
use std::marker::Model;
use std::mem;

// Of that many rows one at most goes where few go.
const FEW: usize = 64;

/// A relation as it is stored, seen as its rows. Beside the rows lie the numbers that they have in some columns,
/// one after the other, where each row has a number there and there is memory for them. These tell most rows from
/// those that are looked for: a look at a number takes an eighth of the memory that a look at the row with its days
/// does.
#[derive(Drop)]
pub struct Stored {
    rel: Rel<Row>,
    columns: Vec<Column>,
}

/// Rows that a test finds: their places, and the rows once more.
#[derive(Drop)]
pub struct Found {
    /// The places, which rise.
    pub at: Vec<usize>,
    /// The rows with their days.
    pub rows: Rel<Row>,
}

impl Model for Stored {
    ghost use Rattle.std.specs.List.{All};
    ghost use Rattle.og_reduce.specs.Columns.{IsBeside};
    ghost use Rattle.og_reduce.specs.Sieves.{Relation};

    ghost Value = { Relation };

    ghost view = { λ a. a.rel };

    ghost invariant = { λ a. All (IsBeside a.rel) a.columns.items };
}

// The numbers in one of the columns beside a relation.
#[derive(Clone, Copy)]
struct Beside<'s> {
    place: usize,
    numbers: &'s [i64],
}

// From one of places that rise on, the first that lies before no given one, or the end.
fn place_from(at: &[usize], k: usize, i: usize) -> usize
    requires from { k ≤ length at.now }
    requires before { (j : ℕ) → j < k → slice_index_or at.now j 0 < i }
    ensures most { result ≤ length at.now }
    ensures before { (j : ℕ) → j < result → slice_index_or at.now j 0 < i }
    ensures behind { result < length at.now → i ≤ slice_index_or at.now result 0 }
{
    let mut k = k;
    'places: while k < at.len() && at[k] < i {
        k += 1;
    }
    k
}

// Whether the k-th of places that rise is a place, where those before it lie before that and itself does not.
fn is_place(at: &[usize], k: usize, i: usize) -> bool
    requires before { (j : ℕ) → j < k → slice_index_or at.now j 0 < i }
    requires behind { k < length at.now → i ≤ slice_index_or at.now k 0 }
    ensures yes { IsTrue result → (k < length at.now) × (slice_index_or at.now k 0 ≡ i) }
    ensures no { (end : ℕ) → ArePlaces at.now end → IsFalse result → (j : ℕ) → j < length at.now → slice_index_or at.now j 0 ≢ i }
{
    k < at.len() && at[k] == i
}

impl Stored {
    /// The rows as they are stored, with the numbers that they begin with. Takes memory where there is some.
    pub fn new(alloc: Global, rel: Rel<Row>) -> Stored
        ensures { result ≡ rel }
    {
        let mut stored = Stored::bare(alloc, rel);
        stored.keep(alloc, 0);
        stored
    }

    /// The rows with no numbers beside them. Takes no memory.
    pub fn bare(alloc: Global, rel: Rel<Row>) -> Stored
        ensures { result ≡ rel }
    {
        Stored {
            rel,
            columns: Vec::new(alloc),
        }
    }

    /// Keeps beside the rows the numbers of each of that many columns in which each row has one. Takes memory where
    /// there is some.
    pub fn keep_columns(&mut self, alloc: Global, width: usize)
        ensures { self.new ≡ self.old }
    {
        'columns: for place in 0..width {
            if !self.has_column(place) {
                self.keep(alloc, place);
            }
        }
    }

    // Whether the column is kept beside the rows, or was tried.
    fn has_column(&self, place: usize) -> bool {
        self.columns.iter().any(|column| column.place == place)
    }

    // Keeps the numbers of the column beside the rows.
    fn keep(&mut self, alloc: Global, place: usize)
        ensures { self.new ≡ self.old }
    {
        let numbers = and_numbers(Vec::new(alloc), place, self.rel.pairs());
        let Ok(()) = self.columns.push(Column { place, numbers }) else {
            return;
        };
    }

    /// The rows. Takes no memory.
    pub fn rel(&self) -> &Rel<Row>
        ensures { result.now ≡ self.now }
    {
        &self.rel
    }

    /// The rows alone. Takes no memory.
    pub fn into_rel(self) -> Rel<Row>
        ensures { result ≡ self }
    {
        self.rel
    }

    /// Appends rows. Refused only for want of memory, and then the rows are as they were.
    pub fn append(&mut self, more: Rel<Row>) -> Result<(), NoMemory>
        ensures appended { OnOk result (self.new ≡ self.old ++ more) }
        ensures refused { OnErr result (self.new ≡ self.old) }
    {
        let alloc = *self.columns.allocator();
        let mut columns = mem::replace(&mut self.columns, Vec::new(alloc));
        edit_all(&mut columns, &Edit::Append(more.pairs()));
        self.rel.append(more)?;
        self.columns = columns;
        Ok(())
    }

    /// Keeps that many of the first rows, and all where there are fewer. Takes no memory.
    pub fn truncate(&mut self, len: usize)
        ensures { self.new ≡ take len self.old }
    {
        edit_all(&mut self.columns, &Edit::Truncate(len));
        self.rel.truncate(len);
    }

    /// Takes the rows at places out, none of which is of the last `came` rows. These come to the first of the places,
    /// in order, as far as there are places; the other rows keep their order. But where few of many rows go and fewer
    /// come, the last rows come to the places, so that no other is moved. Takes no memory.
    pub fn take_out(&mut self, at: &[usize], came: usize)
        requires came { came ≤ length self.old }
        requires at { ArePlaces at.now (length self.old - came) }
        ensures { IsPermutation self.new (others_at at.now self.old) }
    {
        let places = at.len().min(self.comers(at, came));
        let from = self.rel.len() - places;
        'places: for k in 0..places {
            self.swap(at[k], from + k);
        }
        self.truncate(from);
        self.remove_at(&at[places..]);
    }

    // How many of the last rows come to the places of those that go.
    fn comers(&self, at: &[usize], came: usize) -> usize
        requires came { came ≤ length self.now }
        requires at { ArePlaces at.now (length self.now - came) }
        ensures most { result ≤ length self.now }
        ensures at { ArePlaces at.now (length self.now - result) }
    {
        let len = self.rel.len();
        let count = at.len();
        if came < count && count <= len / FEW && at[count - 1] < len - count {
            count
        } else {
            came
        }
    }

    // Exchanges the rows at two places.
    fn swap(&mut self, i: usize, j: usize)
        requires first { i < length self.old }
        requires second { j < length self.old }
        ensures { self.new ≡ swap self.old i j }
    {
        edit_all(&mut self.columns, &Edit::Swap(i, j));
        self.rel.swap(i, j);
    }

    // Takes the rows at places out; the others keep their order.
    fn remove_at(&mut self, at: &[usize])
        requires { ArePlaces at.now (length self.old) }
        ensures { self.new ≡ others_at at.now self.old }
    {
        if at.is_empty() {
            return;
        }
        edit_all(&mut self.columns, &Edit::RemoveAt(at));
        self.rel.remove_at(at);
    }

    /// The places of the rows that pass the test. Refused only for want of memory.
    pub fn places<T: NumberTest>(&self, alloc: Global, test: &T) -> Result<Vec<usize>, NoMemory>
        ensures { IfOk result (λ at. at.items ≡ places (λ p. T.RowTest.passes test.now p.0) self.now) }
    {
        let beside = self.beside(test);
        let mut at = Vec::new(alloc);
        let mut i = self.next(0, &beside, test);
        'rows: while i < self.rel.len() {
            if self.row_passes(i, test) {
                at.push(i)?;
            }
            i = self.next(i + 1, &beside, test);
        }
        Ok(at)
    }

    /// The rows that pass the test, once more, with their places. Refused only for want of memory.
    pub fn found<T: NumberTest>(&self, alloc: Global, test: &T) -> Result<Found, NoMemory>
        ensures places { IfOk result (λ found. found.at.items ≡ places (λ p. T.RowTest.passes test.now p.0) self.now) }
        ensures rows { IfOk result (λ found. found.rows ≡ passing (T.RowTest.passes test.now) self.now) }
    {
        self.rel.some_days();
        let beside = self.beside(test);
        let mut at = Vec::new(alloc);
        let mut rows = Rel::new(alloc);
        let mut i = self.next(0, &beside, test);
        'rows: while i < self.rel.len() {
            if self.row_passes(i, test) {
                at.push(i)?;
                rows.push(self.rel.row(i).copy(alloc)?, self.rel.days(i).copy()?)?;
            }
            i = self.next(i + 1, &beside, test);
        }
        Ok(Found { at, rows })
    }

    /// The rows at none of the places that pass the test, once more. Refused only for want of memory.
    pub fn others<T: NumberTest>(
        &self,
        alloc: Global,
        at: &[usize],
        test: &T,
    ) -> Result<Rel<Row>, NoMemory>
        requires { ArePlaces at.now (length self.now) }
        ensures { IfOk result (λ rows. rows ≡ passing (T.RowTest.passes test.now) (others_at at.now self.now)) }
    {
        self.rel.some_days();
        let beside = self.beside(test);
        let mut rows = Rel::new(alloc);
        let mut k = 0;
        let mut i = self.next(0, &beside, test);
        'rows: while i < self.rel.len() {
            k = place_from(at, k, i);
            if !is_place(at, k, i) && self.row_passes(i, test) {
                rows.push(self.rel.row(i).copy(alloc)?, self.rel.days(i).copy()?)?;
            }
            i = self.next(i + 1, &beside, test);
        }
        Ok(rows)
    }

    // The numbers in the column by which most rows are told, where they are kept beside the rows.
    fn beside<T: NumberTest>(&self, test: &T) -> Option<Beside<'_>>
        ensures { IfSome result (λ b. AreNumbers b.place b.numbers.now self.now) }
    {
        let place = test.column()?;
        let numbers = self.numbers_at(place)?;
        Some(Beside { place, numbers })
    }

    // The numbers in the column, where they are kept beside the rows.
    fn numbers_at(&self, place: usize) -> Option<&[i64]>
        ensures { IfSome result (λ numbers. AreNumbers place numbers.now self.now) }
    {
        'columns: for column in &self.columns {
            if column.place == place {
                return match &column.numbers {
                    Some(numbers) => Some(numbers.as_slice()),
                    None => None,
                };
            }
        }
        None
    }

    // The first place from one on of a row that its number does not tell from those that pass the test, or the end.
    fn next<T: NumberTest>(&self, from: usize, beside: &Option<Beside<'_>>, test: &T) -> usize
        requires from { from ≤ length self.now }
        requires beside { IfSome beside.now (λ b. AreNumbers b.place b.numbers.now self.now) }
        ensures least { from ≤ result }
        ensures most { result ≤ length self.now }
        ensures others { (k : ℕ) (p : List Value × List Range) → from ≤ k → k < result → T.RowTest.passes test.now (slice_index_or self.now k p).0 ≡ false }
    {
        match beside {
            Some(beside) => next_of(beside.numbers, from, beside.place, test),
            None => from,
        }
    }

    // Whether the row at that place passes the test. Few rows come so far, so the others need not make room for this
    // call.
    #[inline(never)]
    fn row_passes<T: NumberTest>(&self, i: usize, test: &T) -> bool
        requires { i < length self.now }
        ensures { (p : List Value × List Range) → result ≡ T.RowTest.passes test.now (slice_index_or self.now i p).0 }
    {
        test.test(self.rel.row(i))
    }
}
