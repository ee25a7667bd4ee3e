//! Sieves: what stands in the columns of some rows, so that other rows are told from them.
ghost use Rattle.std.specs.Prelude.{◌≡◌, ◌++◌, ◌∷◌, ℕ, ℤ, List, Some, true, false, [], IsTrue, IfOk, IfSome, OnOk, filter, length};
ghost use Rattle.std.specs.List.{All};
ghost use Rattle.og_value.specs.Values.{value_at};
ghost use Rattle.og_value.specs.declared.value.FixedValue.{FixedValue};
ghost use Rattle.og_query.specs.Queries.{Fixed};
ghost use Rattle.og_reduce.specs.RangeTests.{Tells};
ghost use Rattle.og_reduce.specs.Sieves.{is_among, meets, passes, row_meets, row_passes, tests_from};

use crate::number_test::NumberTest;
use crate::numbers::Numbers;
use crate::range_test::RangeTest;
use og_base::NoMemory;
use og_rel::{Rel, RowTest};
use og_value::{Row, Text, Value};
use std::alloc::Global;
use std::collections::BTreeSet;
use std::marker::Model;

// Numbers and texts.
#[derive(Drop)]
pub struct Keys {
    numbers: Numbers,
    texts: BTreeSet<Text>,
}

impl Model for Keys {
    ghost use Rattle.std.specs.Prelude.{ℕ, ℤ, List};

    ghost Value = { List ℤ × List (List ℕ) };

    ghost view = { λ k. (k.numbers, k.texts.keys) };
}

impl Keys {
    // The numbers and the texts that rows have in a column; a row that is shorter counts as having 0 there.
    fn of(alloc: Global, rows: &Rel<Row>, column: usize) -> Result<Keys, NoMemory>
        ensures { IfOk result (λ keys. All (λ p. row_meets p.0 (column, keys) ≡ true) rows.now) }
    {
        let mut keys = Keys {
            numbers: Numbers::new(alloc),
            texts: BTreeSet::new(alloc),
        };
        'rows: for i in 0..rows.len() {
            keys.add_at(rows.row(i), column)?;
        }
        Ok(keys)
    }

    // Adds what the row has in the column.
    fn add_at(&mut self, row: &Row, column: usize) -> Result<(), NoMemory>
        ensures added { OnOk result (row_meets row.now (column, self.new) ≡ true) }
        ensures kept { OnOk result ((x : FixedValue) → is_among self.old x ≡ true → is_among self.new x ≡ true) }
    {
        match row.get(column) {
            Some(value) => self.add(value),
            None => self.add(&Value::Int(0)),
        }
    }

    // Adds the value, where it is a number or a text.
    fn add(&mut self, value: &Value) -> Result<(), NoMemory>
        ensures added { OnOk result ((d : ℤ) → is_among self.new (value_at value.now d) ≡ true) }
        ensures kept { OnOk result ((x : FixedValue) → is_among self.old x ≡ true → is_among self.new x ≡ true) }
    {
        match value {
            Value::Int(n) => self.numbers.insert(*n)?,
            Value::Text(text) => {
                self.texts.insert(text.copy()?)?;
            }
            Value::Point(_) | Value::Period(_) => {}
        }
        Ok(())
    }

    // Whether there are none.
    pub fn is_empty(&self) -> bool
        ensures { IsTrue result → self.now ≡ ([], []) }
    {
        self.numbers.is_empty() && self.texts.is_empty()
    }

    // Whether what the row has in the column is among these.
    fn has_at(&self, row: &Row, column: usize) -> bool
        ensures { result ≡ row_meets row.now (column, self.now) }
    {
        match row.get(column) {
            Some(value) => self.has(value),
            None => self.has(&Value::Int(0)),
        }
    }

    // Whether the value is among these.
    fn has(&self, value: &Value) -> bool
        ensures { (d : ℤ) → result ≡ is_among self.now (value_at value.now d) }
    {
        match value {
            Value::Int(n) => self.numbers.contains(n),
            Value::Text(text) => self.texts.contains(text),
            Value::Point(_) | Value::Period(_) => true,
        }
    }
}

// What rows have in each of that many columns.
pub fn keys_of(alloc: Global, rows: &Rel<Row>, width: usize) -> Result<Vec<Keys>, NoMemory>
    ensures each { IfOk result (λ keys. All (λ p. row_passes (tests_from 0 keys.items) p.0 ≡ true) rows.now) }
    ensures width { IfOk result (λ keys. length keys.items ≡ width) }
{
    let mut keys = Vec::with_capacity(alloc, width)?;
    'columns: for column in 0..width {
        keys.push(Keys::of(alloc, rows, column)?)?;
    }
    Ok(keys)
}

// A test of rows: a column, and what may stand in it.
#[derive(Drop)]
pub struct Test<'k> {
    pub column: usize,
    pub keys: &'k Keys,
}

impl<'k> Model for Test<'k> {
    ghost use Rattle.std.specs.Prelude.{ℕ, ℤ, List};

    ghost Value = { ℕ × (List ℤ × List (List ℕ)) };

    ghost view = { λ t. (t.column, t.keys.now) };
}

impl Test<'_> {
    // The range of the numbers that may stand in the column.
    fn range(&self) -> RangeTest
        ensures { Tells result (self.now ∷ []) }
    {
        let keys = self.keys;
        keys.numbers.range_in(self.column)
    }
}

// The range of the numbers that may stand in the column of the first of the tests.
fn first_range(tests: &[Test<'_>]) -> Option<RangeTest>
    ensures { IfSome result (λ range. Tells range tests.now) }
{
    match tests.first() {
        Some(test) => Some(test.range()),
        None => None,
    }
}

// Tests of rows, which a row passes where it meets each. Most rows are told by the range of the first.
#[derive(Drop)]
pub struct Sieve<'k> {
    pub tests: Vec<Test<'k>>,
    first: Option<RangeTest>,
}

impl<'k> Model for Sieve<'k> {
    ghost use Rattle.std.specs.Prelude.{ℕ, ℤ, List, IfSome};
    ghost use Rattle.og_reduce.specs.RangeTests.{Tells};

    ghost Value = { List (ℕ × (List ℤ × List (List ℕ))) };

    ghost view = { λ s. s.tests.items };

    ghost invariant = { λ s. IfSome s.first (λ range. Tells range s.tests.items) };
}

impl<'k> Sieve<'k> {
    // The sieve of the tests.
    pub fn new(tests: Vec<Test<'k>>) -> Sieve<'k>
        ensures { result ≡ tests.entry.items }
    {
        let first = first_range(tests.as_slice());
        Sieve { tests, first }
    }

    // A sieve of the columns from that one on, each with what may stand in it: what passes their tests passes it.
    pub fn of(alloc: Global, start: usize, columns: &'k [Keys]) -> Result<Sieve<'k>, NoMemory>
        ensures { IfOk result (λ sieve. (row : Fixed) → passes (tests_from start columns.now) row ≡ true → passes sieve row ≡ true) }
    {
        let mut tests = Vec::new(alloc);
        'columns: for i in 0..columns.len() {
            add_test(&mut tests, start.checked_add(i), &columns[i])?;
        }
        Ok(Sieve::new(tests))
    }

    // Whether the row passes each test. Few rows come so far, so the others need not make room for this call.
    #[inline(never)]
    fn passes_each(&self, row: &Row) -> bool
        ensures { result ≡ row_passes self.now row.now }
    {
        'tests: for test in &self.tests {
            if !test.keys.has_at(row, test.column) {
                return false;
            }
        }
        true
    }
}

// Adds a test of the column, if there is one, but for a test that lets all days and periods pass.
pub fn add_test<'k>(
    tests: &mut Vec<Test<'k>>,
    column: Option<usize>,
    keys: &'k Keys,
) -> Result<(), NoMemory>
    ensures { OnOk result ((row : Fixed) → passes tests.old.items row ≡ true →
        ((place : ℕ) → column ≡ Some place → meets row (place, keys.now) ≡ true) → passes tests.new.items row ≡ true) }
{
    if keys.is_empty() {
        return Ok(());
    }
    if let Some(column) = column {
        tests.push(Test { column, keys })?;
    }
    Ok(())
}

impl RowTest<Row> for Sieve<'_> {
    ghost use Rattle.og_reduce.specs.Sieves.{row_passes};

    ghost passes = { row_passes };

    fn test(&self, row: &Row) -> bool {
        if let Some(first) = &self.first {
            if !first.may_pass(row) {
                return false;
            }
        }
        self.passes_each(row)
    }
}

impl NumberTest for Sieve<'_> {
    fn column(&self) -> Option<usize> {
        match &self.first {
            Some(range) => Some(range.column),
            None => None,
        }
    }

    fn may_have(&self, column: usize, number: &i64) -> bool {
        match &self.first {
            Some(range) => range.may_have(column, number),
            None => true,
        }
    }
}
