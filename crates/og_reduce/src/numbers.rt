//! Sets of numbers that tell most others apart by two comparisons.
ghost use Rattle.std.specs.Prelude.{◌≡◌, ◌≤ℤ◌, [], IsTrue, IfOk, OnOk, ℤ, List, true, int_le, ◌&&◌};
ghost use Rattle.std.specs.Ordering.{int_cmp, eq_by_cmp};
ghost use Rattle.std.specs.List.{list_any};
ghost use Rattle.std.specs.BTreeSet.{insert_key};
ghost use Rattle.og_reduce.specs.Numbers.{AreBetween};

use crate::range_test::RangeTest;
use og_base::NoMemory;
use std::alloc::Global;
use std::collections::BTreeSet;
use std::marker::Model;

// Numbers, with two between which all of them lie.
#[derive(Drop)]
pub(crate) struct Numbers {
    least: i64,
    greatest: i64,
    all: BTreeSet<i64>,
}

impl Model for Numbers {
    ghost use Rattle.std.specs.Prelude.{ℤ, List};
    ghost use Rattle.og_reduce.specs.Numbers.{AreBetween};

    ghost Value = { List ℤ };

    ghost view = { λ n. n.all.keys };

    ghost invariant = { λ n. AreBetween n.least n.greatest n.all.keys };
}

impl Numbers {
    // No numbers.
    pub(crate) fn new(alloc: Global) -> Numbers
        ensures { result ≡ [] }
    {
        Numbers {
            least: i64::MAX,
            greatest: i64::MIN,
            all: BTreeSet::new(alloc),
        }
    }

    // Adds the number.
    pub(crate) fn insert(&mut self, n: i64) -> Result<(), NoMemory>
        ensures keys { OnOk result (self.new ≡ insert_key int_cmp self.old n) }
        ensures added { OnOk result (list_any (eq_by_cmp int_cmp n) self.new ≡ true) }
    {
        self.all.insert(n)?;
        self.least = lesser(&self.least, &n);
        self.greatest = greater(&self.greatest, &n);
        Ok(())
    }

    // Whether there are none.
    pub(crate) fn is_empty(&self) -> bool
        ensures { IsTrue result → self.now ≡ [] }
    {
        self.all.is_empty()
    }

    // The test of a column in which one of these numbers may stand.
    pub(crate) fn range_in(&self, column: usize) -> RangeTest
        ensures column { result.column ≡ column }
        ensures bounds { AreBetween result.least result.greatest self.now }
    {
        RangeTest {
            column,
            least: self.least,
            greatest: self.greatest,
        }
    }

    // Whether the number is one of these.
    pub(crate) fn contains(&self, n: &i64) -> bool
        ensures { result ≡ list_any (eq_by_cmp int_cmp n.now) self.now }
    {
        is_within(n, &self.least, &self.greatest) && self.all.contains(n)
    }
}

// Whether the number lies between the two.
fn is_within(n: &i64, least: &i64, greatest: &i64) -> bool
    ensures { result ≡ (int_le least.now n.now && int_le n.now greatest.now) }
{
    *least <= *n && *n <= *greatest
}

// The lesser of two numbers.
fn lesser(a: &i64, b: &i64) -> i64
    ensures { (result ≤ℤ a.now) × (result ≤ℤ b.now) }
{
    if *a < *b { *a } else { *b }
}

// The greater of two numbers.
fn greater(a: &i64, b: &i64) -> i64
    ensures { (a.now ≤ℤ result) × (b.now ≤ℤ result) }
{
    if *a < *b { *b } else { *a }
}
