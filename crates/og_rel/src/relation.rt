//! Relations.
ghost use Rattle.std.specs.Prelude.{◌≡◌, ◌++◌, ◌<◌, ◌≤◌, List, [], IfOk, OnOk, OnErr, drop, length, map, slice_index_or, swap, take};
ghost use Rattle.std.specs.List.{All, flat_map};
ghost use Rattle.og_base.specs.Ranges.{Range};
ghost use Rattle.og_rel.specs.Places.{ArePlaces, others_at};
ghost use Rattle.og_rel.specs.Relations.{HasDays, passing, relation_at, stored};

use crate::pair::{Pair, add_passing, pairs_with_days, present_rows};
use crate::places::remove_at;
use crate::row_test::RowTest;
use og_base::{Instant, NoMemory, OngoingRow, RefDay, RtSet, rising};
use std::alloc::Global;
use std::marker::Model;

/// A relation: rows, each with the days on which it is present, seen as the list of the rows with
/// the ranges of their days. No set of days in it is empty.
#[derive(Drop)]
pub struct Rel<R> {
    pairs: Vec<Pair<R>>,
}

impl<R> Model for Rel<R> {
    ghost use Rattle.std.specs.Prelude.{List, map};
    ghost use Rattle.std.specs.List.{All};
    ghost use Rattle.og_base.specs.Ranges.{Range};
    ghost use Rattle.og_rel.specs.Relations.{HasDays};

    ghost Value = { List (R × List Range) };

    ghost view = { λ rel. map (λ p. (p.row, p.days)) rel.pairs.items };

    ghost invariant = { λ rel. All (λ p. HasDays p.days) rel.pairs.items };
}

impl<R> Rel<R> {
    /// The relation without rows. Takes no memory.
    pub fn new(alloc: Global) -> Rel<R>
        ensures { result ≡ [] }
    {
        Rel {
            pairs: Vec::new(alloc),
        }
    }

    /// The relation of the rows with their days, in their order, but for those that have none. Takes no memory,
    /// and the rows stay where they lie.
    pub fn of(pairs: Vec<Pair<R>>) -> Rel<R>
    where
        R: Drop,
        ensures { result ≡ flat_map (λ p. stored p.row p.days) pairs.items }
    {
        Rel {
            pairs: pairs_with_days(pairs),
        }
    }

    /// Appends the row with its days, or nothing where there are none. Refused only for want of
    /// memory, and then nothing has changed.
    pub fn push(&mut self, row: R, days: RtSet) -> Result<(), NoMemory>
    where
        R: Drop,
        ensures pushed { OnOk result (self.new ≡ self.old ++ stored row days) }
        ensures refused { OnErr result (self.new ≡ self.old) }
    {
        days.normal();
        if !days.is_empty() {
            self.pairs.push(Pair { row, days })?;
        }
        Ok(())
    }

    /// Appends all rows of `more` with their days, in order. Refused only for want of memory, and
    /// then nothing has changed.
    pub fn append(&mut self, more: Rel<R>) -> Result<(), NoMemory>
    where
        R: Drop,
        ensures appended { OnOk result (self.new ≡ self.old ++ more) }
        ensures refused { OnErr result (self.new ≡ self.old) }
    {
        let mut more = more;
        self.pairs.append(&mut more.pairs)?;
        Ok(())
    }

    /// Keeps that many of the first rows, and all where there are fewer. Takes no memory.
    pub fn truncate(&mut self, len: usize)
    where
        R: Drop,
        ensures { self.new ≡ take len self.old }
    {
        self.pairs.truncate(len);
    }

    /// Exchanges the rows at two places, with their days. Takes no memory.
    pub fn swap(&mut self, i: usize, j: usize)
        requires first { i < length self.old }
        requires second { j < length self.old }
        ensures { self.new ≡ swap self.old i j }
    {
        self.pairs.swap(i, j);
    }

    /// Takes the rows at places out; the others keep their order. Takes no memory.
    pub fn remove_at(&mut self, at: &[usize])
    where
        R: Drop,
        requires { ArePlaces at.now (length self.old) }
        ensures { self.new ≡ others_at at.now self.old }
    {
        remove_at(&mut self.pairs, at);
    }

    /// Puts that many of the first rows behind the others. Takes no memory.
    pub fn rotate_left(&mut self, count: usize)
        requires { count ≤ length self.old }
        ensures { self.new ≡ drop count self.old ++ take count self.old }
    {
        self.pairs.rotate_left(count);
    }

    /// The number of rows.
    pub fn len(&self) -> usize
        ensures { result ≡ length self.now }
    {
        self.pairs.len()
    }

    /// The rows with their days.
    pub fn pairs(&self) -> &[Pair<R>]
        ensures { map (λ p. (p.row, p.days)) result.now ≡ self.now }
    {
        self.pairs.as_slice()
    }

    /// The row at that place.
    pub fn row(&self, i: usize) -> &R
        requires { i < length self.now }
        ensures { (p : R × List Range) → result.now ≡ (slice_index_or self.now i p).0 }
    {
        &self.pairs[i].row
    }

    /// The days of the row at that place.
    pub fn days(&self, i: usize) -> &RtSet
        requires { i < length self.now }
        ensures { (p : R × List Range) → result.now ≡ (slice_index_or self.now i p).1 }
    {
        &self.pairs[i].days
    }

    /// Each row has a day.
    pub fn some_days(&self)
        ensures { All (λ p. HasDays p.1) self.now }
    {
        let _ = &self.pairs;
    }
}

impl<R: OngoingRow> Rel<R> {
    /// The same relation once more. Refused only for want of memory.
    pub fn copy(&self) -> Result<Rel<R>, NoMemory>
    where
        R: Drop,
        ensures { IfOk result (λ rel. rel ≡ self.now) }
    {
        let alloc = *self.pairs.allocator();
        let mut pairs = Vec::new(alloc);
        'pairs: for pair in &self.pairs {
            pairs.push(pair.copy(alloc)?)?;
        }
        Ok(Rel { pairs })
    }

    /// The rows that pass the test, once more, with their days. Refused only for want of memory.
    pub fn passing<T: RowTest<R>>(&self, test: &T) -> Result<Rel<R>, NoMemory>
    where
        R: Drop,
        ensures { IfOk result (λ rel. rel ≡ passing (T.passes test.now) self.now) }
    {
        let alloc = *self.pairs.allocator();
        let mut pairs = Vec::new(alloc);
        'pairs: for pair in &self.pairs {
            add_passing(alloc, pair, test, &mut pairs)?;
        }
        Ok(Rel { pairs })
    }

    /// The rising list of the rows that are present on the day, at the day, each once. Refused only
    /// for want of memory.
    pub fn at(&self, d: RefDay) -> Result<Vec<R::Fixed>, NoMemory>
        ensures { IfOk result (λ rows. rows.items ≡ relation_at R.Fixed.cmp R.meaning self.now d) }
    {
        let alloc = *self.pairs.allocator();
        let rows = present_rows(alloc, self.pairs.as_slice(), d)?;
        rising(rows)
    }
}
