//! A row and the days on which it is present.
ghost use Rattle.std.specs.Prelude.{◌≡◌, ◌++◌, [], ◌∷◌, IfOk, OnOk, filter};
ghost use Rattle.std.specs.List.{All};
ghost use Rattle.og_base.specs.Ranges.{IsNormal};
ghost use Rattle.og_rel.specs.Pairs.{has_day, present_of_pairs};
ghost use Rattle.og_rel.specs.Relations.{HasDays};

use crate::row_test::RowTest;
use og_base::{Instant, NoMemory, OngoingRow, RefDay, RtSet};
use std::alloc::Global;

/// A row and the days on which it is present.
#[derive(Drop)]
pub struct Pair<R> {
    pub row: R,
    pub days: RtSet,
}

impl<R: OngoingRow> Pair<R> {
    // The same pair once more.
    pub(crate) fn copy(&self, alloc: Global) -> Result<Pair<R>, NoMemory>
    where
        R: Drop,
        ensures { IfOk result (λ p. p ≡ self.now) }
    {
        let days = self.days.copy()?;
        let row = self.row.copy(alloc)?;
        Ok(Pair { row, days })
    }
}

// The pairs that have a day.
pub(crate) fn pairs_with_days<R: Drop>(mut pairs: Vec<Pair<R>>) -> Vec<Pair<R>>
    ensures kept { result.items ≡ filter (λ p. has_day p.days) pairs.items }
    ensures days { All (λ p. HasDays p.days) result.items }
{
    sets_are_normal(pairs.as_slice());
    pairs.retain(
        |pair: &Pair<R>| -> bool
            ensures { result ≡ has_day pair.now.days }
        { !pair.days.is_empty() },
    );
    pairs
}

// Each set of days is in the one normal form.
fn sets_are_normal<R>(pairs: &[Pair<R>])
    ensures { All (λ p. IsNormal p.days) pairs.now }
{
    'pairs: for pair in pairs {
        pair.days.normal();
    }
}

// The rows at the day of the pairs that are present on it, in their order.
pub(crate) fn present_rows<R: Instant>(
    alloc: Global,
    pairs: &[Pair<R>],
    d: RefDay,
) -> Result<Vec<R::Fixed>, NoMemory>
    ensures { IfOk result (λ v. v.items ≡ present_of_pairs R.meaning pairs.now d) }
{
    let mut rows = Vec::with_capacity(alloc, pairs.len())?;
    'pairs: for pair in pairs {
        add_row(alloc, pair, d, &mut rows)?;
    }
    Ok(rows)
}

// Adds the pair's row at the day, where it is present on it.
pub(crate) fn add_row<R: Instant>(
    alloc: Global,
    pair: &Pair<R>,
    d: RefDay,
    rows: &mut Vec<R::Fixed>,
) -> Result<(), NoMemory>
    ensures { OnOk result (rows.new.items ≡ rows.old.items ++ present_of_pairs R.meaning (pair.now ∷ []) d) }
{
    if pair.days.contains(d) {
        rows.push(pair.row.at(alloc, d)?)?;
    }
    Ok(())
}

// Adds the pair once more, where its row passes the test.
pub(crate) fn add_passing<R: OngoingRow + Drop, T: RowTest<R>>(
    alloc: Global,
    pair: &Pair<R>,
    test: &T,
    pairs: &mut Vec<Pair<R>>,
) -> Result<(), NoMemory>
    ensures { OnOk result (pairs.new.items ≡ pairs.old.items ++ filter (λ p. T.passes test.now p.row) (pair.now ∷ [])) }
{
    if test.test(&pair.row) {
        pairs.push(pair.copy(alloc)?)?;
    }
    Ok(())
}
