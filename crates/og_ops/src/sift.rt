//! Rows on the days on which a condition holds of them, or on which it does not.
ghost use Rattle.std.specs.Prelude.{◌≡◌, ◌++◌, ◌+◌, ◌≤◌, ◌&&◌, ℤ, [], ◌∷◌, IfOk, OnOk, filter, length};
ghost use Rattle.og_base.specs.Calendar.{IsRefDay};
ghost use Rattle.og_base.specs.Ranges.{holds_day};
ghost use Rattle.og_rel.specs.Relations.{present, relation_at};
ghost use Rattle.og_ops.specs.Wanted.{is_wanted};

use crate::each_row::{EachRow, each_passing, each_row, each_row_by_workers};
use crate::operator::UnaryOp;
use crate::puts::put_row;
use og_base::{DayCond, Glue, NoMemory, RtSet};
use og_par::{Crew, Gate};
use og_rel::{Rel, RowTest};
use std::alloc::Global;
use std::thread::Threads;

/// The rows of which a condition holds.
#[derive(Drop)]
pub struct Select<C> {
    pub cond: C,
}

impl<R: Glue + Drop, C: DayCond<R>> EachRow<R> for Select<C> {
    ghost use Rattle.std.specs.Prelude.{filter};
    ghost use Rattle.std.proofs.lemmas.List.Elements.{filter-append};

    ghost becomes = { λ op d xs. filter (C.holds op.cond d) xs };

    ghost most_of_one = { λ op. 1 };

    fn put(&self, alloc: Global, row: &R, days: &RtSet, made: &mut Rel<R>) -> Result<(), NoMemory> {
        keep_row(alloc, &self.cond, true, row, days, made)
    }

    ghost along = { λ op d xs ys. filter-append (C.holds op.cond d) xs ys };
}

impl<R: Glue + Drop, C: DayCond<R>> UnaryOp<R> for Select<C> {
    ghost use Rattle.std.specs.Prelude.{filter};

    ghost plain = { λ op d xs. filter (C.holds op.cond d) xs };

    ghost most = { λ op n. n };

    fn apply(&self, alloc: Global, rel: &Rel<R>) -> Result<Rel<R>, NoMemory> {
        each_row(alloc, self, rel)
    }

    fn apply_passing<T: RowTest<R>>(
        &self,
        alloc: Global,
        rel: &Rel<R>,
        test: &T,
    ) -> Result<Rel<R>, NoMemory> {
        each_passing(alloc, self, rel, test)
    }
}

impl<C> Select<C> {
    /// What `apply` gives, made by 1 to 64 workers. Refused only for want of memory.
    pub fn apply_by_workers<H: Threads + Sync, R: Glue + Drop + Sync + Send, G: Gate + Sync>(
        &self,
        crew: &Crew<'_, H, G>,
        rel: &Rel<R>,
    ) -> Result<Rel<R>, NoMemory>
    where
        C: DayCond<R> + Sync,
        R::Fixed: Send,
        ensures law { IfOk result (λ r. (d : ℤ) → IsRefDay d →
            relation_at R.Fixed.cmp R.meaning r d ≡ filter (C.holds self.now.cond d) (relation_at R.Fixed.cmp R.meaning rel.now d)) }
        ensures size { IfOk result (λ r. length r ≤ length rel.now) }
    {
        each_row_by_workers(crew, self, rel)
    }
}

/// The rows of which a condition does not hold.
#[derive(Drop)]
pub struct Restrict<C> {
    pub cond: C,
}

impl<R: Glue + Drop, C: DayCond<R>> EachRow<R> for Restrict<C> {
    ghost use Rattle.std.specs.Prelude.{filter, not};
    ghost use Rattle.std.proofs.lemmas.List.Elements.{filter-append};

    ghost becomes = { λ op d xs. filter (λ x. not (C.holds op.cond d x)) xs };

    ghost most_of_one = { λ op. 1 };

    fn put(&self, alloc: Global, row: &R, days: &RtSet, made: &mut Rel<R>) -> Result<(), NoMemory> {
        keep_row(alloc, &self.cond, false, row, days, made)
    }

    ghost along = { λ op d xs ys. filter-append (λ x. not (C.holds op.cond d x)) xs ys };
}

impl<R: Glue + Drop, C: DayCond<R>> UnaryOp<R> for Restrict<C> {
    ghost use Rattle.std.specs.Prelude.{filter, not};

    ghost plain = { λ op d xs. filter (λ x. not (C.holds op.cond d x)) xs };

    ghost most = { λ op n. n };

    fn apply(&self, alloc: Global, rel: &Rel<R>) -> Result<Rel<R>, NoMemory> {
        each_row(alloc, self, rel)
    }

    fn apply_passing<T: RowTest<R>>(
        &self,
        alloc: Global,
        rel: &Rel<R>,
        test: &T,
    ) -> Result<Rel<R>, NoMemory> {
        each_passing(alloc, self, rel, test)
    }
}

// Adds the row on those of its days on which the condition has the wanted truth.
fn keep_row<R: Glue + Drop, C: DayCond<R>>(
    alloc: Global,
    cond: &C,
    wanted: bool,
    row: &R,
    days: &RtSet,
    kept: &mut Rel<R>,
) -> Result<(), NoMemory>
    ensures rows { OnOk result ((d : ℤ) → IsRefDay d → present R.meaning kept.new d
        ≡ present R.meaning kept.old d ++ filter (λ x. is_wanted wanted (C.holds cond.now d x)) (present R.meaning ((row.now, days.now) ∷ []) d)) }
    ensures size { OnOk result (length kept.new ≤ length kept.old + 1) }
{
    let met = cond.days(alloc, row)?;
    let left = wanted_days(days, &met, wanted)?;
    put_row(alloc, row, left, kept)
}

// Those of the days on which the truth, which is true on the days `met`, is the wanted one.
pub(crate) fn wanted_days(days: &RtSet, met: &RtSet, wanted: bool) -> Result<RtSet, NoMemory>
    ensures { IfOk result (λ s. (d : ℤ) → holds_day s d ≡ (holds_day days.now d && is_wanted wanted (holds_day met.now d))) }
{
    if !wanted {
        return days.minus(met);
    }
    // A condition holds of most rows on no day.
    if met.is_empty() {
        return met.copy();
    }
    days.meet(met)
}
