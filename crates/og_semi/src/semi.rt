//! The rows of the left that meet some row of the right, or none.
ghost use Rattle.std.specs.Prelude.{◌≡◌, ◌≤◌, ℤ, IfOk, filter, length};
ghost use Rattle.std.specs.List.{list_any};
ghost use Rattle.og_base.specs.Calendar.{IsRefDay};
ghost use Rattle.og_ops.specs.Wanted.{is_wanted};
ghost use Rattle.og_rel.specs.Relations.{relation_at};

use og_base::{DayCond, Glue, NoMemory};
use og_ops::{BinaryOp, Glued, Matching, semijoin, semijoin_by_workers};
use og_par::{Crew, Gate};
use og_rel::Rel;
use std::alloc::Global;
use std::thread::Threads;

/// The rows of the left for which a condition holds of the row glued to some row of the right, where
/// `positive`, and otherwise those for which it holds of it glued to none.
#[derive(Drop)]
pub struct Semi<C> {
    pub cond: C,
    pub positive: bool,
}

impl<R: Glue + Drop, C: DayCond<R>> BinaryOp<R> for Semi<C> {
    ghost use Rattle.std.specs.Prelude.{filter};
    ghost use Rattle.std.specs.List.{list_any};
    ghost use Rattle.og_ops.specs.Wanted.{is_wanted};

    ghost plain = { λ op d xs ys. filter (λ x. is_wanted op.positive (list_any (λ y. C.holds op.cond d (R.glued x y)) ys)) xs };

    ghost most = { λ op n m. n };

    fn apply(&self, alloc: Global, left: &Rel<R>, right: &Rel<R>) -> Result<Rel<R>, NoMemory> {
        let matching = Glued { cond: &self.cond };
        semijoin(alloc, &matching, self.positive, left, right)
    }
}

/// The rows of the left that meet some row of the right, where `positive`, and otherwise those that
/// meet none. A left row is tried with the right rows alone that stand in a group which it seeks.
#[derive(Drop)]
pub struct KeyedSemi<M> {
    pub matching: M,
    pub positive: bool,
}

impl<R: Glue + Drop, M: Matching<R>> BinaryOp<R> for KeyedSemi<M> {
    ghost use Rattle.std.specs.Prelude.{filter};
    ghost use Rattle.std.specs.List.{list_any};
    ghost use Rattle.og_ops.specs.Wanted.{is_wanted};

    ghost plain = { λ op d xs ys. filter (λ x. is_wanted op.positive (list_any (M.meets op.matching d x) ys)) xs };

    ghost most = { λ op n m. n };

    fn apply(&self, alloc: Global, left: &Rel<R>, right: &Rel<R>) -> Result<Rel<R>, NoMemory> {
        semijoin(alloc, &self.matching, self.positive, left, right)
    }
}

impl<M> KeyedSemi<M> {
    /// What `apply` gives, made by 1 to 64 workers, which share out the left rows. Refused only for want of
    /// memory.
    pub fn apply_by_workers<H: Threads + Sync, R: Glue + Drop + Sync + Send, G: Gate + Sync>(
        &self,
        crew: &Crew<'_, H, G>,
        left: &Rel<R>,
        right: &Rel<R>,
    ) -> Result<Rel<R>, NoMemory>
    where
        M: Matching<R> + Sync,
        R::Fixed: Send,
        ensures law { IfOk result (λ r. (d : ℤ) → IsRefDay d → relation_at R.Fixed.cmp R.meaning r d
            ≡ filter (λ x. is_wanted self.now.positive (list_any (M.meets self.now.matching d x) (relation_at R.Fixed.cmp R.meaning right.now d))) (relation_at R.Fixed.cmp R.meaning left.now d)) }
        ensures size { IfOk result (λ r. length r ≤ length left.now) }
    {
        semijoin_by_workers(crew, &self.matching, self.positive, left, right)
    }
}
