//! The set operations on relations.
ghost use Rattle.std.specs.Prelude.{◌≡◌, ◌≤◌, ◌+◌, ℤ, IfOk, length};
ghost use Rattle.og_base.specs.Calendar.{IsRefDay};
ghost use Rattle.og_rel.specs.Algebra.{union, except, intersect};
ghost use Rattle.og_rel.specs.Relations.{relation_at};

use crate::each_row::{EachRow, each_row_by_workers};
use crate::matching::Equality;
use crate::operator::BinaryOp;
use crate::puts::put_row;
use crate::semijoins::{semijoin, semijoin_by_workers};
use og_base::{Glue, Grouped, NoMemory, RtSet};
use og_par::{Crew, Gate};
use og_rel::Rel;
use std::alloc::Global;
use std::thread::Threads;

/// The rows of the left and those of the right.
#[derive(Clone, Copy, Debug)]
pub struct Union;

impl<R: Glue + Drop> BinaryOp<R> for Union {
    ghost use Rattle.std.specs.Prelude.{◌+◌};
    ghost use Rattle.og_rel.specs.Algebra.{union};

    ghost plain = { λ op d xs ys. union R.Fixed.cmp xs ys };

    ghost most = { λ op n m. n + m };

    fn apply(&self, _alloc: Global, left: &Rel<R>, right: &Rel<R>) -> Result<Rel<R>, NoMemory> {
        let mut both = left.copy()?;
        both.append(right.copy()?)?;
        Ok(both)
    }
}

impl Union {
    /// What `apply` gives, made by 1 to 64 workers. Refused only for want of memory.
    pub fn apply_by_workers<H: Threads + Sync, R: Glue + Drop + Sync + Send, G: Gate + Sync>(
        &self,
        crew: &Crew<'_, H, G>,
        left: &Rel<R>,
        right: &Rel<R>,
    ) -> Result<Rel<R>, NoMemory>
    where
        R::Fixed: Send,
        ensures law { IfOk result (λ r. (d : ℤ) → IsRefDay d → relation_at R.Fixed.cmp R.meaning r d
            ≡ union R.Fixed.cmp (relation_at R.Fixed.cmp R.meaning left.now d) (relation_at R.Fixed.cmp R.meaning right.now d)) }
        ensures size { IfOk result (λ r. length r ≤ length left.now + length right.now) }
    {
        let mut both = each_row_by_workers(crew, &AsItIs, left)?;
        both.append(each_row_by_workers(crew, &AsItIs, right)?)?;
        Ok(both)
    }
}

// Each row as it is.
#[derive(Clone, Copy, Debug)]
struct AsItIs;

impl<R: Glue + Drop> EachRow<R> for AsItIs {
    ghost use Rattle.std.specs.Prelude.{refl};

    ghost becomes = { λ op d xs. xs };

    ghost most_of_one = { λ op. 1 };

    fn put(&self, alloc: Global, row: &R, days: &RtSet, made: &mut Rel<R>) -> Result<(), NoMemory> {
        put_row(alloc, row, days.copy()?, made)
    }

    ghost along = { λ op d xs ys. refl };
}

/// The rows of the left that are not in the right.
#[derive(Clone, Copy, Debug)]
pub struct Difference;

impl<R: Glue + Grouped + Drop> BinaryOp<R> for Difference {
    ghost use Rattle.og_rel.specs.Algebra.{except};

    ghost plain = { λ op d xs ys. except R.Fixed.cmp xs ys };

    ghost most = { λ op n m. n };

    fn apply(&self, alloc: Global, left: &Rel<R>, right: &Rel<R>) -> Result<Rel<R>, NoMemory> {
        semijoin(alloc, &Equality, false, left, right)
    }
}

impl Difference {
    /// What `apply` gives, made by 1 to 64 workers. Refused only for want of memory.
    pub fn apply_by_workers<
        H: Threads + Sync,
        R: Glue + Grouped + Drop + Sync + Send,
        G: Gate + Sync,
    >(&self, crew: &Crew<'_, H, G>, left: &Rel<R>, right: &Rel<R>) -> Result<Rel<R>, NoMemory>
    where
        R::Fixed: Send,
        ensures law { IfOk result (λ r. (d : ℤ) → IsRefDay d → relation_at R.Fixed.cmp R.meaning r d
            ≡ except R.Fixed.cmp (relation_at R.Fixed.cmp R.meaning left.now d) (relation_at R.Fixed.cmp R.meaning right.now d)) }
        ensures size { IfOk result (λ r. length r ≤ length left.now) }
    {
        semijoin_by_workers(crew, &Equality, false, left, right)
    }
}

/// The rows of the left that are in the right.
#[derive(Clone, Copy, Debug)]
pub struct Intersection;

impl<R: Glue + Grouped + Drop> BinaryOp<R> for Intersection {
    ghost use Rattle.og_rel.specs.Algebra.{intersect};

    ghost plain = { λ op d xs ys. intersect R.Fixed.cmp xs ys };

    ghost most = { λ op n m. n };

    fn apply(&self, alloc: Global, left: &Rel<R>, right: &Rel<R>) -> Result<Rel<R>, NoMemory> {
        semijoin(alloc, &Equality, true, left, right)
    }
}

impl Intersection {
    /// What `apply` gives, made by 1 to 64 workers. Refused only for want of memory.
    pub fn apply_by_workers<
        H: Threads + Sync,
        R: Glue + Grouped + Drop + Sync + Send,
        G: Gate + Sync,
    >(&self, crew: &Crew<'_, H, G>, left: &Rel<R>, right: &Rel<R>) -> Result<Rel<R>, NoMemory>
    where
        R::Fixed: Send,
        ensures law { IfOk result (λ r. (d : ℤ) → IsRefDay d → relation_at R.Fixed.cmp R.meaning r d
            ≡ intersect R.Fixed.cmp (relation_at R.Fixed.cmp R.meaning left.now d) (relation_at R.Fixed.cmp R.meaning right.now d)) }
        ensures size { IfOk result (λ r. length r ≤ length left.now) }
    {
        semijoin_by_workers(crew, &Equality, true, left, right)
    }
}
