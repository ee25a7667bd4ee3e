//! Rows in place of which their images stand.
ghost use Rattle.std.specs.Prelude.{◌≡◌, ◌≤◌, ℤ, IfOk, map, length};
ghost use Rattle.og_base.specs.Calendar.{IsRefDay};
ghost use Rattle.og_base.specs.Set.{set_of};
ghost use Rattle.og_rel.specs.Relations.{relation_at};

use crate::each_row::{EachRow, each_passing, each_row, each_row_by_workers};
use crate::operator::UnaryOp;
use crate::puts::put_image;
use og_base::{Glue, NoMemory, RowMap, RtSet};
use og_par::{Crew, Gate};
use og_rel::{Rel, RowTest};
use std::alloc::Global;
use std::thread::Threads;

/// The images of the rows.
#[derive(Drop)]
pub struct Project<M> {
    pub items: M,
}

impl<R: Glue + Drop, M: RowMap<R>> EachRow<R> for Project<M> {
    ghost use Rattle.std.specs.Prelude.{map};
    ghost use Rattle.std.proofs.lemmas.List.{map-append};

    ghost becomes = { λ op d xs. map (M.image op.items d) xs };

    ghost most_of_one = { λ op. 1 };

    fn put(&self, alloc: Global, row: &R, days: &RtSet, made: &mut Rel<R>) -> Result<(), NoMemory> {
        put_image(alloc, &self.items, row, days.copy()?, made)
    }

    ghost along = { λ op d xs ys. map-append (M.image op.items d) xs ys };
}

impl<R: Glue + Drop, M: RowMap<R>> UnaryOp<R> for Project<M> {
    ghost use Rattle.std.specs.Prelude.{map};
    ghost use Rattle.og_base.specs.Set.{set_of};

    ghost plain = { λ op d xs. set_of R.Fixed.cmp (map (M.image op.items d) xs) };

    ghost most = { λ op n. n };

    fn apply(&self, alloc: Global, rel: &Rel<R>) -> Result<Rel<R>, NoMemory> {
        each_row(alloc, self, rel)
    }

    fn apply_passing<T: RowTest<R>>(
        &self,
        alloc: Global,
        rel: &Rel<R>,
        test: &T,
    ) -> Result<Rel<R>, NoMemory> {
        each_passing(alloc, self, rel, test)
    }
}

impl<M> Project<M> {
    /// What `apply` gives, made by 1 to 64 workers. Refused only for want of memory.
    pub fn apply_by_workers<H: Threads + Sync, R: Glue + Drop + Sync + Send, G: Gate + Sync>(
        &self,
        crew: &Crew<'_, H, G>,
        rel: &Rel<R>,
    ) -> Result<Rel<R>, NoMemory>
    where
        M: RowMap<R> + Sync,
        R::Fixed: Send,
        ensures law { IfOk result (λ r. (d : ℤ) → IsRefDay d →
            relation_at R.Fixed.cmp R.meaning r d ≡ set_of R.Fixed.cmp (map (M.image self.now.items d) (relation_at R.Fixed.cmp R.meaning rel.now d))) }
        ensures size { IfOk result (λ r. length r ≤ length rel.now) }
    {
        each_row_by_workers(crew, self, rel)
    }
}
