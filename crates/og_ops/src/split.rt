//! Rows in place of which their images stand where a condition holds.
ghost use Rattle.std.specs.Prelude.{◌≡◌, ◌++◌, ◌+◌, ◌≤◌, ℤ, [], ◌∷◌, OnOk, map, length};
ghost use Rattle.og_base.specs.Calendar.{IsRefDay};
ghost use Rattle.og_rel.specs.Relations.{present};
ghost use Rattle.og_ops.specs.Plain.{replaced};

use crate::each_row::{EachRow, each_passing, each_row};
use crate::operator::UnaryOp;
use crate::puts::{put_image, put_row};
use crate::sift::wanted_days;
use og_base::{DayCond, Glue, NoMemory, RowMap, RtSet};
use og_rel::{Rel, RowTest};
use std::alloc::Global;

/// The image of each row of which a condition holds, and each other row as it is.
#[derive(Drop)]
pub struct Split<C, M> {
    pub cond: C,
    pub items: M,
}

impl<R: Glue + Drop, C: DayCond<R>, M: RowMap<R>> EachRow<R> for Split<C, M> {
    ghost use Rattle.std.specs.Prelude.{map};
    ghost use Rattle.std.proofs.lemmas.List.{map-append};
    ghost use Rattle.og_ops.specs.Plain.{replaced};

    ghost becomes = { λ op d xs. map (replaced (C.holds op.cond d) (M.image op.items d)) xs };

    ghost most_of_one = { λ op. 2 };

    fn put(&self, alloc: Global, row: &R, days: &RtSet, made: &mut Rel<R>) -> Result<(), NoMemory> {
        split_row(alloc, self, row, days, made)
    }

    ghost along = { λ op d xs ys. map-append (replaced (C.holds op.cond d) (M.image op.items d)) xs ys };
}

impl<R: Glue + Drop, C: DayCond<R>, M: RowMap<R>> UnaryOp<R> for Split<C, M> {
    ghost use Rattle.std.specs.Prelude.{map, ◌*◌};
    ghost use Rattle.og_base.specs.Set.{set_of};
    ghost use Rattle.og_ops.specs.Plain.{replaced};

    ghost plain = { λ op d xs. set_of R.Fixed.cmp (map (replaced (C.holds op.cond d) (M.image op.items d)) xs) };

    ghost most = { λ op n. 2 * n };

    fn apply(&self, alloc: Global, rel: &Rel<R>) -> Result<Rel<R>, NoMemory> {
        each_row(alloc, self, rel)
    }

    fn apply_passing<T: RowTest<R>>(
        &self,
        alloc: Global,
        rel: &Rel<R>,
        test: &T,
    ) -> Result<Rel<R>, NoMemory> {
        each_passing(alloc, self, rel, test)
    }
}

// Adds the row on those of its days on which the condition does not hold, and its image on the others.
fn split_row<R: Glue + Drop, C: DayCond<R>, M: RowMap<R>>(
    alloc: Global,
    split: &Split<C, M>,
    row: &R,
    days: &RtSet,
    made: &mut Rel<R>,
) -> Result<(), NoMemory>
    ensures rows { OnOk result ((d : ℤ) → IsRefDay d → present R.meaning made.new d
        ≡ present R.meaning made.old d ++ map (replaced (C.holds split.now.cond d) (M.image split.now.items d)) (present R.meaning ((row.now, days.now) ∷ []) d)) }
    ensures size { OnOk result (length made.new ≤ length made.old + 2) }
{
    let met = split.cond.days(alloc, row)?;
    let others = wanted_days(days, &met, false)?;
    let changed = wanted_days(days, &met, true)?;
    put_row(alloc, row, others, made)?;
    put_image(alloc, &split.items, row, changed, made)
}
