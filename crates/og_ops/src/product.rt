//! Each row of one relation glued to each of another.
ghost use Rattle.std.specs.Prelude.{◌≡◌, ◌++◌, ◌+◌, ◌≤◌, ℤ, [], ◌∷◌, IfOk, OnOk, length};
ghost use Rattle.og_base.specs.Calendar.{IsRefDay};
ghost use Rattle.og_rel.specs.Relations.{present};
ghost use Rattle.og_ops.specs.Plain.{products};

use crate::operator::BinaryOp;
use crate::pair::{Hit, glued_pair};
use og_base::{Glue, NoMemory, RtSet};
use og_rel::Rel;
use std::alloc::Global;

/// Each row of the left glued to each of the right.
#[derive(Clone, Copy, Debug)]
pub struct Product;

impl<R: Glue + Drop> BinaryOp<R> for Product {
    ghost use Rattle.std.specs.Prelude.{◌*◌};
    ghost use Rattle.og_base.specs.Set.{set_of};
    ghost use Rattle.og_ops.specs.Plain.{products};

    ghost plain = { λ op d xs ys. set_of R.Fixed.cmp (products R.glued xs ys) };

    ghost most = { λ op n m. n * m };

    fn apply(&self, alloc: Global, left: &Rel<R>, right: &Rel<R>) -> Result<Rel<R>, NoMemory> {
        let mut made = Rel::new(alloc);
        'rows: for i in 0..left.len() {
            let more = with_each(alloc, left.row(i), left.days(i), right)?;
            made.append(more)?;
        }
        Ok(made)
    }
}

// The row glued to each of the right.
fn with_each<R: Glue + Drop>(
    alloc: Global,
    row: &R,
    days: &RtSet,
    right: &Rel<R>,
) -> Result<Rel<R>, NoMemory>
    ensures rows { IfOk result (λ r. (d : ℤ) → IsRefDay d → present R.meaning r d
        ≡ products R.glued (present R.meaning ((row.now, days.now) ∷ []) d) (present R.meaning right.now d)) }
    ensures size { IfOk result (λ r. length r ≤ length right.now) }
{
    let mut made = Rel::new(alloc);
    'rows: for i in 0..right.len() {
        with_one(alloc, row, days, right.row(i), right.days(i), &mut made)?;
    }
    Ok(made)
}

// Adds the row glued to the other one on the days on which both are present.
fn with_one<R: Glue + Drop>(
    alloc: Global,
    row: &R,
    days: &RtSet,
    right: &R,
    right_days: &RtSet,
    made: &mut Rel<R>,
) -> Result<(), NoMemory>
    ensures rows { OnOk result ((d : ℤ) → IsRefDay d → present R.meaning made.new d
        ≡ present R.meaning made.old d ++ products R.glued (present R.meaning ((row.now, days.now) ∷ []) d) (present R.meaning ((right.now, right_days.now) ∷ []) d)) }
    ensures size { OnOk result (length made.new ≤ length made.old + 1) }
{
    match glued_pair(alloc, row, days, right, right_days)? {
        Some(Hit { row, days }) => made.push(row, days),
        None => Ok(()),
    }
}
