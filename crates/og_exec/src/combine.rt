//! Two answers, combined by a set operator.
ghost use Rattle.std.specs.Prelude.{◌≡◌, ◌≤◌, ℤ, IfOk, length};
ghost use Rattle.og_base.specs.Calendar.{IsRefDay};
ghost use Rattle.og_query.specs.Queries as meant;
ghost use Rattle.og_query.specs.Sizes.{combined_size};
ghost use Rattle.og_exec.specs.Answers.{rel_of};
ghost use Rattle.og_exec.specs.Tables.{rows_on};

use crate::answer::{Answer, Inputs, made};
use og_base::NoMemory;
use og_ops::{Difference, Intersection, Union};
use og_par::{Crew, Gate};
use og_rel::Rel;
use og_value::{Row, SetOp, order_of_rows};
use std::thread::Threads;

// The answer that the operator makes of both.
pub(crate) fn combined<'t, H: Threads + Sync, G: Gate + Sync>(
    crew: &Crew<'_, H, G>,
    op: SetOp,
    inputs: Inputs<'_>,
) -> Result<Answer<'t>, NoMemory>
    ensures law { IfOk result (λ a. (d : ℤ) → IsRefDay d → rows_on (rel_of a) d ≡ meant.combined op (rows_on (rel_of inputs.entry.left) d) (rows_on (rel_of inputs.entry.right) d)) }
    ensures size { IfOk result (λ a. length (rel_of a) ≤ combined_size op (length (rel_of inputs.entry.left)) (length (rel_of inputs.entry.right))) }
{
    let (left, right) = (inputs.left.rel(), inputs.right.rel());
    made(applied(crew, op, left, right))
}

// The rows that the operator makes of both.
fn applied<H: Threads + Sync, G: Gate + Sync>(
    crew: &Crew<'_, H, G>,
    op: SetOp,
    left: &Rel<Row>,
    right: &Rel<Row>,
) -> Result<Rel<Row>, NoMemory>
    ensures law { IfOk result (λ r. (d : ℤ) → IsRefDay d → rows_on r d ≡ meant.combined op (rows_on left.now d) (rows_on right.now d)) }
    ensures size { IfOk result (λ r. length r ≤ combined_size op (length left.now) (length right.now)) }
{
    order_of_rows();
    match op {
        SetOp::Union => Union.apply_by_workers(crew, left, right),
        SetOp::Except => Difference.apply_by_workers(crew, left, right),
        SetOp::Intersect => Intersection.apply_by_workers(crew, left, right),
    }
}
