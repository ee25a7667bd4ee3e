//! The nodes of a plan that filter, multiply or project rows.
ghost use Rattle.std.specs.Prelude.{◌≡◌, ◌≤◌, ◌*◌, ℤ, true, IfOk, length, filter};
ghost use Rattle.og_base.specs.Calendar.{IsRefDay};
ghost use Rattle.og_query.specs.Queries.{image};
ghost use Rattle.og_plan.specs.Meaning.{all_hold, matches};
ghost use Rattle.og_exec.specs.Answers.{rel_of};
ghost use Rattle.og_exec.specs.Images.{images};
ghost use Rattle.og_exec.specs.Tables.{rows_on};

use crate::answer::{Answer, Inputs, made};
use og_base::NoMemory;
use og_expr::{ItemMap, PartDays};
use og_ops::{BinaryOp, Product, Project, Select};
use og_par::{Crew, Gate};
use og_query::{Cond, Expr};
use og_value::{Row, order_of_rows};
use sqlite_items::Items;
use std::alloc::Global;
use std::thread::Threads;

// The rows for which all parts hold.
pub(crate) fn filtered<'t, H: Threads + Sync, G: Gate + Sync>(
    crew: &Crew<'_, H, G>,
    input: Answer<'_>,
    parts: &Items<Cond>,
) -> Result<Answer<'t>, NoMemory>
    ensures law { IfOk result (λ a. (d : ℤ) → IsRefDay d → rows_on (rel_of a) d ≡ filter (all_hold d parts.now) (rows_on (rel_of input.entry) d)) }
    ensures size { IfOk result (λ a. length (rel_of a) ≤ length (rel_of input.entry)) }
{
    order_of_rows();
    let cond = PartDays { parts };
    made(Select { cond }.apply_by_workers(crew, input.rel()))
}

// All combinations of a left and a right row.
pub(crate) fn multiplied<'t>(alloc: Global, inputs: Inputs<'_>) -> Result<Answer<'t>, NoMemory>
    ensures law { IfOk result (λ a. (d : ℤ) → IsRefDay d → rows_on (rel_of a) d ≡ matches (λ _ _. true) (rows_on (rel_of inputs.entry.left) d) (rows_on (rel_of inputs.entry.right) d)) }
    ensures size { IfOk result (λ a. length (rel_of a) ≤ length (rel_of inputs.entry.left) * length (rel_of inputs.entry.right)) }
{
    order_of_rows();
    made(Product.apply(alloc, inputs.left.rel(), inputs.right.rel()))
}

// The images of the rows.
pub(crate) fn projected<'t, H: Threads + Sync, G: Gate + Sync>(
    crew: &Crew<'_, H, G>,
    input: Answer<'_>,
    items: &Items<Expr>,
) -> Result<Answer<'t>, NoMemory>
    ensures law { IfOk result (λ a. (d : ℤ) → IsRefDay d → rows_on (rel_of a) d ≡ images (image d items.now) (rows_on (rel_of input.entry) d)) }
    ensures size { IfOk result (λ a. length (rel_of a) ≤ length (rel_of input.entry)) }
{
    order_of_rows();
    let items = ItemMap {
        items: items.as_slice(),
    };
    made(Project { items }.apply_by_workers(crew, input.rel()))
}
