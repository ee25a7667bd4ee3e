//! The execution of plans.
ghost use Rattle.std.specs.Prelude.{◌≡◌, ◌≤◌, ℤ, true, IfOk, length};
ghost use Rattle.og_base.specs.Calendar.{IsRefDay};
ghost use Rattle.og_rel.specs.Relations.{relation_at};
ghost use Rattle.og_value.specs.Values.{row_at};
ghost use Rattle.og_query.specs.Queries.{image};
ghost use Rattle.og_plan.specs.Meaning.{plan_rows};
ghost use Rattle.og_plan.specs.Shapes.{is_sound, scans_of};
ghost use Rattle.og_plan.specs.Sizes.{plan_size};
ghost use Rattle.og_exec.specs.Answers.{rel_of};
ghost use Rattle.og_exec.specs.Images.{images};
ghost use Rattle.og_exec.specs.Tables.{AreThere, rows_at, rows_on, sizes_of};

use crate::answer::{Answer, Inputs, lent};
use crate::combine::combined;
use crate::images::ItemPairs;
use crate::keys::key_joined;
use crate::nodes::{filtered, multiplied, projected};
use crate::overlaps::overlap_joined;
use crate::semis::sifted;
use crate::widths::width_of;
use og_base::NoMemory;
use og_ops::Whole;
use og_par::{Crew, Gate};
use og_plan::Plan;
use og_query::Expr;
use og_rel::{Rel, Tables};
use og_value::{FixedRow, Row, order_of_rows};
use sqlite_items::{Boxed, Items};
use std::thread::Threads;

/// The answer of a plan on every day: on each it has the rows that the plan means over the tables of
/// that day, and it has at most as many rows as the size of the plan says. Joins, filters, projections, set
/// operators and EXISTS are shared out among the workers. Refused only for want of memory.
pub fn exec<H: Threads + Sync, T: Tables<Row>, G: Gate + Sync>(
    crew: &Crew<'_, H, G>,
    plan: &Plan,
    tables: &T,
) -> Result<Rel<Row>, NoMemory>
    requires sound { is_sound plan.now ≡ true }
    requires tables { AreThere (T.named tables.now) (scans_of plan.now) }
    ensures law { IfOk result (λ r. (d : ℤ) → IsRefDay d →
        relation_at ⟦<FixedRow as Ord>⟧.cmp row_at r d ≡ plan_rows d (rows_at (T.named tables.now) d) plan.now) }
    ensures size { IfOk result (λ r. length r ≤ plan_size (sizes_of (T.named tables.now)) plan.now) }
{
    order_of_rows();
    match answer_of(crew, plan, tables)? {
        Answer::Lent(rel) => rel.copy(),
        Answer::Made(rel) => Ok(rel),
    }
}

// The answer of a plan.
#[cycle(answer_of)]
fn answer_of<'t, H: Threads + Sync, T: Tables<Row>, G: Gate + Sync>(
    crew: &Crew<'_, H, G>,
    plan: &Plan,
    tables: &'t T,
) -> Result<Answer<'t>, NoMemory>
    requires sound { is_sound plan.now ≡ true }
    requires tables { AreThere (T.named tables.now) (scans_of plan.now) }
    ensures law { IfOk result (λ a. (d : ℤ) → IsRefDay d → rows_on (rel_of a) d ≡ plan_rows d (rows_at (T.named tables.now) d) plan.now) }
    ensures size { IfOk result (λ a. length (rel_of a) ≤ plan_size (sizes_of (T.named tables.now)) plan.now) }
{
    let alloc = crew.alloc();
    match plan {
        Plan::Scan { name, .. } => Ok(lent(alloc, name, tables)),
        Plan::Filter { input, parts } => {
            let input = answer_of(crew, input.get(), tables)?;
            filtered(crew, input, parts)
        }
        Plan::Product { left, right } => {
            let inputs = both(crew, left, right, tables)?;
            multiplied(alloc, inputs)
        }
        Plan::KeyJoin {
            left,
            right,
            pairs,
            rest,
        } => {
            let inputs = both(crew, left, right, tables)?;
            key_joined(crew, inputs, pairs, rest, &Whole)
        }
        Plan::OverlapJoin {
            left,
            right,
            pair,
            rest,
        } => {
            let width = width_of(left.get())?;
            let inputs = both(crew, left, right, tables)?;
            overlap_joined(crew, inputs, width, pair, rest, &Whole)
        }
        Plan::Project { input, items } => { images_of(crew, input.get(), items, tables) }
        Plan::Combine { op, left, right } => {
            let inputs = both(crew, left, right, tables)?;
            combined(crew, *op, inputs)
        }
        Plan::Semis { input, semis } => {
            let input = answer_of(crew, input.get(), tables)?;
            sifted(crew, input, semis.as_slice(), tables)
        }
    }
}

// The images of the rows of a plan. Those of a join are made of its pairs of rows, by the workers and
// without the glued rows.
#[cycle(answer_of)]
fn images_of<'t, H: Threads + Sync, T: Tables<Row>, G: Gate + Sync>(
    crew: &Crew<'_, H, G>,
    plan: &Plan,
    items: &Items<Expr>,
    tables: &'t T,
) -> Result<Answer<'t>, NoMemory>
    requires sound { is_sound plan.now ≡ true }
    requires tables { AreThere (T.named tables.now) (scans_of plan.now) }
    ensures law { IfOk result (λ a. (d : ℤ) → IsRefDay d → rows_on (rel_of a) d ≡ images (image d items.now) (plan_rows d (rows_at (T.named tables.now) d) plan.now)) }
    ensures size { IfOk result (λ a. length (rel_of a) ≤ plan_size (sizes_of (T.named tables.now)) plan.now) }
{
    let images = ItemPairs { items };
    match plan {
        Plan::KeyJoin {
            left,
            right,
            pairs,
            rest,
        } => {
            let inputs = both(crew, left, right, tables)?;
            key_joined(crew, inputs, pairs, rest, &images)
        }
        Plan::OverlapJoin {
            left,
            right,
            pair,
            rest,
        } => {
            let width = width_of(left.get())?;
            let inputs = both(crew, left, right, tables)?;
            overlap_joined(crew, inputs, width, pair, rest, &images)
        }
        _ => {
            let input = answer_of(crew, plan, tables)?;
            projected(crew, input, items)
        }
    }
}

// The answers of the two inputs of a node.
#[cycle(answer_of)]
fn both<'t, H: Threads + Sync, T: Tables<Row>, G: Gate + Sync>(
    crew: &Crew<'_, H, G>,
    left: &Boxed<Plan>,
    right: &Boxed<Plan>,
    tables: &'t T,
) -> Result<Inputs<'t>, NoMemory>
    requires sound_left { is_sound left.now ≡ true }
    requires sound_right { is_sound right.now ≡ true }
    requires tables_left { AreThere (T.named tables.now) (scans_of left.now) }
    requires tables_right { AreThere (T.named tables.now) (scans_of right.now) }
    ensures law_left { IfOk result (λ i. (d : ℤ) → IsRefDay d → rows_on (rel_of i.left) d ≡ plan_rows d (rows_at (T.named tables.now) d) left.now) }
    ensures law_right { IfOk result (λ i. (d : ℤ) → IsRefDay d → rows_on (rel_of i.right) d ≡ plan_rows d (rows_at (T.named tables.now) d) right.now) }
    ensures size_left { IfOk result (λ i. length (rel_of i.left) ≤ plan_size (sizes_of (T.named tables.now)) left.now) }
    ensures size_right { IfOk result (λ i. length (rel_of i.right) ≤ plan_size (sizes_of (T.named tables.now)) right.now) }
{
    let left = answer_of(crew, left.get(), tables)?;
    let right = answer_of(crew, right.get(), tables)?;
    Ok(Inputs { left, right })
}
