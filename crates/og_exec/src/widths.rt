//! How many values the rows of a plan have.
ghost use Rattle.std.specs.Prelude.{◌≡◌, ◌+◌, IfOk, List, Some, length};
ghost use Rattle.og_value.specs.declared.kind.Kind.{Kind};
ghost use Rattle.og_plan.specs.Shapes.{plan_kinds};

use og_base::NoMemory;
use og_plan::Plan;

// How many values a row of the plan has, where it is made of scans, filters, products and joins
// alone. So many values that they cannot be counted are no row.
pub(crate) fn width_of(plan: &Plan) -> Result<usize, NoMemory>
    ensures { IfOk result (λ n. (kinds : List Kind) → plan_kinds plan.now ≡ Some kinds → n ≡ length kinds) }
{
    match plan {
        Plan::Scan { schema, .. } => Ok(schema.len()),
        Plan::Filter { input, .. } => width_of(input.get()),
        Plan::Product { left, right } => added(width_of(left.get())?, width_of(right.get())?),
        Plan::KeyJoin { left, right, .. } => added(width_of(left.get())?, width_of(right.get())?),
        Plan::OverlapJoin { left, right, .. } => {
            added(width_of(left.get())?, width_of(right.get())?)
        }
        Plan::Project { .. } | Plan::Combine { .. } | Plan::Semis { .. } => Ok(0),
    }
}

// The sum, where it can be counted.
pub(crate) fn added(m: usize, n: usize) -> Result<usize, NoMemory>
    ensures { IfOk result (λ sum. sum ≡ m + n) }
{
    match m.checked_add(n) {
        Some(sum) => Ok(sum),
        None => Err(NoMemory),
    }
}
