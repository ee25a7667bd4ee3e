//! The SELECTs of a query, one by one.
ghost use Rattle.std.specs.Prelude.{IfOk};
ghost use Rattle.og_query.specs.Fits.{IsFitCore, IsFitQuery, Schemas};

use crate::node::{Count, Node};
use crate::plans::put_plan;
use og_base::NoMemory;
use og_plan::{Plan, fitting_queries, plan_of};
use og_query::{Core, Query};
use og_sql_text::{Columns, Sql};
use sqlite_items::Items;
use std::alloc::Global;

/// The SELECT with that number, counted from 0, or the first where there is none.
pub fn select_at(query: &Query, number: usize) -> &Core
    ensures fits { ((schemas : Schemas) × IsFitQuery schemas query.now) → ((schemas : Schemas) × IsFitCore schemas result.now) }
{
    if number == 0 {
        return &query.first;
    }
    match query.rest.as_slice().get(number - 1) {
        Some(rest) => &rest.core,
        None => &query.first,
    }
}

// A SELECT as a query of it alone.
fn query_of(alloc: Global, select: &Core) -> Result<Query, NoMemory>
    ensures { IfOk result (λ query. ((schemas : Schemas) × IsFitCore schemas select.now) → ((schemas : Schemas) × IsFitQuery schemas query)) }
{
    Ok(Query {
        first: select.copy(alloc)?,
        rest: Items::new(alloc),
    })
}

/// The plan of a SELECT, which fits its tables. Refused only for want of memory.
pub fn plan_of_select(alloc: Global, select: &Core) -> Result<Plan, NoMemory>
    requires fits { (schemas : Schemas) × IsFitCore schemas select.now }
{
    fitting_queries();
    let query = query_of(alloc, select)?;
    let plan = plan_of(alloc, &query);
    drop(query);
    plan
}

/// Appends the parts of a SELECT, which fits its tables, whose answer has these columns and whose places of FROM read what
/// the count says. Gives its last node, if memory did not run out, and else the text is cut.
pub fn put_select(select: &Core, answer: &Columns, count: &mut Count, out: &mut Sql) -> Option<Node>
    requires fits { (schemas : Schemas) × IsFitCore schemas select.now }
{
    let plan = plan_of_select(out.alloc(), select);
    match out.made(plan) {
        Some(plan) => Some(put_plan(&plan, answer, count, out)),
        None => None,
    }
}
