//! The answers of queries that are asked once; og_view asks those of live results.
ghost use Rattle.std.specs.Prelude.{◌≡◌, ◌≤◌, ℤ, IfOk, length};
ghost use Rattle.og_base.specs.Calendar.{IsRefDay};
ghost use Rattle.og_rel.specs.Relations.{relation_at};
ghost use Rattle.og_value.specs.Order.{row_order};
ghost use Rattle.og_value.specs.Values.{row_at};
ghost use Rattle.og_query.specs.Fits.{IsFitQuery, schemas_of};
ghost use Rattle.og_query.specs.Queries.{ordinary_query};
ghost use Rattle.og_query.specs.Sizes.{query_size};
ghost use Rattle.og_exec.specs.Tables.{rows_at, sizes_of};
ghost use Rattle.og_db.specs.Database.{HaveKinds};
ghost use Rattle.og_session.specs.Answers.{AreHeld};

use og_base::NoMemory;
use og_db::fitting_rows;
use og_exec::exec;
use og_par::{Crew, Gate};
use og_plan::{fitting_queries, plan_of};
use og_query::Query;
use og_rel::{Rel, Tables};
use og_value::{Catalog, Row, order_of_rows};
use std::thread::Threads;

/// The answer of a query whose names and kinds fit, over any names that have relations: on every day its
/// rows are those of the ordinary query over the relations on that day. The joins of its plan are shared
/// out among 1 to `MAX_WORKERS` of og_par. Refused only for want of memory.
pub fn answer<H: Threads + Sync, T: Catalog + Tables<Row>, G: Gate + Sync>(
    crew: &Crew<'_, H, G>,
    query: &Query,
    tables: &T,
) -> Result<Rel<Row>, NoMemory>
    requires fits { IsFitQuery (schemas_of (T.known tables.now)) query.now }
    requires held { AreHeld (T.known tables.now) (T.named tables.now) }
    ensures law { IfOk result (λ rel. (d : ℤ) → IsRefDay d →
        relation_at row_order row_at rel d ≡ ordinary_query d (rows_at (T.named tables.now) d) query.now) }
    ensures kinds { IfOk result (λ rel. HaveKinds query.now.first.schema rel) }
    ensures size { IfOk result (λ rel. length rel ≤ query_size (sizes_of (T.named tables.now)) query.now) }
{
    let alloc = crew.alloc();
    fitting_queries();
    fitting_rows();
    order_of_rows();
    let plan = plan_of(alloc, query)?;
    let made = exec(crew, &plan, tables);
    drop(plan);
    let rel = made?;
    rel.some_days();
    Ok(rel)
}
