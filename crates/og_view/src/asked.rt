//! Queries that are asked again and again.
ghost use Rattle.std.specs.Prelude.{◌≡◌, ◌≤◌, ℤ, IfOk, length};
ghost use Rattle.og_base.specs.Calendar.{IsRefDay};
ghost use Rattle.og_rel.specs.Relations.{relation_at};
ghost use Rattle.og_value.specs.Order.{row_order};
ghost use Rattle.og_value.specs.Values.{row_at};
ghost use Rattle.og_query.specs.Fits.{Schemas, IsFitQuery};
ghost use Rattle.og_query.specs.Queries.{ordinary_query};
ghost use Rattle.og_query.specs.Sizes.{query_size};
ghost use Rattle.og_exec.specs.Tables.{rows_at, sizes_of};
ghost use Rattle.og_db.specs.Database.{HaveKinds};
ghost use Rattle.og_view.specs.Tables.{AreHeld};

use og_base::NoMemory;
use og_db::fitting_rows;
use og_exec::exec;
use og_par::{Crew, Gate};
use og_plan::{Plan, fitting_queries, plan_of};
use og_query::Query;
use og_rel::{Rel, Tables};
use og_value::{Row, order_of_rows};
use sqlite_items::Boxed;
use std::alloc::Global;
use std::marker::Model;
use std::thread::Threads;

// A query with its plan, seen as the query.
#[derive(Drop)]
pub(crate) struct Asked {
    query: Boxed<Query>,
    plan: Boxed<Plan>,
}

impl Model for Asked {
    ghost use Rattle.std.specs.Coded.{codes};
    ghost use Rattle.og_query.specs.contracts.query.Query as q;
    ghost use Rattle.og_query.specs.declared.query.Query.{Query};
    ghost use Rattle.og_view.specs.Plans.{IsPlanOf};

    ghost Value = { Query };

    ghost coded = { Prim.hlevel (codes, q.the_row.coded) };

    ghost view = { λ a. a.query };

    ghost invariant = { λ a. IsPlanOf a.query a.plan };
}

impl Asked {
    // The query with its plan.
    pub(crate) fn new(alloc: Global, query: &Query) -> Result<Asked, NoMemory>
        requires fits { (schemas : Schemas) × IsFitQuery schemas query.now }
        ensures { IfOk result (λ a. a ≡ query.now) }
    {
        fitting_queries();
        let plan = Boxed::new(alloc, plan_of(alloc, query)?)?;
        let query = Boxed::new(alloc, query.copy(alloc)?)?;
        Ok(Asked { query, plan })
    }

    // The query.
    pub(crate) fn query(&self) -> &Query
        ensures { result.now ≡ self.now }
    {
        self.query.get()
    }

    // The answer over the tables: on every day its rows are those of the ordinary query over the tables of
    // that day. Refused only for want of memory.
    pub(crate) fn answered<H: Threads + Sync, T: Tables<Row>, G: Gate + Sync>(
        &self,
        crew: &Crew<'_, H, G>,
        tables: &T,
    ) -> Result<Rel<Row>, NoMemory>
        requires fits { (schemas : Schemas) × IsFitQuery schemas self.now × AreHeld schemas (T.named tables.now) }
        ensures law { IfOk result (λ rel. (d : ℤ) → IsRefDay d →
            relation_at row_order row_at rel d ≡ ordinary_query d (rows_at (T.named tables.now) d) self.now) }
        ensures kinds { IfOk result (λ rel. HaveKinds self.now.first.schema rel) }
        ensures size { IfOk result (λ rel. length rel ≤ query_size (sizes_of (T.named tables.now)) self.now) }
    {
        fitting_queries();
        fitting_rows();
        order_of_rows();
        let rel = exec(crew, self.plan.get(), tables)?;
        rel.some_days();
        Ok(rel)
    }
}
