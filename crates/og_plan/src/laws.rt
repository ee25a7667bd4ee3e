//! What is known of queries that fit their tables, over the definitions alone.
ghost use Rattle.std.specs.Prelude.{◌≡◌, Some};
ghost use Rattle.std.specs.List.{All};
ghost use Rattle.og_query.specs.Fits.{Schemas, IsFitQuery};
ghost use Rattle.og_query.specs.declared.query.Query.{Query};
ghost use Rattle.og_plan.specs.PlanOf.{HaveTables};
ghost use Rattle.og_plan.specs.Premises.{AreInRange, query_tables};

/// A query that fits its tables has what its plan takes for granted: each core has a table, its
/// condition names columns of its row alone, and each table is as it is named.
pub fn fitting_queries()
    ensures tables { (schemas : Schemas) (query : Query) → IsFitQuery schemas query → HaveTables query }
    ensures range { (schemas : Schemas) (query : Query) → IsFitQuery schemas query → AreInRange query }
    ensures named { (schemas : Schemas) (query : Query) → IsFitQuery schemas query → All (λ table. schemas table.0 ≡ Some table.1) (query_tables query) }
{}
