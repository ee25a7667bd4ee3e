//! Which queries are the same on all days.
ghost use Rattle.std.specs.Prelude.{◌≡◌};
ghost use Rattle.std.specs.List.{list_all};
ghost use Rattle.og_query.specs.Steady as meant;

use crate::condition::Cond;
use crate::expression::Expr;
use crate::query::{Core, Query, Rest, Semi};
use sqlite_items::Items;

impl Query {
    ghost use Rattle.og_query.specs.Steady.{is_steady};

    /// Whether each literal of the query is the same on all days.
    pub fn is_steady(&self) -> bool
        ensures { result ≡ is_steady self.now }
    {
        is_steady_core(&self.first) && are_steady_rests(self.rest.as_slice())
    }
}

// Whether the literals of all of the cores are the same on all days.
fn are_steady_rests(rests: &[Rest]) -> bool
    ensures { result ≡ list_all (λ rest. meant.is_steady_core rest.core) rests.now }
{
    rests.iter().all(|rest| is_steady_core(&rest.core))
}

// Whether the literals of the core are the same on all days.
fn is_steady_core(core: &Core) -> bool
    ensures { result ≡ meant.is_steady_core core.now }
{
    is_steady_cond(&core.cond)
        && are_steady_semis(core.semis.as_slice())
        && are_steady_exprs(&core.items)
}

// Whether the literals of all of the semis are the same on all days.
fn are_steady_semis(semis: &[Semi]) -> bool
    ensures { result ≡ list_all (λ semi. meant.is_steady_cond semi.cond) semis.now }
{
    semis.iter().all(|semi| is_steady_cond(&semi.cond))
}

// Whether the literals of the condition are the same on all days.
#[cycle(steady_conditions)]
fn is_steady_cond(cond: &Cond) -> bool
    ensures { result ≡ meant.is_steady_cond cond.now }
{
    match cond {
        Cond::And(parts) => are_steady_conds(parts),
        Cond::Or(parts) => are_steady_conds(parts),
        Cond::Not(part) => is_steady_cond(part.get()),
        Cond::Compare { left, right, .. } | Cond::Relate { left, right, .. } => {
            is_steady_expr(left) && is_steady_expr(right)
        }
        Cond::Empty(period) => is_steady_expr(period),
        Cond::Contains(period, day) => is_steady_expr(period) && is_steady_expr(day),
    }
}

// Whether the literals of all of the conditions are the same on all days.
#[cycle(steady_conditions)]
fn are_steady_conds(all: &Items<Cond>) -> bool
    ensures { result ≡ list_all meant.is_steady_cond all.now }
{
    'all: for one in all.as_slice() {
        if !is_steady_cond(one) {
            return false;
        }
    }
    true
}

// Whether the literals of the expression are the same on all days.
#[cycle(steady_expressions)]
fn is_steady_expr(expr: &Expr) -> bool
    ensures { result ≡ meant.is_steady_expr expr.now }
{
    match expr {
        Expr::Column(_) => true,
        Expr::Lit(value) => value.is_steady(),
        Expr::Call { args, .. } => are_steady_exprs(args),
    }
}

// Whether the literals of all of the expressions are the same on all days.
#[cycle(steady_expressions)]
fn are_steady_exprs(all: &Items<Expr>) -> bool
    ensures { result ≡ list_all meant.is_steady_expr all.now }
{
    'all: for one in all.as_slice() {
        if !is_steady_expr(one) {
            return false;
        }
    }
    true
}
