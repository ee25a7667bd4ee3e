//! Expressions, conditions and queries.
ghost use Rattle.std.specs.Prelude.{◌≡◌};
ghost use Rattle.og_sql_outside.specs.Outside.{first_in, outside_cond, outside_core, outside_expr, outside_query};

use crate::values::{Outside, value_outside};
use og_query::{Cond, Core, Expr, Query, Rest, Semi};
use sqlite_items::Items;

// The first literal of the expression that cannot be held.
#[cycle(expressions)]
pub(crate) fn expr_outside(expr: &Expr) -> Option<Outside>
    ensures { result ≡ outside_expr expr.now }
{
    match expr {
        Expr::Column(_) => None,
        Expr::Lit(value) => value_outside(value),
        Expr::Call { args, .. } => exprs_outside(args),
    }
}

// The first literal of the expressions that cannot be held.
#[cycle(expressions)]
fn exprs_outside(exprs: &Items<Expr>) -> Option<Outside>
    ensures { result ≡ first_in outside_expr exprs.now }
{
    'exprs: for expr in exprs.as_slice() {
        let found = expr_outside(expr);
        if found.is_some() {
            return found;
        }
    }
    None
}

// The first literal of the condition that cannot be held.
#[cycle(conditions)]
pub(crate) fn cond_outside(cond: &Cond) -> Option<Outside>
    ensures { result ≡ outside_cond cond.now }
{
    match cond {
        Cond::And(parts) => conds_outside(parts),
        Cond::Or(parts) => conds_outside(parts),
        Cond::Not(part) => cond_outside(part.get()),
        Cond::Compare { left, right, .. } | Cond::Relate { left, right, .. } => {
            expr_outside(left).or(expr_outside(right))
        }
        Cond::Empty(period) => expr_outside(period),
        Cond::Contains(period, day) => expr_outside(period).or(expr_outside(day)),
    }
}

// The first literal of the conditions that cannot be held.
#[cycle(conditions)]
fn conds_outside(conds: &Items<Cond>) -> Option<Outside>
    ensures { result ≡ first_in outside_cond conds.now }
{
    'conds: for cond in conds.as_slice() {
        let found = cond_outside(cond);
        if found.is_some() {
            return found;
        }
    }
    None
}

// The first literal of the query that cannot be held.
pub(crate) fn query_outside(query: &Query) -> Option<Outside>
    ensures { result ≡ outside_query query.now }
{
    core_outside(&query.first).or(rests_outside(query.rest.as_slice()))
}

// The first literal of the further cores that cannot be held.
#[tactic(auto, using(crate::proofs::FirstLemmas::firsts))]
fn rests_outside(rests: &[Rest]) -> Option<Outside>
    ensures { result ≡ first_in (λ rest. outside_core rest.core) rests.now }
{
    'rests: for rest in rests {
        let found = core_outside(&rest.core);
        if found.is_some() {
            return found;
        }
    }
    None
}

// The first literal of the core that cannot be held: of the condition, those of EXISTS and the items.
fn core_outside(core: &Core) -> Option<Outside>
    ensures { result ≡ outside_core core.now }
{
    cond_outside(&core.cond)
        .or(semis_outside(core.semis.as_slice()))
        .or(exprs_outside(&core.items))
}

// The first literal of the conditions of EXISTS that cannot be held.
#[tactic(auto, using(crate::proofs::FirstLemmas::firsts))]
fn semis_outside(semis: &[Semi]) -> Option<Outside>
    ensures { result ≡ first_in (λ semi. outside_cond semi.cond) semis.now }
{
    'semis: for semi in semis {
        let found = cond_outside(&semi.cond);
        if found.is_some() {
            return found;
        }
    }
    None
}
