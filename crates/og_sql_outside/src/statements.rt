//! Statements.
ghost use Rattle.std.specs.Prelude.{◌≡◌};
ghost use Rattle.og_sql_outside.specs.Outside.{first_in, outside_day, outside_expr, outside_statement};

use crate::trees::{cond_outside, expr_outside, query_outside};
use crate::values::{Outside, day_outside, rows_outside};
use og_base::{ExtDay, RefDay};
use og_query::{Assign, Typed};

/// The first value of the statement that PostgreSQL cannot hold: a value of a row, a literal or a day.
pub fn outside_of(typed: &Typed) -> Option<Outside>
    ensures { result ≡ outside_statement typed.now }
{
    match typed {
        Typed::Insert { rows, .. } => rows_outside(rows.as_slice()),
        Typed::Delete { cond, .. } => cond_outside(cond),
        Typed::Update { sets, cond, .. } => sets_outside(sets.as_slice()).or(cond_outside(cond)),
        Typed::Keep { query, .. } | Typed::Live { query, .. } | Typed::Explain { query } => {
            query_outside(query)
        }
        Typed::PrintQuery { query, day } => query_outside(query).or(ref_day_outside(*day)),
        Typed::PrintName { day, .. } | Typed::Valid { day, .. } => ref_day_outside(*day),
        _ => None,
    }
}

// The first literal of the assignments that cannot be held.
#[tactic(auto, using(crate::proofs::FirstLemmas::firsts))]
fn sets_outside(sets: &[Assign]) -> Option<Outside>
    ensures { result ≡ first_in (λ set. outside_expr set.expr) sets.now }
{
    'sets: for set in sets {
        let found = expr_outside(&set.expr);
        if found.is_some() {
            return found;
        }
    }
    None
}

// The day of a PRINT or VALID, where it cannot be held.
fn ref_day_outside(day: RefDay) -> Option<Outside>
    ensures { result ≡ outside_day day }
{
    day_outside(ExtDay::of(day))
}
