//! The columns that expressions and conditions name.
ghost use Rattle.std.specs.Prelude.{◌≡◌, ◌++◌, OnOk};
ghost use Rattle.std.specs.List.{flat_map};
ghost use Rattle.og_plan.specs.Parts as spec;

use og_base::NoMemory;
use og_query::{Cond, Expr};
use sqlite_items::Items;

// The place of an expression that is a column.
pub(crate) fn column_of(expr: &Expr) -> Option<usize>
    ensures { result ≡ spec.column_of expr.now }
{
    match expr {
        Expr::Column(place) => Some(*place),
        _ => None,
    }
}

// Appends the places of the columns that the expression names.
#[cycle(expr_places)]
fn expr_places(expr: &Expr, out: &mut Vec<usize>) -> Result<(), NoMemory>
    ensures { OnOk result (out.new.items ≡ out.old.items ++ spec.expr_places expr.now) }
{
    match expr {
        Expr::Column(place) => {
            out.push(*place)?;
            Ok(())
        }
        Expr::Lit(_) => Ok(()),
        Expr::Call { args, .. } => all_expr_places(args, out),
    }
}

// Appends the places of the columns that the expressions name.
#[cycle(expr_places)]
fn all_expr_places(exprs: &Items<Expr>, out: &mut Vec<usize>) -> Result<(), NoMemory>
    ensures { OnOk result (out.new.items ≡ out.old.items ++ flat_map spec.expr_places exprs.now) }
{
    'all: for expr in exprs.as_slice() {
        expr_places(expr, out)?;
    }
    Ok(())
}

// Appends the places of the columns that the two expressions name.
fn two_expr_places(left: &Expr, right: &Expr, out: &mut Vec<usize>) -> Result<(), NoMemory>
    ensures { OnOk result (out.new.items ≡ out.old.items ++ (spec.expr_places left.now ++ spec.expr_places right.now)) }
{
    expr_places(left, out)?;
    expr_places(right, out)
}

// Appends the places of the columns that the condition names.
#[cycle(places)]
pub(crate) fn places_of(cond: &Cond, out: &mut Vec<usize>) -> Result<(), NoMemory>
    ensures { OnOk result (out.new.items ≡ out.old.items ++ spec.places_of cond.now) }
{
    match cond {
        Cond::And(conds) => all_places(conds, out),
        Cond::Or(conds) => all_places(conds, out),
        Cond::Not(one) => places_of(one.get(), out),
        Cond::Compare { left, right, .. } => two_expr_places(left, right, out),
        Cond::Relate { left, right, .. } => two_expr_places(left, right, out),
        Cond::Empty(period) => expr_places(period, out),
        Cond::Contains(period, day) => two_expr_places(period, day, out),
    }
}

// Appends the places of the columns that the conditions name.
#[cycle(places)]
fn all_places(conds: &Items<Cond>, out: &mut Vec<usize>) -> Result<(), NoMemory>
    ensures { OnOk result (out.new.items ≡ out.old.items ++ flat_map spec.places_of conds.now) }
{
    'all: for cond in conds.as_slice() {
        places_of(cond, out)?;
    }
    Ok(())
}
