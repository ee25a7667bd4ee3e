//! The parts of conditions, and conditions whose places are counted from a later one.
ghost use Rattle.std.specs.Prelude.{◌≡◌, ◌++◌, ◌∷◌, [], IfOk, OnOk, map};
ghost use Rattle.std.specs.List.{flat_map};
ghost use Rattle.og_query.specs.declared.condition.Cond.TheVariants as conditions;
ghost use Rattle.og_plan.specs.Parts as spec;

use og_base::NoMemory;
use og_query::{Cond, Expr};
use sqlite_items::{Boxed, Items};
use std::alloc::Global;

// The parts of the condition: it is taken apart at every AND that no OR or NOT encloses.
#[cycle(parts)]
pub(crate) fn parts_of(alloc: Global, cond: &Cond) -> Result<Items<Cond>, NoMemory>
    ensures { IfOk result (λ parts. parts ≡ spec.parts_of cond.now) }
{
    match cond {
        Cond::And(conds) => all_parts(alloc, conds),
        _ => one_part(alloc, cond),
    }
}

// The parts of the conditions, one after the other.
#[cycle(parts)]
fn all_parts(alloc: Global, conds: &Items<Cond>) -> Result<Items<Cond>, NoMemory>
    ensures { IfOk result (λ parts. parts ≡ flat_map spec.parts_of conds.now) }
{
    let mut all = Items::new(alloc);
    'conds: for cond in conds.as_slice() {
        all.append(parts_of(alloc, cond)?)?;
    }
    Ok(all)
}

// The condition as the one part.
fn one_part(alloc: Global, cond: &Cond) -> Result<Items<Cond>, NoMemory>
    ensures { IfOk result (λ parts. parts ≡ cond.now ∷ []) }
{
    let mut parts = Items::new(alloc);
    add_copy(alloc, cond, &mut parts)?;
    Ok(parts)
}

// Appends a copy of the condition.
pub(crate) fn add_copy(alloc: Global, cond: &Cond, parts: &mut Items<Cond>) -> Result<(), NoMemory>
    ensures { OnOk result (parts.new ≡ parts.old ++ cond.now ∷ []) }
{
    parts.push(cond.copy(alloc)?)?;
    Ok(())
}

// The expression with its places counted from that one.
#[cycle(expr_from)]
fn expr_from(alloc: Global, start: usize, expr: &Expr) -> Result<Expr, NoMemory>
    ensures { IfOk result (λ e. e ≡ spec.expr_from start expr.now) }
{
    match expr {
        Expr::Column(place) => Ok(Expr::Column(place.saturating_sub(start))),
        Expr::Lit(value) => Ok(Expr::Lit(value.copy()?)),
        Expr::Call { func, args } => Ok(Expr::Call {
            func: *func,
            args: exprs_from(alloc, start, args)?,
        }),
    }
}

// The expressions with their places counted from that one.
#[cycle(expr_from)]
fn exprs_from(alloc: Global, start: usize, exprs: &Items<Expr>) -> Result<Items<Expr>, NoMemory>
    ensures { IfOk result (λ es. es ≡ map (spec.expr_from start) exprs.now) }
{
    let mut moved = Items::new(alloc);
    'all: for expr in exprs.as_slice() {
        moved.push(expr_from(alloc, start, expr)?)?;
    }
    Ok(moved)
}

// Two expressions with their places counted from that one.
fn pair_from(
    alloc: Global,
    start: usize,
    left: &Expr,
    right: &Expr,
) -> Result<(Expr, Expr), NoMemory>
    ensures { IfOk result (λ pair. (pair.0 ≡ spec.expr_from start left.now) × (pair.1 ≡ spec.expr_from start right.now)) }
{
    let left = expr_from(alloc, start, left)?;
    let right = expr_from(alloc, start, right)?;
    Ok((left, right))
}

// The negation of the condition.
fn negated(alloc: Global, cond: Cond) -> Result<Cond, NoMemory>
    ensures { IfOk result (λ c. c ≡ conditions.Not cond) }
{
    Ok(Cond::Not(Boxed::new(alloc, cond)?))
}

// The condition with its places counted from that one.
#[cycle(cond_from)]
fn cond_from(alloc: Global, start: usize, cond: &Cond) -> Result<Cond, NoMemory>
    ensures { IfOk result (λ c. c ≡ spec.cond_from start cond.now) }
{
    match cond {
        Cond::And(conds) => Ok(Cond::And(all_from(alloc, start, conds)?)),
        Cond::Or(conds) => Ok(Cond::Or(all_from(alloc, start, conds)?)),
        Cond::Not(one) => negated(alloc, cond_from(alloc, start, one.get())?),
        Cond::Compare { op, left, right } => {
            let (left, right) = pair_from(alloc, start, left, right)?;
            let op = *op;
            Ok(Cond::Compare { op, left, right })
        }
        Cond::Relate { pred, left, right } => {
            let (left, right) = pair_from(alloc, start, left, right)?;
            let pred = *pred;
            Ok(Cond::Relate { pred, left, right })
        }
        Cond::Empty(period) => Ok(Cond::Empty(expr_from(alloc, start, period)?)),
        Cond::Contains(period, day) => {
            let (period, day) = pair_from(alloc, start, period, day)?;
            Ok(Cond::Contains(period, day))
        }
    }
}

// The conditions with their places counted from that one.
#[cycle(cond_from)]
pub(crate) fn all_from(
    alloc: Global,
    start: usize,
    conds: &Items<Cond>,
) -> Result<Items<Cond>, NoMemory>
    ensures { IfOk result (λ cs. cs ≡ map (spec.cond_from start) conds.now) }
{
    let mut moved = Items::new(alloc);
    'all: for cond in conds.as_slice() {
        moved.push(cond_from(alloc, start, cond)?)?;
    }
    Ok(moved)
}
