//! The checks of conditions.
ghost use Rattle.std.specs.Prelude.{◌≡◌, ◌∷◌, [], map};
ghost use Rattle.og_value.specs.declared.kind.Kind.TheVariants as kinds;
ghost use Rattle.og_check.specs.Expressions as spec;
ghost use Rattle.og_check.specs.Expressions.{cond_of};
ghost use Rattle.og_check.specs.Fronts.{with_front};
ghost use Rattle.og_check.specs.Operands.{operands_of};
ghost use Rattle.og_check.specs.Results.{Gives, wrote};
ghost use Rattle.og_check.specs.Steps.{in_order};

use crate::expressions::expr_of;
use crate::kinds::same_kind;
use crate::refusal::CheckRefusal;
use crate::sight::Sight;
use og_query::{Cond, Expr};
use og_syntax::{CondText, ExprText};
use og_value::{Cmp, Kind, Pred};
use sqlite_items::{Boxed, Items};
use std::alloc::Global;

/// The condition over the columns in sight.
#[cycle(conditions)]
pub fn cond_of(alloc: Global, sight: &Sight, cond: &CondText) -> Result<Cond, CheckRefusal>
    ensures { Gives result (cond_of sight.now cond.now) }
{
    match cond {
        CondText::And(parts) => Ok(Cond::And(parts_of(alloc, sight, parts)?)),
        CondText::Or(parts) => Ok(Cond::Or(parts_of(alloc, sight, parts)?)),
        CondText::Not(part) => {
            let part = cond_of(alloc, sight, part.get())?;
            Ok(Cond::Not(Boxed::new(alloc, part)?))
        }
        CondText::Compare { op, left, right } => compare_of(alloc, sight, *op, left, right),
        CondText::Relate { pred, left, right } => relate_of(alloc, sight, *pred, left, right),
        CondText::Empty(period) => empty_of(alloc, sight, period),
        CondText::Contains(period, day) => contains_of(alloc, sight, period, day),
    }
}

// The parts of a condition.
#[cycle(conditions)]
fn parts_of(
    alloc: Global,
    sight: &Sight,
    parts: &Items<CondText>,
) -> Result<Items<Cond>, CheckRefusal>
    ensures { Gives result (in_order (map (cond_of sight.now) parts.now)) }
{
    let mut conds = Items::new(alloc);
    'each: for part in parts.as_slice() {
        conds.push(cond_of(alloc, sight, part)?)?;
    }
    Ok(conds)
}

// Two operands and their kinds, from the left.
fn operands_of(
    alloc: Global,
    sight: &Sight,
    left: &ExprText,
    right: &ExprText,
) -> Result<((Expr, Kind), (Expr, Kind)), CheckRefusal>
    ensures { Gives result (operands_of sight.now left.now right.now) }
{
    let left = expr_of(alloc, sight, left)?;
    match expr_of(alloc, sight, right) {
        Ok(right) => Ok((left, right)),
        Err(refusal) => {
            drop(left);
            Err(refusal)
        }
    }
}

// A comparison of two of one kind, other than periods.
fn compare_of(
    alloc: Global,
    sight: &Sight,
    op: Cmp,
    left: &ExprText,
    right: &ExprText,
) -> Result<Cond, CheckRefusal>
    ensures { Gives result (spec.compare_of sight.now op left.now right.now) }
{
    let ((left, first), (right, second)) = operands_of(alloc, sight, left, right)?;
    comparable(first, second).and(Ok(Cond::Compare { op, left, right }))
}

// The fault of two operands of a comparison.
fn comparable(left: Kind, right: Kind) -> Result<(), CheckRefusal>
    ensures { Gives result (spec.comparable left right) }
{
    match left {
        Kind::Period => Err(CheckRefusal::KindsDiffer {
            found: Kind::Period,
            wanted: Kind::Date,
        }),
        _ => same_kind(right, left),
    }
}

// A predicate on two periods.
fn relate_of(
    alloc: Global,
    sight: &Sight,
    pred: Pred,
    left: &ExprText,
    right: &ExprText,
) -> Result<Cond, CheckRefusal>
    ensures { Gives result (spec.relate_of sight.now pred left.now right.now) }
{
    let ((left, first), (right, second)) = operands_of(alloc, sight, left, right)?;
    same_kind(first, Kind::Period)
        .and(same_kind(second, Kind::Period))
        .and(Ok(Cond::Relate { pred, left, right }))
}

// The test of a period for days.
fn empty_of(alloc: Global, sight: &Sight, period: &ExprText) -> Result<Cond, CheckRefusal>
    ensures { Gives result (spec.empty_of sight.now period.now) }
{
    let (period, kind) = expr_of(alloc, sight, period)?;
    same_kind(kind, Kind::Period).and(Ok(Cond::Empty(period)))
}

// The test of a period for a day.
fn contains_of(
    alloc: Global,
    sight: &Sight,
    period: &ExprText,
    day: &ExprText,
) -> Result<Cond, CheckRefusal>
    ensures { Gives result (spec.contains_of sight.now period.now day.now) }
{
    let ((period, first), (day, second)) = operands_of(alloc, sight, period, day)?;
    same_kind(first, Kind::Period)
        .and(same_kind(second, Kind::Date))
        .and(Ok(Cond::Contains(period, day)))
}

/// Adds the condition, where there is one.
pub fn add_cond(
    alloc: Global,
    sight: &Sight,
    cond: &Option<CondText>,
    conds: &mut Items<Cond>,
) -> Result<(), CheckRefusal>
    ensures { Gives (wrote conds.new result) (with_front conds.old (spec.conds_of sight.now cond.now)) }
{
    if let Some(cond) = cond {
        conds.push(cond_of(alloc, sight, cond)?)?;
    }
    Ok(())
}

/// The condition, and one that is true where there is none.
pub fn where_of(alloc: Global, sight: &Sight, cond: &Option<CondText>) -> Result<Cond, CheckRefusal>
    ensures { Gives result (spec.where_of sight.now cond.now) }
{
    match cond {
        Some(cond) => cond_of(alloc, sight, cond),
        None => Ok(Cond::And(Items::new(alloc))),
    }
}
