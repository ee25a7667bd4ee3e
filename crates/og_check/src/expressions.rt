//! The checks of expressions.
ghost use Rattle.std.specs.Prelude.{◌≡◌, map};
ghost use Rattle.og_value.specs.Cells as cells;
ghost use Rattle.og_check.specs.Expressions as spec;
ghost use Rattle.og_check.specs.Expressions.{expr_of, wanted};
ghost use Rattle.og_check.specs.Fronts.{parted};
ghost use Rattle.og_check.specs.Results.{Gives};
ghost use Rattle.og_check.specs.Steps.{in_order};

use crate::columns::found;
use crate::kinds::agree;
use crate::refusal::CheckRefusal;
use crate::sight::Sight;
use og_query::Expr;
use og_syntax::ExprText;
use og_value::{Func, Kind, Value};
use sqlite_items::Items;
use std::alloc::Global;

/// The kind of a value.
pub fn kind_of(value: &Value) -> Kind
    ensures { result ≡ cells.kind_of value.now }
{
    match value {
        Value::Int(_) => Kind::Int,
        Value::Text(_) => Kind::Text,
        Value::Point(_) => Kind::Date,
        Value::Period(_) => Kind::Period,
    }
}

/// The expression over the columns in sight, and its kind.
#[cycle(expressions)]
pub fn expr_of(alloc: Global, sight: &Sight, expr: &ExprText) -> Result<(Expr, Kind), CheckRefusal>
    ensures { Gives result (expr_of sight.now expr.now) }
{
    match expr {
        ExprText::Column { table, name } => {
            let (place, kind) = found(alloc, sight, table, name)?;
            Ok((Expr::Column(place), kind))
        }
        ExprText::Lit(value) => Ok((Expr::Lit(value.copy()?), kind_of(value))),
        ExprText::Call { func, args } => {
            let (args, kinds) = args_of(alloc, sight, args)?;
            call_of(*func, args, &kinds)
        }
    }
}

// The arguments, and their kinds.
#[cycle(expressions)]
fn args_of(
    alloc: Global,
    sight: &Sight,
    args: &Items<ExprText>,
) -> Result<(Items<Expr>, Items<Kind>), CheckRefusal>
    ensures { Gives result (parted (in_order (map (expr_of sight.now) args.now))) }
{
    let mut exprs = Items::new(alloc);
    let mut kinds = Items::new(alloc);
    'each: for arg in args.as_slice() {
        let (expr, kind) = expr_of(alloc, sight, arg)?;
        exprs.push(expr)?;
        kinds.push(kind)?;
    }
    Ok((exprs, kinds))
}

// The function of the arguments, which have these kinds, and the kind that it gives.
fn call_of(func: Func, args: Items<Expr>, kinds: &Items<Kind>) -> Result<(Expr, Kind), CheckRefusal>
    ensures { Gives result (spec.call_of func args kinds.now) }
{
    agree(kinds.as_slice(), wanted(func)).and(Ok((Expr::Call { func, args }, given(func))))
}

// The kinds that a function wants.
fn wanted(func: Func) -> &'static [Kind]
    ensures { result.now ≡ wanted func }
{
    match func {
        Func::Least | Func::Greatest | Func::Period => &[Kind::Date, Kind::Date],
        Func::Common => &[Kind::Period, Kind::Period],
        Func::Start | Func::End => &[Kind::Period],
    }
}

// The kind that a function gives.
fn given(func: Func) -> Kind
    ensures { result ≡ spec.given func }
{
    match func {
        Func::Least | Func::Greatest | Func::Start | Func::End => Kind::Date,
        Func::Common | Func::Period => Kind::Period,
    }
}
