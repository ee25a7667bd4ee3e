//! Values of expressions on a row that depends on the day.
ghost use Rattle.std.specs.Prelude.{◌≡◌, ℤ, IfOk, map, slice_index_or};
ghost use Rattle.og_base.specs.Calendar.{IsRefDay};
ghost use Rattle.og_value.specs.Values.{value_at, row_at};
ghost use Rattle.og_query.specs.Expressions.{no_value, call_of, meaning};

use crate::columns::Columns;
use og_base::NoMemory;
use og_query::Expr;
use og_time::OngoingPeriod;
use og_value::{Func, Row, Value};
use std::alloc::Global;

// The function of the values, and the number 0 where it does not take values of these kinds.
fn call(func: Func, values: &[Value]) -> Value
    ensures { (d : ℤ) → IsRefDay d → value_at result d ≡ call_of func (row_at values.now d) }
{
    match values {
        [Value::Point(p), Value::Point(q)] => match func {
            Func::Least => Value::Point(p.least(*q)),
            Func::Greatest => Value::Point(p.greatest(*q)),
            Func::Period => Value::Period(OngoingPeriod::new(*p, *q)),
            _ => Value::Int(0),
        },
        [Value::Period(i)] => match func {
            Func::Start => Value::Point(i.start()),
            Func::End => Value::Point(i.end()),
            _ => Value::Int(0),
        },
        [Value::Period(i), Value::Period(j)] => match func {
            Func::Common => Value::Period(i.common(*j)),
            _ => Value::Int(0),
        },
        _ => Value::Int(0),
    }
}

// The value at the place, and the number 0 where there is no such place.
fn column(columns: &Columns<'_>, place: usize) -> Result<Value, NoMemory>
    ensures { IfOk result (λ v. (d : ℤ) → value_at v d ≡ slice_index_or (row_at columns.now d) place no_value) }
{
    match columns.get(place) {
        Some(value) => value.copy(),
        None => Ok(Value::Int(0)),
    }
}

/// The value that is, on each day, the value of the expression on the row of that day.
pub fn value_on(alloc: Global, expr: &Expr, row: &Row) -> Result<Value, NoMemory>
    ensures { IfOk result (λ v. (d : ℤ) → IsRefDay d → value_at v d ≡ meaning d (row_at row.now d) expr.now) }
{
    let none = Row::empty(alloc);
    let columns = Columns {
        left: row,
        right: &none,
    };
    value(alloc, expr, &columns)
}

// The value of the expression on the columns.
#[cycle(values)]
pub(crate) fn value(alloc: Global, expr: &Expr, columns: &Columns<'_>) -> Result<Value, NoMemory>
    ensures { IfOk result (λ v. (d : ℤ) → IsRefDay d → value_at v d ≡ meaning d (row_at columns.now d) expr.now) }
{
    match expr {
        Expr::Column(place) => column(columns, *place),
        Expr::Lit(value) => value.copy(),
        Expr::Call { func, args } => {
            let values = values_of(alloc, args.as_slice(), columns)?;
            Ok(call(*func, values.as_slice()))
        }
    }
}

// The values of the expressions on the columns.
#[cycle(values)]
pub(crate) fn values_of(
    alloc: Global,
    exprs: &[Expr],
    columns: &Columns<'_>,
) -> Result<Vec<Value>, NoMemory>
    ensures { IfOk result (λ vs. (d : ℤ) → IsRefDay d → row_at vs.items d ≡ map (meaning d (row_at columns.now d)) exprs.now) }
{
    let mut values = Vec::with_capacity(alloc, exprs.len())?;
    'all: for expr in exprs {
        values.push(value(alloc, expr, columns)?)?;
    }
    Ok(values)
}
