//! Values of expressions on a row of one day.
ghost use Rattle.std.specs.Prelude.{◌≡◌, ◌++◌, ℤ, IfOk, OnOk, true, length, map, slice_index_or};
ghost use Rattle.std.specs.List.{list_all};
ghost use Rattle.og_time.specs.FixedOperations.{least_of, greatest_of, common_of};
ghost use Rattle.og_time.specs.Point.{point_at};
ghost use Rattle.og_value.specs.Steady.{is_fixed, is_steady_value};
ghost use Rattle.og_value.specs.Values.{value_at};
ghost use Rattle.og_query.specs.Expressions.{no_value, call_of, meaning};
ghost use Rattle.og_query.specs.Steady.{is_steady_expr};

use crate::expression::Expr;
use og_base::{ExtDay, FixedPeriod, NoMemory};
use og_time::OngoingPoint;
use og_value::{FixedRow, FixedValue, Func, Value};
use sqlite_items::Items;
use std::alloc::Global;

// The same value once more.
pub(crate) fn copy_value(value: &FixedValue) -> Result<FixedValue, NoMemory>
    ensures { IfOk result (λ v. v ≡ value.now) }
{
    let copy = match value {
        FixedValue::Int(n) => FixedValue::Int(*n),
        FixedValue::Text(text) => FixedValue::Text(text.copy()?),
        FixedValue::Date(day) => FixedValue::Date(*day),
        FixedValue::Period(period) => FixedValue::Period(*period),
    };
    Ok(copy)
}

// Appends the values of the row.
pub(crate) fn append_row(row: &FixedRow, out: &mut Vec<FixedValue>) -> Result<(), NoMemory>
    ensures { OnOk result (out.new.items ≡ out.old.items ++ row.now) }
{
    'values: for i in 0..row.len() {
        out.push(copy_value(row.value(i))?)?;
    }
    Ok(())
}

// The day that a fixed point is on all days.
fn fixed_day(point: OngoingPoint) -> ExtDay
    requires fixed { is_fixed point ≡ true }
    ensures { (d : ℤ) → result ≡ point_at point d }
{
    point.low()
}

// The value that a literal has on all days.
fn fixed_value(value: &Value) -> Result<FixedValue, NoMemory>
    requires steady { is_steady_value value.now ≡ true }
    ensures { (d : ℤ) → IfOk result (λ v. v ≡ value_at value.now d) }
{
    let fixed = match value {
        Value::Int(n) => FixedValue::Int(*n),
        Value::Text(text) => FixedValue::Text(text.copy()?),
        Value::Point(point) => FixedValue::Date(fixed_day(*point)),
        Value::Period(period) => FixedValue::Period(FixedPeriod {
            start: fixed_day(period.start()),
            end: fixed_day(period.end()),
        }),
    };
    Ok(fixed)
}

// The lesser of two days.
fn least(a: ExtDay, b: ExtDay) -> ExtDay
    ensures { result ≡ least_of a b }
{
    if b < a { b } else { a }
}

// The greater of two days.
fn greatest(a: ExtDay, b: ExtDay) -> ExtDay
    ensures { result ≡ greatest_of a b }
{
    if a < b { b } else { a }
}

// The period that two have in common.
fn common(p: FixedPeriod, q: FixedPeriod) -> FixedPeriod
    ensures { result ≡ common_of p q }
{
    FixedPeriod {
        start: greatest(p.start, q.start),
        end: least(p.end, q.end),
    }
}

// The function of the values, and the number 0 where it does not take values of these kinds.
fn call(func: Func, values: &[FixedValue]) -> FixedValue
    ensures { result ≡ call_of func values.now }
{
    match (func, values) {
        (Func::Least, [FixedValue::Date(a), FixedValue::Date(b)]) => FixedValue::Date(least(
            *a, *b,
        )),
        (Func::Greatest, [FixedValue::Date(a), FixedValue::Date(b)]) => {
            FixedValue::Date(greatest(*a, *b))
        }
        (Func::Common, [FixedValue::Period(p), FixedValue::Period(q)]) => {
            FixedValue::Period(common(*p, *q))
        }
        (Func::Start, [FixedValue::Period(p)]) => FixedValue::Date(p.start),
        (Func::End, [FixedValue::Period(p)]) => FixedValue::Date(p.end),
        (Func::Period, [FixedValue::Date(a), FixedValue::Date(b)]) => {
            FixedValue::Period(FixedPeriod { start: *a, end: *b })
        }
        _ => FixedValue::Int(0),
    }
}

// The value at the place of the row, and the number 0 where the row has no such place.
fn column(row: &FixedRow, place: usize) -> Result<FixedValue, NoMemory>
    ensures { IfOk result (λ v. v ≡ slice_index_or row.now place no_value) }
{
    if place < row.len() {
        copy_value(row.value(place))
    } else {
        Ok(FixedValue::Int(0))
    }
}

// The value of the expression on the row.
#[cycle(values)]
pub(crate) fn value(alloc: Global, expr: &Expr, row: &FixedRow) -> Result<FixedValue, NoMemory>
    requires steady { is_steady_expr expr.now ≡ true }
    ensures { (d : ℤ) → IfOk result (λ v. v ≡ meaning d row.now expr.now) }
{
    match expr {
        Expr::Column(place) => column(row, *place),
        Expr::Lit(value) => fixed_value(value),
        Expr::Call { func, args } => {
            let values = values_of(alloc, args, row)?;
            Ok(call(*func, values.as_slice()))
        }
    }
}

// The values of the expressions on the row.
#[cycle(values)]
pub(crate) fn values_of(
    alloc: Global,
    exprs: &Items<Expr>,
    row: &FixedRow,
) -> Result<Vec<FixedValue>, NoMemory>
    requires steady { list_all is_steady_expr exprs.now ≡ true }
    ensures { (d : ℤ) → IfOk result (λ vs. vs.items ≡ map (meaning d row.now) exprs.now) }
{
    let mut values = Vec::new(alloc);
    'all: for expr in exprs.as_slice() {
        values.push(value(alloc, expr, row)?)?;
    }
    Ok(values)
}
