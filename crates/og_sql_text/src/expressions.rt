//! Values and expressions.

use crate::sight::Sight;
use crate::sql::Sql;
use og_base::NoMemory;
use og_query::Expr;
use og_value::{Func, Value, write_cell};
use sqlite_items::Items;
use std::alloc::Global;

/// Appends a value.
pub fn put_value(value: &Value, out: &mut Sql) {
    match value {
        Value::Int(n) => put_int(*n, out),
        Value::Text(text) => {
            out.put("text ");
            out.quoted(text.bytes());
            out.put(" COLLATE \"C\"")
        }
        Value::Point(_) => put_read("read_point(", value, out),
        Value::Period(_) => put_read("read_period(", value, out),
    }
}

// Appends a number of 64 bits.
fn put_int(n: i64, out: &mut Sql) {
    out.put("bigint '");
    out.signed(n);
    out.put("'")
}

// Appends a call with the cell of a value.
fn put_read(call: &str, value: &Value, out: &mut Sql) {
    let text = cell_of(value, out.alloc());
    if let Some(text) = out.made(text) {
        out.put(call);
        out.quoted(text.as_slice());
        out.put(")");
    }
}

// The cell of a value.
fn cell_of(value: &Value, alloc: Global) -> Result<Vec<u8>, NoMemory> {
    let mut text = Vec::new(alloc);
    write_cell(value, &mut text)?;
    Ok(text)
}

// The function of the extension.
fn function_of(func: Func) -> &'static str {
    match func {
        Func::Least => "ongoing.least(",
        Func::Greatest => "ongoing.greatest(",
        Func::Common => "common(",
        Func::Start => "start_of(",
        Func::End => "end_of(",
        Func::Period => "period(",
    }
}

/// Appends an expression.
#[cycle(expressions)]
pub fn put_expr(expr: &Expr, sight: Sight<'_>, out: &mut Sql) {
    match expr {
        Expr::Column(place) => sight.put_column(*place, out),
        Expr::Lit(value) => put_value(value, out),
        Expr::Call { func, args } => {
            out.put(function_of(*func));
            put_args(args, sight, out);
            out.put(")")
        }
    }
}

// Appends expressions with commas between them.
#[cycle(expressions)]
fn put_args(args: &Items<Expr>, sight: Sight<'_>, out: &mut Sql) {
    let mut comma = "";
    'args: for arg in args.as_slice() {
        out.put(comma);
        put_expr(arg, sight, out);
        comma = ", ";
    }
}
