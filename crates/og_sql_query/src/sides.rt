//! The right sides of EXCEPT and INTERSECT whose rows have neither a number nor a text: tables of their own, with an index by
//! which a row finds those that it may be equal to.
ghost use Rattle.og_query.specs.Fits.{IsFitQuery, Schemas};

use crate::node::{Count, Source};
use crate::selects::{put_select, select_at};
use og_plan::Plan;
use og_query::Query;
use og_sql_text::{Columns, Sql, is_steady_kind};
use og_value::{Kind, SetOp};

/// Whether rows with these columns have neither a number nor a text, by which equal ones are found.
pub fn have_no_key(columns: &Columns) -> bool {
    'columns: for i in 0..columns.len() {
        if is_steady_kind(columns.kind(i)) {
            return false;
        }
    }
    true
}

/// What the right side of a plan is, where it is a table of its own. Asked of each plan once, after its left side.
pub fn side_of(plan: &Plan, answer: &Columns, count: &mut Count) -> Option<Source> {
    let Plan::Combine { op, .. } = plan else {
        return None;
    };
    let number = count.next_combined();
    if *op == SetOp::Union || !have_no_key(answer) {
        return None;
    }
    Some(Source::Side { number })
}

/// Appends the tables of right sides that a query reads, to be taken out by `put_sides_end`.
pub fn put_sides(query: &Query, out: &mut Sql)
    requires fits { (schemas : Schemas) × IsFitQuery schemas query.now }
{
    let columns = Columns::of(&query.first.schema, out);
    'sides: for i in 0..query.rest.as_slice().len() {
        if has_side(query, i, &columns) {
            put_side(query, i.saturating_add(1), &columns, out);
        }
    }
}

/// Appends what takes the tables of right sides out.
pub fn put_sides_end(query: &Query, out: &mut Sql) {
    let columns = Columns::of(&query.first.schema, out);
    'sides: for i in 0..query.rest.as_slice().len() {
        if has_side(query, i, &columns) {
            let number = i.saturating_add(1);
            out.put("DROP TABLE ");
            Source::Side { number }.put(out);
            out.put(";\n");
        }
    }
}

// Whether the right side of a set operator, counted from 0, is a table of its own.
fn has_side(query: &Query, i: usize, columns: &Columns) -> bool {
    match query.rest.as_slice().get(i) {
        Some(rest) => rest.op != SetOp::Union && have_no_key(columns),
        None => false,
    }
}

// Appends the table of the right side of the set operator with that number, and its index.
fn put_side(query: &Query, number: usize, columns: &Columns, out: &mut Sql)
    requires fits { (schemas : Schemas) × IsFitQuery schemas query.now }
{
    let side = Source::Side { number };
    let mut count = Count::new(out.alloc());
    out.put("CREATE TEMP TABLE ");
    side.put(out);
    out.put(" AS\n");
    if let Some(node) = put_select(select_at(query, number), columns, &mut count, out) {
        out.put("\nSELECT ");
        columns.put_all("", out);
        out.put(", days FROM ");
        node.put(out);
    }
    out.put(";\nCREATE INDEX ON ");
    side.put(out);
    out.put(" USING gist (");
    put_days(columns, "", out);
    out.put(");\nANALYZE ");
    side.put(out);
    out.put(";\n");
}

/// Appends the days from the first to the last that the first column may be, or that it may start on, as a range. The
/// column stands under its name behind the word.
pub fn put_days(columns: &Columns, before: &str, out: &mut Sql) {
    let (low, high) = match columns.kind(0) {
        Kind::Period => (").start_low, (", ").start_high, '[]')"),
        _ => (").low, (", ").high, '[]')"),
    };
    out.put("daterange((");
    out.put(before);
    columns.put(0, out);
    out.put(low);
    out.put(before);
    columns.put(0, out);
    out.put(high);
}
