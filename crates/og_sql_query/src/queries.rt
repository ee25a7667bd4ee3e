//! Queries: their plans as a WITH, and the SELECT behind it.
ghost use Rattle.og_query.specs.Fits.{IsFitQuery, Schemas};

use crate::node::{Count, Node, Source};
use crate::plans::put_plan;
use crate::sides::{put_sides, put_sides_end};
use og_base::{ExtDay, NoMemory, RefDay};
use og_plan::{fitting_queries, plan_of};
use og_query::Query;
use og_sql_text::{Columns, Sql};
use og_value::{Kind, Name, Schema};

/// Appends the WITH of a query, which fits its tables, and the SELECT of its rows with their days. The tables that
/// `put_sides` appends stand before it. Where memory runs out
/// the text is cut.
pub fn put_query(query: &Query, out: &mut Sql)
    requires fits { (schemas : Schemas) × IsFitQuery schemas query.now }
{
    let mut count = Count::new(out.alloc());
    let Some(node) = put_parts(query, &mut count, out) else {
        return;
    };
    out.put("\nSELECT ");
    node.columns.put_all("", out);
    out.put(", days FROM ");
    node.put(out)
}

/// Appends the same with the rows in rising order, in which ongq mostly has them. Where memory runs out the text is cut.
pub fn put_ordered_query(query: &Query, out: &mut Sql)
    requires fits { (schemas : Schemas) × IsFitQuery schemas query.now }
{
    put_query(query, out);
    let columns = Columns::of(&query.first.schema, out);
    out.put(" ORDER BY ");
    columns.put_places(out)
}

// Appends the WITH of a query, and gives its last node, if memory did not run out.
fn put_parts(query: &Query, count: &mut Count, out: &mut Sql) -> Option<Node>
    requires fits { (schemas : Schemas) × IsFitQuery schemas query.now }
{
    fitting_queries();
    let answer = Columns::of(&query.first.schema, out);
    let plan = plan_of(out.alloc(), query);
    match out.made(plan) {
        Some(plan) => Some(put_plan(&plan, &answer, count, out)),
        None => None,
    }
}

/// Appends the SELECTs that print the rows of a query, which fits its tables, on the day. Where memory runs out the text is cut.
pub fn put_print_query(query: &Query, day: RefDay, out: &mut Sql)
    requires fits { (schemas : Schemas) × IsFitQuery schemas query.now }
{
    put_sides(query, out);
    put_header(&query.first.schema, out);
    let mut count = Count::new(out.alloc());
    if let Some(node) = put_parts(query, &mut count, out) {
        put_printed(&node, day, &mut count, out);
    }
    put_sides_end(query, out);
}

/// Appends the SELECTs that print the rows of a name on the day. Where memory runs out the text is cut.
pub fn put_print_name(name: &Name, schema: &Schema, day: RefDay, out: &mut Sql) {
    let source = Source::of_table(name, out);
    put_print(source, schema, day, out);
}

/// Appends the SELECTs that print on the day what the nodes answer. Where memory runs out the text is cut.
pub fn put_print_asked(schema: &Schema, day: RefDay, out: &mut Sql) {
    put_print(Source::Asked, schema, day, out)
}

// Appends the SELECTs that print the rows of the source on the day.
fn put_print(source: Source, schema: &Schema, day: RefDay, out: &mut Sql) {
    put_header(schema, out);
    let columns = Columns::of(schema, out);
    let node = Node { source, columns };
    let mut count = Count::new(out.alloc());
    put_printed(&node, day, &mut count, out)
}

// Appends the SELECT of the record of the columns' names.
fn put_header(schema: &Schema, out: &mut Sql) {
    out.put("SELECT '");
    'columns: for i in 0..schema.len() {
        out.put(if i > 0 { "," } else { "" });
        out.put_bytes(schema.column(i).name.bytes());
    }
    out.put("';\n")
}

// Appends the SELECT of a record for each row on the day, in order.
fn put_printed(node: &Node, day: RefDay, count: &mut Count, out: &mut Sql) {
    let source = count.begin("shown", "", out);
    out.put("SELECT DISTINCT ");
    put_values_at(&node.columns, day, out);
    out.put("\n    FROM ");
    node.put(out);
    out.put(" AS l WHERE l.days @> ");
    out.day(ExtDay::of(day));
    out.put(")\nSELECT ");
    put_cells(&node.columns, out);
    out.put(" FROM ");
    source.put(out);
    out.put(" AS l ORDER BY ");
    node.columns.put_all("l.", out);
    out.put(";\n")
}

/// Appends the values of a row on the day, each under its name, with commas between them.
pub fn put_values_at(columns: &Columns, day: RefDay, out: &mut Sql) {
    'columns: for i in 0..columns.len() {
        out.put(if i > 0 { ", " } else { "" });
        put_value_at(columns, i, day, out);
    }
}

// Appends the value of a column on the day.
fn put_value_at(columns: &Columns, i: usize, day: RefDay, out: &mut Sql) {
    match columns.kind(i) {
        Kind::Int | Kind::Text => {
            out.put("l.");
            columns.put(i, out)
        }
        Kind::Date | Kind::Period => {
            out.put("ongoing.at(l.");
            columns.put(i, out);
            out.put(", ");
            out.day(ExtDay::of(day));
            out.put(") AS ");
            columns.put(i, out)
        }
    }
}

// Appends the record of a row as ongq writes it. A record of one empty text has two quotes.
fn put_cells(columns: &Columns, out: &mut Sql) {
    if columns.len() == 1 && columns.kind(0) == Kind::Text {
        out.put("CASE WHEN l.");
        columns.put(0, out);
        out.put(" = '' THEN '\"\"' ELSE field(l.");
        columns.put(0, out);
        return out.put(") END");
    }
    put_fields(columns, "l.", out)
}

/// Appends the fields of a record, with commas between them: each value under its name behind the word.
pub fn put_fields(columns: &Columns, before: &str, out: &mut Sql) {
    'columns: for i in 0..columns.len() {
        out.put(if i > 0 { " || ',' || " } else { "" });
        put_field(columns, i, before, out);
    }
}

// Appends the field of a column.
fn put_field(columns: &Columns, i: usize, before: &str, out: &mut Sql) {
    let (call, end) = match columns.kind(i) {
        Kind::Int => ("", "::text"),
        Kind::Text => ("field(", ")"),
        Kind::Date => ("show(", ")"),
        Kind::Period => ("'\"' || show(", ") || '\"'"),
    };
    out.put(call);
    out.put(before);
    columns.put(i, out);
    out.put(end)
}
