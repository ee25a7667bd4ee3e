//! Rows of the live table, and which are equal.

use og_sql_query::Node;
use og_sql_text::{Columns, Sql, put_table};
use og_value::{Kind, Name};

/// Appends the values of a row as one, each column under its name behind the word. Dates and periods are their ends there,
/// as those of a column are of another type than those of a call.
pub fn put_row(columns: &Columns, before: &str, out: &mut Sql) {
    out.put("ROW(");
    'columns: for i in 0..columns.len() {
        out.put(if i > 0 { ", " } else { "" });
        out.put(before);
        columns.put(i, out);
        out.put(match columns.kind(i) {
            Kind::Int | Kind::Text => "",
            Kind::Date => "::point_ends",
            Kind::Period => "::period_ends",
        });
    }
    out.put(")")
}

/// Appends the number of a row that the index has.
pub fn put_number(columns: &Columns, before: &str, out: &mut Sql) {
    out.put("hash_record(");
    put_row(columns, before, out);
    out.put(")")
}

/// Appends that the values of the rows `l` and `r` are equal.
pub fn put_equal(columns: &Columns, out: &mut Sql) {
    put_number(columns, "l.", out);
    out.put(" = ");
    put_number(columns, "r.", out);
    out.put(" AND record_eq(");
    put_row(columns, "l.", out);
    out.put(", ");
    put_row(columns, "r.", out);
    out.put(")")
}

/// Appends the rows of all nodes, one after the other, with the days or without them.
pub fn put_all(nodes: &[Node], columns: &Columns, days: &str, out: &mut Sql) {
    'nodes: for i in 0..nodes.len() {
        out.put(if i > 0 {
            "\n    UNION ALL SELECT "
        } else {
            "SELECT "
        });
        columns.put_all("", out);
        out.put(days);
        out.put(" FROM ");
        nodes[i].put(out);
    }
}

/// Appends the type of the rows of the live table. The schema stands before it, as a type of PostgreSQL may have its name.
pub fn put_type(name: &Name, out: &mut Sql) {
    out.put("public.");
    put_table(name, out)
}
