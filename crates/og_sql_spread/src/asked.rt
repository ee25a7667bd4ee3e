//! Queries that each node answers with its part.

use crate::texts::{put_name, put_nodes, put_types};
use og_sql_text::{Columns, Sql, put_table};
use og_value::{Name, Schema};

/// For what a query is asked.
#[derive(Clone, Copy)]
pub enum Asked<'a> {
    /// For one statement.
    Once,
    /// For the live result of that name.
    Live(&'a Name),
}

/// Appends the call that gives the query a name, under which each node answers with its part.
pub fn put_ask(asked: Asked<'_>, schema: &Schema, query: &Sql, out: &mut Sql) {
    out.put("CALL shards.ask(");
    put_asked(asked, out);
    out.put(", ");
    put_types(schema, out);
    out.put(", ");
    put_nodes(query, out);
    out.put(");\n")
}

/// Appends the call that takes the name out again, if a query has it.
pub fn put_forget(asked: Asked<'_>, out: &mut Sql) {
    out.put("CALL shards.forget(");
    put_asked(asked, out);
    out.put(");\n")
}

// Appends the name as a text.
fn put_asked(asked: Asked<'_>, out: &mut Sql) {
    match asked {
        Asked::Once => out.put("'asked$'"),
        Asked::Live(name) => put_name(name, out),
    }
}

/// Appends the SELECT of the rows of all parts, of which equal ones are one.
pub fn put_merged(asked: Asked<'_>, schema: &Schema, out: &mut Sql) {
    let columns = Columns::of(schema, out);
    out.put("SELECT ");
    columns.put_all("", out);
    out.put(", range_agg(days) AS days FROM parts.");
    match asked {
        Asked::Once => out.put("asked$"),
        Asked::Live(name) => put_table(name, out),
    }
    out.put(" GROUP BY ");
    columns.put_places(out)
}
