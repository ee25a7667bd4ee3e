//! Calls of procedures on tables that stand on the nodes.

use crate::texts::{put_column, put_name, put_nodes, put_types};
use og_sql_text::{Columns, Sql, put_table};
use og_value::{Name, Schema};

/// Appends the call that makes a table, spread by the column at that place.
pub fn put_make(name: &Name, schema: &Schema, key: usize, out: &mut Sql) {
    put_begin("make", name, schema, key, out);
    out.put(");\n")
}

/// Appends the call that keeps on each node the rows that the query gives there, spread by the column at that place.
pub fn put_keep(name: &Name, schema: &Schema, key: usize, query: &Sql, out: &mut Sql) {
    put_begin("keep", name, schema, key, out);
    out.put(", ");
    put_nodes(query, out);
    out.put(");\n")
}

// Appends the call of the procedure with the name, the column at that place and the columns.
fn put_begin(word: &str, name: &Name, schema: &Schema, key: usize, out: &mut Sql) {
    let columns = Columns::of(schema, out);
    out.put("CALL shards.");
    out.put(word);
    out.put("(");
    put_name(name, out);
    out.put(", ");
    put_column(&columns, key, out);
    out.put(", ");
    put_types(schema, out)
}

/// Appends the call that carries statements out on each node.
pub fn put_run(sql: &Sql, out: &mut Sql) {
    out.put("CALL shards.run(");
    put_nodes(sql, out);
    out.put(");\n")
}

/// Appends the call that counts on each node what PostgreSQL knows of a table's rows.
pub fn put_count(name: &Name, out: &mut Sql) {
    let mut text = Sql::new(out.alloc());
    text.put("ANALYZE ");
    put_table(name, &mut text);
    out.put("CALL shards.run(");
    out.quoted_sql(&text);
    out.put(");\n")
}

/// Appends the call that takes a table out.
pub fn put_gone(name: &Name, out: &mut Sql) {
    out.put("CALL shards.drop(");
    put_name(name, out);
    out.put(");\n")
}
