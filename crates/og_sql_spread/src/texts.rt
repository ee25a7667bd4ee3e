//! Texts that the procedures take.

use og_sql_text::{Columns, Sql, put_dollars, put_table};
use og_value::{Name, Schema};

/// Appends SQL for the nodes as a text.
pub fn put_nodes(sql: &Sql, out: &mut Sql) {
    put_dollars("nodes", sql, out)
}

/// Appends the name of a table as a text.
pub fn put_name(name: &Name, out: &mut Sql) {
    let mut text = Sql::new(out.alloc());
    put_table(name, &mut text);
    out.quoted_sql(&text)
}

/// Appends the name of a column as a text.
pub fn put_column(columns: &Columns, place: usize, out: &mut Sql) {
    let mut text = Sql::new(out.alloc());
    columns.put(place, &mut text);
    out.quoted_sql(&text)
}

/// Appends the columns of a schema, as CREATE TABLE has them, as a text.
pub fn put_types(schema: &Schema, out: &mut Sql) {
    let mut text = Sql::new(out.alloc());
    Columns::of(schema, out).put_types(&mut text);
    put_nodes(&text, out)
}
