//! Tables that Citus spreads. Nothing here was tried against Citus.

use crate::texts::{put_column, put_name};
use og_sql_text::{Columns, Sql};
use og_value::{Name, Schema};

/// Appends what spreads a table by the column at that place; without one, what copies it to all nodes.
pub fn put_distribute(name: &Name, schema: &Schema, key: Option<usize>, out: &mut Sql) {
    let columns = Columns::of(schema, out);
    match key {
        Some(place) => {
            out.put("SELECT create_distributed_table(");
            put_name(name, out);
            out.put(", ");
            put_column(&columns, place, out);
        }
        None => {
            out.put("SELECT create_reference_table(");
            put_name(name, out);
        }
    }
    out.put(") \\g /dev/null\n")
}
