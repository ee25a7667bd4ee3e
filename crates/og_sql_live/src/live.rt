//! What makes a live table, and what ends it.
ghost use Rattle.og_query.specs.Fits.{IsFitQuery, Schemas};

use crate::function::{put_function, put_triggers};
use crate::indexes::put_indexes;
use crate::places::tables_of;
use crate::rows::put_number;
use og_query::Query;
use og_sql_query::put_query;
use og_sql_text::{Columns, Sql, put_beside, put_table};
use og_value::Name;

/// Appends the table of a live result, whose query is one or several SELECTs with UNION between them over tables alone, and
/// the triggers on these that keep it.
pub fn put_live_table(name: &Name, query: &Query, out: &mut Sql)
    requires fits { (schemas : Schemas) × IsFitQuery schemas query.now }
{
    let tables = tables_of(out.alloc(), query);
    let Some(tables) = out.made(tables) else {
        return;
    };
    put_indexes(query, tables.as_slice(), out);
    put_rows(name, query, out);
    put_function(name, query, tables.as_slice(), out);
    'tables: for table in tables.as_slice() {
        put_triggers(name, &table.name, out);
    }
}

// Appends the table with its rows, and the index by which a row is found.
fn put_rows(name: &Name, query: &Query, out: &mut Sql)
    requires fits { (schemas : Schemas) × IsFitQuery schemas query.now }
{
    let columns = Columns::of(&query.first.schema, out);
    out.put("CREATE TABLE ");
    put_table(name, out);
    out.put(" AS\n");
    put_query(query, out);
    out.put(";\nCREATE INDEX ");
    put_beside(name, "rows", out);
    out.put(" ON ");
    put_table(name, out);
    out.put(" (");
    put_number(&columns, "", out);
    out.put(");\nANALYZE ");
    put_table(name, out);
    out.put(";\n")
}

/// Appends what takes the triggers of a live result away. Its table stays with the rows that it has.
pub fn put_live_end(name: &Name, out: &mut Sql) {
    out.put("DROP FUNCTION ");
    put_beside(name, "live", out);
    out.put("() CASCADE;\n")
}
