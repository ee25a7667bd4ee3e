//! What new and lost rows of a table do to the live table.
ghost use Rattle.og_query.specs.Fits.{IsFitCore, IsFitQuery, Schemas};

use crate::near::{TOUCHED, put_near};
use crate::places::{is_joined_with_itself, places_with, select_count};
use crate::rows::{put_all, put_equal, put_type};
use og_query::{Core, Query};
use og_sql_query::{Count, Node, Source, put_select, select_at};
use og_sql_text::{Columns, Sql, put_table};
use og_value::Name;

// The rows of a table that changed, and what stands for the table at the other places of FROM, if not the table itself.
#[derive(Drop)]
struct Changed {
    rows: Source,
    table: Option<Source>,
}

/// Appends the statement that adds what the query has by new rows of a table.
pub fn put_added(name: &Name, query: &Query, table: &Name, out: &mut Sql)
    requires fits { (schemas : Schemas) × IsFitQuery schemas query.now }
{
    let columns = Columns::of(&query.first.schema, out);
    let mut count = Count::new(out.alloc());
    let changed = Changed {
        rows: Source::Changed { word: "added" },
        table: None,
    };
    let nodes = put_by(query, table, &changed, &columns, &mut count, out);
    let new = put_new(nodes.as_slice(), &columns, &mut count, out);
    let old = put_old(name, &new, &columns, &mut count, out);
    put_insert(name, &columns, out);
    out.put("(SELECT * FROM ");
    old.put(out);
    out.put(" UNION ALL SELECT * FROM ");
    new.put(out);
    out.put(") AS l GROUP BY ");
    columns.put_places(out)
}

// Appends the part of the new rows, equal ones as one.
fn put_new(nodes: &[Node], columns: &Columns, count: &mut Count, out: &mut Sql) -> Source {
    let source = count.begin("new", "MATERIALIZED ", out);
    out.put("SELECT ");
    columns.put_all("", out);
    out.put(", range_agg(days) AS days FROM (");
    put_all(nodes, columns, ", days", out);
    out.put(") AS l GROUP BY ");
    columns.put_places(out);
    out.put(")");
    source
}

// Appends the part of the rows of the live table that are equal to new ones, which are taken out.
fn put_old(
    name: &Name,
    new: &Source,
    columns: &Columns,
    count: &mut Count,
    out: &mut Sql,
) -> Source {
    let source = count.begin("old", "", out);
    out.put("DELETE FROM ");
    put_table(name, out);
    out.put(" AS l USING ");
    new.put(out);
    out.put(" AS r WHERE ");
    put_equal(columns, out);
    out.put(" RETURNING l.*)");
    source
}

// Appends the first words of what puts rows into the live table, equal ones as one.
fn put_insert(name: &Name, columns: &Columns, out: &mut Sql) {
    out.put("\nINSERT INTO ");
    put_table(name, out);
    out.put(" SELECT ");
    columns.put_all("", out);
    out.put(", range_agg(days) FROM ")
}

/// Appends the query of the rows that the query had by lost rows of a table, without their days: an array of them.
pub fn put_touched(name: &Name, query: &Query, table: &Name, out: &mut Sql)
    requires fits { (schemas : Schemas) × IsFitQuery schemas query.now }
{
    let columns = Columns::of(&query.first.schema, out);
    let mut count = Count::new(out.alloc());
    let changed = put_before(query, table, &mut count, out);
    let nodes = put_by(query, table, &changed, &columns, &mut count, out);
    out.put("\nSELECT array_agg(ROW(");
    columns.put_all("", out);
    out.put(", NULL)::");
    put_type(name, out);
    out.put(") FROM (SELECT DISTINCT * FROM (");
    put_all(nodes.as_slice(), &columns, "", out);
    out.put(") AS l) AS l")
}

// The lost rows. Where a table is joined with itself, appends the part that stands for it at its other places: it has the rows
// that it had before.
fn put_before(query: &Query, table: &Name, count: &mut Count, out: &mut Sql) -> Changed {
    let rows = Source::Changed { word: "lost" };
    if !is_joined_with_itself(query, table) {
        return Changed { rows, table: None };
    }
    let before = count.begin("before", "NOT MATERIALIZED ", out);
    out.put("SELECT * FROM ");
    put_table(table, out);
    out.put(" UNION ALL SELECT * FROM ");
    rows.put(out);
    out.put(")");
    Changed {
        rows,
        table: Some(before),
    }
}

/// Appends the statement that takes touched rows out of the live table.
pub fn put_gone(name: &Name, query: &Query, out: &mut Sql) {
    let columns = Columns::of(&query.first.schema, out);
    out.put("DELETE FROM ");
    put_table(name, out);
    out.put(" AS l USING ");
    out.put(TOUCHED);
    out.put(" AS r WHERE ");
    put_equal(&columns, out)
}

/// Appends the statement that adds what the query still has of touched rows. They are told by a mark and not by a join, which
/// would be slow where there are more of them than PostgreSQL expects.
pub fn put_again(name: &Name, query: &Query, out: &mut Sql)
    requires fits { (schemas : Schemas) × IsFitQuery schemas query.now }
{
    let columns = Columns::of(&query.first.schema, out);
    let mut count = Count::new(out.alloc());
    let nodes = put_still(query, &columns, &mut count, out);
    put_insert(name, &columns, out);
    out.put("(");
    put_all(nodes.as_slice(), &columns, ", days, false AS touched$", out);
    out.put("\n    UNION ALL SELECT ");
    columns.put_all("", out);
    out.put(", '{}', true FROM ");
    out.put(TOUCHED);
    out.put(") AS l GROUP BY ");
    columns.put_places(out);
    out.put(" HAVING bool_or(touched$) AND NOT isempty(range_agg(days))")
}

// Appends the parts of what the query has now by rows that touched rows can be made of, and gives their last nodes.
fn put_still(query: &Query, columns: &Columns, count: &mut Count, out: &mut Sql) -> Vec<Node>
    requires fits { (schemas : Schemas) × IsFitQuery schemas query.now }
{
    let mut nodes = Vec::new(out.alloc());
    'selects: for number in 0..select_count(query) {
        let select = select_at(query, number);
        let places = put_near(select, columns, count, out);
        count.read_from(places);
        add_select(select, columns, count, out, &mut nodes);
    }
    nodes
}

// Appends the parts of a SELECT, and adds its last node.
fn add_select(
    select: &Core,
    columns: &Columns,
    count: &mut Count,
    out: &mut Sql,
    nodes: &mut Vec<Node>,
)
    requires fits { (schemas : Schemas) × IsFitCore schemas select.now }
{
    if let Some(node) = put_select(select, columns, count, out) {
        if nodes.push(node).is_err() {
            out.cut();
        }
    }
}

// Appends the parts of what the query has by the changed rows, and gives their last nodes.
fn put_by(
    query: &Query,
    table: &Name,
    changed: &Changed,
    columns: &Columns,
    count: &mut Count,
    out: &mut Sql,
) -> Vec<Node>
    requires fits { (schemas : Schemas) × IsFitQuery schemas query.now }
{
    let mut nodes = Vec::new(out.alloc());
    'selects: for number in 0..select_count(query) {
        let select = select_at(query, number);
        put_by_select(select, table, changed, columns, count, out, &mut nodes);
    }
    nodes
}

// Appends those of one SELECT, once for each place of the table.
fn put_by_select(
    select: &Core,
    table: &Name,
    changed: &Changed,
    columns: &Columns,
    count: &mut Count,
    out: &mut Sql,
    nodes: &mut Vec<Node>,
)
    requires fits { (schemas : Schemas) × IsFitCore schemas select.now }
{
    'places: for i in 0..select.tables.as_slice().len() {
        if select.tables.as_slice()[i].name == *table {
            let places = places_with(select, i, &changed.rows, &changed.table, out);
            count.read_from(places);
            add_select(select, columns, count, out, nodes);
        }
    }
}
