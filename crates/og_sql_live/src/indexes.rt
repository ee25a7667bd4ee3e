//! Indexes on the columns by which rows of the tables are found: those that the plan joins by, and items.
ghost use Rattle.og_query.specs.Fits.{IsFitCore, IsFitQuery, Schemas};

use crate::places::{ColumnOf, column_at, select_count};
use og_plan::{ColPair, Plan};
use og_query::{Core, Expr, From1, Query};
use og_sql_query::{plan_of_select, select_at};
use og_sql_text::{Columns, Sql, put_beside, put_table};
use og_value::Kind;

// What an index is for.
#[derive(Clone, Copy, Debug, PartialEq, Eq)]
enum Use {
    // Numbers and texts that are equal to others.
    Key,
    // Periods that overlap others.
    Outer,
}

/// Appends the indexes on the tables, which the query names, each once.
pub fn put_indexes(query: &Query, tables: &[From1], out: &mut Sql)
    requires fits { (schemas : Schemas) × IsFitQuery schemas query.now }
{
    'selects: for number in 0..select_count(query) {
        put_of_select(select_at(query, number), out);
    }
    'tables: for table in tables {
        out.put("ANALYZE ");
        put_table(&table.name, out);
        out.put(";\n");
    }
}

// Appends those for a SELECT.
fn put_of_select(select: &Core, out: &mut Sql)
    requires fits { (schemas : Schemas) × IsFitCore schemas select.now }
{
    let plan = plan_of_select(out.alloc(), select);
    if let Some(plan) = out.made(plan) {
        put_below(&plan, select, out);
    }
    'items: for item in select.items.as_slice() {
        if let Expr::Column(place) = item {
            put_at(select, *place, Use::Key, out);
        }
    }
}

// Appends those for a plan, and gives the number of its tables. It goes as deep as the plan.
#[cycle(indexes)]
fn put_below(plan: &Plan, select: &Core, out: &mut Sql) -> usize {
    match plan {
        Plan::Scan { .. } => 1,
        Plan::Filter { input, .. } | Plan::Project { input, .. } | Plan::Semis { input, .. } => {
            put_below(input.get(), select, out)
        }
        Plan::Product { left, .. } | Plan::Combine { left, .. } => {
            put_below(left.get(), select, out).saturating_add(1)
        }
        Plan::KeyJoin { left, pairs, .. } => {
            let count = put_below(left.get(), select, out);
            put_pairs(pairs.as_slice(), count, select, out);
            count.saturating_add(1)
        }
        Plan::OverlapJoin { left, pair, .. } => {
            let count = put_below(left.get(), select, out);
            put_pair(*pair, Use::Outer, count, select, out);
            count.saturating_add(1)
        }
    }
}

// Appends those on the columns of a key.
fn put_pairs(pairs: &[ColPair], right: usize, select: &Core, out: &mut Sql) {
    'pairs: for pair in pairs {
        put_pair(*pair, Use::Key, right, select, out);
    }
}

// Appends those on a column of the tables before the right one, and on one of that.
fn put_pair(pair: ColPair, what: Use, right: usize, select: &Core, out: &mut Sql) {
    put_at(select, pair.left, what, out);
    put_on(select, right, pair.right, what, out)
}

// Appends the index on the column at that place of the joined row.
fn put_at(select: &Core, place: usize, what: Use, out: &mut Sql) {
    let ColumnOf { table, column } = column_at(select.tables.as_slice(), place);
    put_on(select, table, column, what, out)
}

// Appends the index on that column of that table. One on texts of any length would be refused, so it is on their numbers.
fn put_on(select: &Core, table: usize, column: usize, what: Use, out: &mut Sql) {
    let Some(table) = select.tables.as_slice().get(table) else {
        return;
    };
    if column >= table.schema.len() {
        return;
    }
    match (what, table.schema.column(column).kind) {
        (Use::Outer, _) => put_index(table, column, "outer", " USING gist (\"outer\"(", "))", out),
        (Use::Key, Kind::Int) => put_index(table, column, "key", " (", ")", out),
        (Use::Key, Kind::Text) => put_index(table, column, "key", " (hashtext(", "))", out),
        _ => {}
    }
}

// Appends an index under a name of its own, where it is not there.
fn put_index(table: &From1, column: usize, word: &str, before: &str, behind: &str, out: &mut Sql) {
    let columns = Columns::of(&table.schema, out);
    out.put("CREATE INDEX IF NOT EXISTS ");
    put_beside(&table.name, word, out);
    out.number(column.saturating_add(1));
    out.put(" ON ");
    put_table(&table.name, out);
    out.put(before);
    columns.put(column, out);
    out.put(behind);
    out.put(";\n")
}
