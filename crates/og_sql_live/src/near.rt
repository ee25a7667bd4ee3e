//! The rows of tables that touched rows of the live table can be made of.

use crate::places::{ColumnOf, column_at};
use og_base::NoMemory;
use og_query::{Core, Expr};
use og_sql_query::{Count, Source};
use og_sql_text::{Columns, Sql, is_steady_kind, put_table};
use og_value::Kind;
use std::alloc::Global;

/// The touched rows, which a statement is given as an array: so PostgreSQL knows how many they are.
pub const TOUCHED: &str = "unnest($1)";

// A column of a table that is an item of the SELECT, by both places.
#[derive(Clone, Copy, Debug, PartialEq, Eq)]
struct Shown {
    item: usize,
    column: usize,
}

/// Appends for each table of a SELECT the part of its rows whose numbers and texts are those of a touched row, where some
/// are items. Gives what the places of FROM then read.
pub fn put_near(
    select: &Core,
    columns: &Columns,
    count: &mut Count,
    out: &mut Sql,
) -> Vec<Option<Source>> {
    let mut places = Vec::new(out.alloc());
    'places: for i in 0..select.tables.as_slice().len() {
        let place = put_near_at(select, i, columns, count, out);
        if places.push(place).is_err() {
            out.cut();
        }
    }
    places
}

// Appends the part of the rows of the table at that place.
fn put_near_at(
    select: &Core,
    place: usize,
    columns: &Columns,
    count: &mut Count,
    out: &mut Sql,
) -> Option<Source> {
    let shown = shown_of(out.alloc(), select, place);
    let Some(shown) = out.made(shown) else {
        return None;
    };
    let Some(table) = select.tables.as_slice().get(place) else {
        return None;
    };
    if shown.is_empty() {
        return None;
    }
    let source = count.begin("near", "", out);
    let own = Columns::of(&table.schema, out);
    out.put("SELECT l.* FROM ");
    put_table(&table.name, out);
    out.put(" AS l WHERE (");
    put_values(shown.as_slice(), false, &own, "l.", out);
    out.put(") IN (SELECT ");
    put_values(shown.as_slice(), true, columns, "", out);
    out.put(" FROM ");
    out.put(TOUCHED);
    out.put("))");
    Some(source)
}

// The numbers and texts of the table at that place that are items.
fn shown_of(alloc: Global, select: &Core, place: usize) -> Result<Vec<Shown>, NoMemory> {
    let items = select.items.as_slice();
    let mut shown = Vec::new(alloc);
    'items: for item in 0..items.len() {
        if let Some(column) = column_shown(select, &items[item], place) {
            shown.push(Shown { item, column })?;
        }
    }
    Ok(shown)
}

// The column of the table at that place that the item is, where it is a number or a text.
fn column_shown(select: &Core, item: &Expr, place: usize) -> Option<usize> {
    let Expr::Column(at) = item else {
        return None;
    };
    let ColumnOf { table, column } = column_at(select.tables.as_slice(), *at);
    if table == place && is_steady_at(select, table, column) {
        Some(column)
    } else {
        None
    }
}

// Whether the column is a number or a text.
fn is_steady_at(select: &Core, table: usize, column: usize) -> bool {
    match select.tables.as_slice().get(table) {
        Some(table) if column < table.schema.len() => {
            is_steady_kind(table.schema.column(column).kind)
        }
        _ => false,
    }
}

// Appends the columns, each under its name behind the word. Before a text stands its number, on which there is an index.
fn put_values(shown: &[Shown], of_items: bool, columns: &Columns, before: &str, out: &mut Sql) {
    'shown: for i in 0..shown.len() {
        let place = if of_items {
            shown[i].item
        } else {
            shown[i].column
        };
        out.put(if i > 0 { ", " } else { "" });
        put_value(place, columns, before, out);
    }
}

// Appends the column at that place.
fn put_value(place: usize, columns: &Columns, before: &str, out: &mut Sql) {
    if columns.kind(place) == Kind::Text {
        out.put("hashtext(");
        out.put(before);
        columns.put(place, out);
        out.put("), ");
    }
    out.put(before);
    columns.put(place, out)
}
