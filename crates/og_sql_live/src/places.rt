//! The tables of a query, and the places of FROM at which they stand.

use og_base::NoMemory;
use og_query::{Core, From1, Query};
use og_sql_query::{Source, select_at};
use og_sql_text::Sql;
use og_value::Name;
use std::alloc::Global;

/// The number of SELECTs of a query.
pub fn select_count(query: &Query) -> usize {
    query.rest.as_slice().len().saturating_add(1)
}

/// Each table of a query once, in the order of FROM.
pub fn tables_of(alloc: Global, query: &Query) -> Result<Vec<From1>, NoMemory> {
    let mut tables = Vec::new(alloc);
    'selects: for number in 0..select_count(query) {
        add_tables(select_at(query, number), &mut tables)?;
    }
    Ok(tables)
}

// Adds the tables of a SELECT that are not there.
fn add_tables(select: &Core, tables: &mut Vec<From1>) -> Result<(), NoMemory> {
    'tables: for table in select.tables.as_slice() {
        if count_in(tables.as_slice(), &table.name) == 0 {
            tables.push(table.copy()?)?;
        }
    }
    Ok(())
}

/// At how many places the table stands.
pub fn count_in(tables: &[From1], name: &Name) -> usize {
    tables.iter().filter(|table| table.name == *name).count()
}

/// Whether some SELECT of the query has the table at two places.
pub fn is_joined_with_itself(query: &Query, name: &Name) -> bool {
    'selects: for number in 0..select_count(query) {
        if count_in(select_at(query, number).tables.as_slice(), name) > 1 {
            return true;
        }
    }
    false
}

/// What the places of a SELECT read where the changed rows stand at that place: at other places of the same table what
/// stands for it, where something does, and else its table.
pub fn places_with(
    select: &Core,
    place: usize,
    changed: &Source,
    table: &Option<Source>,
    out: &mut Sql,
) -> Vec<Option<Source>> {
    let tables = select.tables.as_slice();
    let mut places = Vec::new(out.alloc());
    'places: for i in 0..tables.len() {
        let source = if i == place {
            Some(changed.copy(out))
        } else {
            standing(tables, i, place, table, out)
        };
        if places.push(source).is_err() {
            out.cut();
        }
    }
    places
}

// What stands for a table at a place where it is that of the other place.
fn standing(
    tables: &[From1],
    at: usize,
    other: usize,
    table: &Option<Source>,
    out: &mut Sql,
) -> Option<Source> {
    match table {
        Some(source) if are_of_one_name(tables, at, other) => Some(source.copy(out)),
        _ => None,
    }
}

// Whether one table stands at both places.
fn are_of_one_name(tables: &[From1], one: usize, two: usize) -> bool {
    match (tables.get(one), tables.get(two)) {
        (Some(one), Some(two)) => one.name == two.name,
        _ => false,
    }
}

/// A column of a table of FROM.
#[derive(Clone, Copy, Debug, PartialEq, Eq)]
pub struct ColumnOf {
    /// The place of its table in FROM, from 0.
    pub table: usize,
    /// Its place in the table, from 0.
    pub column: usize,
}

/// The column at that place of the joined row of tables. Without a table at the place, the last one is given with a column
/// that it has not.
pub fn column_at(tables: &[From1], place: usize) -> ColumnOf {
    let mut found = ColumnOf {
        table: 0,
        column: place,
    };
    'tables: for table in tables {
        if found.column < table.schema.len() {
            return found;
        }
        found = ColumnOf {
            table: found.table.saturating_add(1),
            column: found.column - table.schema.len(),
        };
    }
    found
}
