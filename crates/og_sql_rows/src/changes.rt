//! INSERT, DELETE and UPDATE.

use crate::copies::put_copy;
use crate::ways::Way;
use og_query::{Assign, Cond};
use og_sql_spread::put_run;
use og_sql_text::{
    Columns, Sight, Sql, has_days, parts_in, put_expr, put_products, put_table, put_tests,
    put_value,
};
use og_value::{Name, Row, Schema};

// The most rows that an INSERT writes as tuples.
const MOST: usize = 100;

/// Appends the rows, which go into the table: as tuples, or as a COPY where there are many.
pub fn put_insert(way: Way, name: &Name, schema: &Schema, rows: &[Row], out: &mut Sql) {
    if rows.is_empty() {
        return;
    }
    if rows.len() > MOST {
        return put_copy(way, name, schema, rows, out);
    }
    out.put("INSERT INTO ");
    put_table(name, out);
    out.put(" VALUES\n");
    'rows: for i in 0..rows.len() {
        out.put(if i > 0 { ",\n    (" } else { "    (" });
        put_tuple(&rows[i], out);
        out.put(")");
    }
    out.put(";\n")
}

// Appends the values of a row.
fn put_tuple(row: &Row, out: &mut Sql) {
    'values: for i in 0..row.len() {
        out.put(if i > 0 { ", " } else { "" });
        put_value(row.value(i), out);
    }
}

/// Appends the statements that take rows out on the days on which the condition holds.
pub fn put_delete(way: Way, name: &Name, schema: &Schema, cond: &Cond, out: &mut Sql) {
    if let Way::Shards(_) = way {
        let mut text = Sql::new(out.alloc());
        put_delete_here(name, schema, cond, &mut text);
        return put_run(&text, out);
    }
    put_delete_here(name, schema, cond, out)
}

// Appends the statements that take rows out, on the server where they stand.
fn put_delete_here(name: &Name, schema: &Schema, cond: &Cond, out: &mut Sql) {
    let columns = Columns::of(schema, out);
    let none = Columns::none(out.alloc());
    let sight = Sight {
        left: &columns,
        right: &none,
    };
    let parts = parts_in(cond);
    if !has_days(parts, sight) {
        out.put("DELETE FROM ");
        put_table(name, out);
        out.put(" AS l");
        put_tests(" WHERE ", parts, sight, out);
        return out.put(";\n");
    }
    out.put("UPDATE ");
    put_table(name, out);
    out.put(" AS l SET days = l.days - (l.days");
    put_products(parts, sight, out);
    out.put(")");
    put_hit(parts, sight, out);
    out.put(";\nDELETE FROM ");
    put_table(name, out);
    out.put(" WHERE isempty(days);\n")
}

// Appends that parts, of which some depend on the day, hold on some day of a row: all other rows stay untouched.
fn put_hit(parts: &[Cond], sight: Sight<'_>, out: &mut Sql) {
    let word = put_tests(" WHERE ", parts, sight, out);
    out.put(word);
    out.put("NOT isempty(l.days");
    put_products(parts, sight, out);
    out.put(")")
}

/// Appends the statement that replaces rows by those with the new values, on the days on which the condition holds.
pub fn put_update(
    way: Way,
    name: &Name,
    schema: &Schema,
    sets: &[Assign],
    cond: &Cond,
    out: &mut Sql,
) {
    let columns = Columns::of(schema, out);
    let none = Columns::none(out.alloc());
    let sight = Sight {
        left: &columns,
        right: &none,
    };
    let parts = parts_in(cond);
    if is_moving(way, sets, has_days(parts, sight)) {
        return put_moving_update(name, sets, parts, sight, out);
    }
    if let Way::Shards(_) = way {
        let mut text = Sql::new(out.alloc());
        put_update_here(name, sets, parts, sight, &mut text);
        return put_run(&text, out);
    }
    put_update_here(name, sets, parts, sight, out)
}

// Whether rows have to be taken out and put in again: where they may go to another node, and where Citus does not do both
// in one statement.
fn is_moving(way: Way, sets: &[Assign], has_days: bool) -> bool {
    match way {
        Way::Here => false,
        Way::Shards(key) | Way::Citus(Some(key)) if is_set(sets, key) => true,
        Way::Shards(_) => false,
        Way::Citus(_) => has_days,
    }
}

// Whether a column has a new value.
fn is_set(sets: &[Assign], place: usize) -> bool {
    'sets: for set in sets {
        if set.column == place {
            return true;
        }
    }
    false
}

// Appends the statements that take the rows out and put in what they become.
fn put_moving_update(
    name: &Name,
    sets: &[Assign],
    parts: &[Cond],
    sight: Sight<'_>,
    out: &mut Sql,
) {
    out.put("BEGIN;\nCREATE TEMP TABLE old$ ON COMMIT DROP AS SELECT * FROM ");
    put_table(name, out);
    out.put(" AS l");
    put_taken(parts, sight, out);
    out.put(";\nDELETE FROM ");
    put_table(name, out);
    out.put(" AS l");
    put_taken(parts, sight, out);
    out.put(";\n");
    put_replaced(name, sets, parts, sight, out);
    out.put("COMMIT;\n")
}

// Appends which rows are taken out: those for which the parts hold on some day.
fn put_taken(parts: &[Cond], sight: Sight<'_>, out: &mut Sql) {
    if has_days(parts, sight) {
        return put_hit(parts, sight, out);
    }
    put_tests(" WHERE ", parts, sight, out);
}

// Appends the statement that replaces rows, on the server where they stand.
fn put_update_here(name: &Name, sets: &[Assign], parts: &[Cond], sight: Sight<'_>, out: &mut Sql) {
    if !has_days(parts, sight) {
        return put_plain_update(name, sets, parts, sight, out);
    }
    out.put("WITH old$ AS (DELETE FROM ");
    put_table(name, out);
    out.put(" AS l");
    put_hit(parts, sight, out);
    out.put(" RETURNING l.*)\n");
    put_replaced(name, sets, parts, sight, out)
}

// Appends the INSERT of what the rows that were taken out become.
fn put_replaced(name: &Name, sets: &[Assign], parts: &[Cond], sight: Sight<'_>, out: &mut Sql) {
    out.put("INSERT INTO ");
    put_table(name, out);
    out.put(" SELECT * FROM (SELECT ");
    sight.left.put_all("l.", out);
    out.put(", l.days - (l.days");
    put_products(parts, sight, out);
    out.put(") AS days FROM old$ AS l\n    UNION ALL SELECT ");
    put_new(sets, sight, out);
    out.put("l.days");
    put_products(parts, sight, out);
    out.put(" FROM old$ AS l) AS new WHERE NOT isempty(days);\n")
}

// Appends the UPDATE of rows on all of their days.
fn put_plain_update(name: &Name, sets: &[Assign], parts: &[Cond], sight: Sight<'_>, out: &mut Sql) {
    out.put("UPDATE ");
    put_table(name, out);
    out.put(" AS l SET ");
    'sets: for i in 0..sets.len() {
        out.put(if i > 0 { ", " } else { "" });
        sight.left.put(sets[i].column, out);
        out.put(" = ");
        put_expr(&sets[i].expr, sight, out);
    }
    put_tests(" WHERE ", parts, sight, out);
    out.put(";\n")
}

// Appends the values of the new row, with a comma behind each.
fn put_new(sets: &[Assign], sight: Sight<'_>, out: &mut Sql) {
    'columns: for i in 0..sight.left.len() {
        put_new_value(sets, i, sight, out);
        out.put(", ");
    }
}

// Appends the new value of a column: that of its assignment, or the old one.
fn put_new_value(sets: &[Assign], place: usize, sight: Sight<'_>, out: &mut Sql) {
    'sets: for set in sets {
        if set.column == place {
            return put_expr(&set.expr, sight, out);
        }
    }
    sight.put_column(place, out)
}
