//! VALID: the range of days around a day on which the rows of a name print the same.

use og_base::{ExtDay, NoMemory, RefDay};
use og_sql_query::put_values_at;
use og_sql_text::{Columns, Sql, is_steady_kind, put_table};
use og_value::{Kind, Name, Schema};

/// Appends the SELECTs of the range. The list of the day stays the same where each of its rows is made by some row of
/// the name, and none is made that is not in it.
pub fn put_valid(name: &Name, schema: &Schema, day: RefDay, out: &mut Sql) {
    let columns = Columns::of(schema, out);
    out.put(
        "SELECT 'from,to';\nWITH rows$ AS MATERIALIZED (\n    SELECT row_number() OVER () AS row$, ",
    );
    columns.put_all("l.", out);
    out.put(", range_agg(l.days) AS days FROM ");
    put_table(name, out);
    out.put(" AS l GROUP BY ");
    columns.put_all("l.", out);
    out.put(
        "),\nlist$ AS MATERIALIZED (\n    SELECT row_number() OVER () AS row$, l.* FROM (SELECT DISTINCT ",
    );
    put_values_at(&columns, day, out);
    out.put(" FROM ");
    put_table(name, out);
    out.put(" AS l WHERE l.days @> ");
    out.day(ExtDay::of(day));
    out.put(") AS l),\n");
    put_makes(&columns, out);
    put_range(day, out)
}

// Appends the part of the days on which a row of the name is that of the list.
fn put_makes(columns: &Columns, out: &mut Sql) {
    out.put(
        "makes$ AS MATERIALIZED (\n    SELECT l.row$ AS made, r.row$ AS maker, r.days AS there, '{(,)}'::datemultirange",
    );
    'columns: for i in 0..columns.len() {
        put_same(columns, i, out);
    }
    out.put(" AS days\n    FROM list$ AS l JOIN rows$ AS r ON true");
    put_equals(columns, out);
    out.put("),\n")
}

// Appends the days on which a column of the row is that of the list.
fn put_same(columns: &Columns, i: usize, out: &mut Sql) {
    match columns.kind(i) {
        Kind::Int | Kind::Text => {}
        Kind::Date => {
            out.put(" * same(r.");
            columns.put(i, out);
            out.put(", fixed(l.");
            columns.put(i, out);
            out.put("))")
        }
        Kind::Period => {
            out.put(" * same(r.");
            columns.put(i, out);
            out.put(", period(fixed((l.");
            columns.put(i, out);
            out.put(").first), fixed((l.");
            columns.put(i, out);
            out.put(").until)))")
        }
    }
}

// Appends that the numbers and texts are equal.
fn put_equals(columns: &Columns, out: &mut Sql) {
    'columns: for i in 0..columns.len() {
        if is_steady_kind(columns.kind(i)) {
            out.put(" AND l.");
            columns.put(i, out);
            out.put(" = r.");
            columns.put(i, out);
        }
    }
}

// Appends the SELECT of the range around the day of the days on which all is made, and nothing else.
fn put_range(day: RefDay, out: &mut Sql) {
    out.put(
        "all$ AS (\n    SELECT coalesce(range_intersect_agg(days), '{(,)}') AS days FROM (SELECT range_agg(days * there) AS days FROM makes$ GROUP BY made) AS l),\n",
    );
    out.put(
        "more$ AS (\n    SELECT coalesce(range_agg(days), '{}') AS days FROM (SELECT r.days - coalesce(l.days, '{}') AS days FROM rows$ AS r\n    LEFT JOIN (SELECT maker, range_agg(days) AS days FROM makes$ GROUP BY maker) AS l ON l.maker = r.row$) AS l)\n",
    );
    out.put(
        "SELECT coalesce(show(lower(one)), '-infinity') || ',' || CASE WHEN upper(one) < '10000-01-01' THEN show(upper(one)) ELSE 'infinity' END\n",
    );
    out.put("FROM all$, more$, unnest(all$.days - more$.days) AS one WHERE one @> ");
    out.day(ExtDay::of(day));
    out.put(";\n")
}
