//! Rows as the lines of COPY.

use crate::ways::Way;
use og_base::{DayRange, ExtDay, NoMemory, RefDay, RtSet};
use og_rel::Rel;
use og_sql_spread::put_count;
use og_sql_text::{Columns, Sql, put_table};
use og_time::{OngoingPeriod, OngoingPoint};
use og_value::{Name, Row, Schema, Value};
use std::slice;

/// Appends the COPY of rows that are there on all days, and the ANALYZE of their table.
pub fn put_copy(way: Way, name: &Name, schema: &Schema, rows: &[Row], out: &mut Sql) {
    begin_copy(way, name, schema, "", out);
    'rows: for row in rows {
        put_row(row, out);
        out.put("\n");
    }
    end_copy(way, name, out)
}

/// Appends the COPY of rows with their days, and the ANALYZE of their table.
pub fn put_copy_of_days(way: Way, name: &Name, schema: &Schema, rel: &Rel<Row>, out: &mut Sql) {
    begin_copy(way, name, schema, ", days", out);
    'rows: for i in 0..rel.len() {
        put_row(rel.row(i), out);
        out.put("\t");
        put_set(rel.days(i), out);
        out.put("\n");
    }
    end_copy(way, name, out)
}

// Appends the first line. A COPY into tables of other servers is slow: their rows go into a table here first.
fn begin_copy(way: Way, name: &Name, schema: &Schema, days: &str, out: &mut Sql) {
    let columns = Columns::of(schema, out);
    if let Way::Shards(_) = way {
        out.put("CREATE TEMP TABLE rows$ (");
        columns.put_types(out);
        out.put(");\nCOPY rows$ (");
    } else {
        out.put("COPY ");
        put_table(name, out);
        out.put(" (");
    }
    columns.put_all("", out);
    out.put(days);
    out.put(") FROM stdin;\n")
}

// Appends the last line, and what counts the rows for PostgreSQL.
fn end_copy(way: Way, name: &Name, out: &mut Sql) {
    out.put("\\.\n");
    if let Way::Shards(_) = way {
        out.put("INSERT INTO ");
        put_table(name, out);
        out.put(" SELECT * FROM rows$;\nDROP TABLE rows$;\n");
        return put_count(name, out);
    }
    out.put("ANALYZE ");
    put_table(name, out);
    out.put(";\n")
}

// Appends the fields of a row.
fn put_row(row: &Row, out: &mut Sql) {
    'values: for i in 0..row.len() {
        out.put(if i > 0 { "\t" } else { "" });
        put_field(row.value(i), out);
    }
}

// Appends the field of a value.
fn put_field(value: &Value, out: &mut Sql) {
    match value {
        Value::Int(n) => out.signed(*n),
        Value::Text(text) => put_text(text.bytes(), out),
        Value::Point(point) => {
            out.put("(");
            put_ends(*point, out);
            out.put(")")
        }
        Value::Period(period) => put_period(*period, out),
    }
}

// Appends the bytes of a text.
fn put_text(bytes: &[u8], out: &mut Sql) {
    'bytes: for b in bytes {
        match *b {
            b'\\' => out.put("\\\\"),
            b'\n' => out.put("\\n"),
            b'\r' => out.put("\\r"),
            b'\t' => out.put("\\t"),
            _ => out.put_bytes(slice::from_ref(b)),
        }
    }
}

// Appends both ends of a point.
fn put_ends(point: OngoingPoint, out: &mut Sql) {
    out.plain_day(point.low());
    out.put(",");
    out.plain_day(point.high())
}

// Appends the field of a period.
fn put_period(period: OngoingPeriod, out: &mut Sql) {
    out.put("(");
    put_ends(period.start(), out);
    out.put(",");
    put_ends(period.end(), out);
    out.put(")")
}

// Appends the field of a set of days.
fn put_set(days: &RtSet, out: &mut Sql) {
    out.put("{");
    'ranges: for i in 0..days.range_count() {
        out.put(if i > 0 { "," } else { "" });
        put_range(days.range(i), out);
    }
    out.put("}")
}

// Appends a range, without a bound where it is open.
fn put_range(range: DayRange, out: &mut Sql) {
    out.put("[");
    put_lower(range.lo, out);
    out.put(",");
    put_upper(range.hi, out);
    out.put(")")
}

// Appends the first day of a range, where it is not the first of all.
fn put_lower(day: RefDay, out: &mut Sql) {
    if day == RefDay::FIRST {
        return;
    }
    out.plain_day(ExtDay::of(day))
}

// Appends the day behind a range, where it ends.
fn put_upper(day: ExtDay, out: &mut Sql) {
    if day == ExtDay::POS {
        return;
    }
    out.plain_day(day)
}
