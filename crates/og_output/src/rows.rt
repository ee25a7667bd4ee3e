//! Rows of one day as records.
ghost use Rattle.std.specs.Prelude.{◌≡◌, ◌++◌, IfOk, OnOk, map};
ghost use Rattle.std.specs.Fmt.{signed_decimal};
ghost use Rattle.csv.specs.Writing.{default_writer, field_text, row_text};
ghost use Rattle.og_base.specs.Calendar.{day_text};
ghost use Rattle.og_time.specs.Period.{bracketed};
ghost use Rattle.og_value.specs.Cells.{fixed_text};
ghost use Rattle.og_value.specs.Values.{row_at, value_at};
ghost use Rattle.og_output.specs.Records.{records};

use crate::fields::{end_record, push_bytes, push_separator};
use og_base::{ExtDay, FixedPeriod, NoMemory, RefDay, one_text_a_day, write_day};
use og_value::{FixedValue, Row, Sight, Value, write_fixed};
use std::alloc::Global;

/// The records of the texts of each row's values, as a PRINT writes them.
pub fn rows_text(alloc: Global, rows: &[Sight]) -> Result<Vec<u8>, NoMemory>
    ensures { IfOk result (λ v. v.items ≡ records (map (map fixed_text) rows.now)) }
{
    let mut text = Vec::new(alloc);
    'rows: for row in rows {
        let (values, day) = row.parts();
        push_row(values, day, &mut text)?;
    }
    Ok(text)
}

// Adds the record of the texts of the row's values on the day.
fn push_row(row: &Row, day: RefDay, out: &mut Vec<u8>) -> Result<(), NoMemory>
    ensures { OnOk result (out.new.items ≡ out.old.items ++ row_text default_writer (map fixed_text (row_at row.now day))) }
{
    let start = out.len();
    'values: for i in 0..row.len() {
        push_separator(i, out)?;
        push_value(row.value(i), day, out)?;
    }
    end_record(start, out)
}

// Adds the text of the value on the day as a field.
fn push_value(value: &Value, day: RefDay, out: &mut Vec<u8>) -> Result<(), NoMemory>
    ensures { OnOk result (out.new.items ≡ out.old.items ++ field_text default_writer (fixed_text (value_at value.now day))) }
{
    match value {
        Value::Int(number) => push_number(*number, out),
        Value::Text(text) => push_bytes(text.bytes(), out),
        Value::Point(point) => push_day(point.at(day), out),
        Value::Period(period) => push_period(period.at(day), out),
    }
}

// Adds the number, which needs no quotes.
fn push_number(number: i64, out: &mut Vec<u8>) -> Result<(), NoMemory>
    ensures { OnOk result (out.new.items ≡ out.old.items ++ field_text default_writer (signed_decimal number)) }
{
    write_fixed(&FixedValue::Int(number), out)
}

// Adds the text of the day, which needs no quotes.
fn push_day(day: ExtDay, out: &mut Vec<u8>) -> Result<(), NoMemory>
    ensures { OnOk result (out.new.items ≡ out.old.items ++ field_text default_writer (day_text day)) }
{
    one_text_a_day();
    // For its clause: the day is a day of the calendar.
    day.number();
    write_day(day, out)
}

// Adds the text of the period between quotes, since it has a comma.
fn push_period(period: FixedPeriod, out: &mut Vec<u8>) -> Result<(), NoMemory>
    ensures { OnOk result (out.new.items ≡ out.old.items ++ field_text default_writer (bracketed (day_text period.start) (day_text period.end))) }
{
    one_text_a_day();
    // For their clauses: the ends are days of the calendar.
    period.start.number();
    period.end.number();
    out.push(b'"')?;
    write_fixed(&FixedValue::Period(period), out)?;
    out.push(b'"')?;
    Ok(())
}
