//! That what rows hold are days of the calendar and numbers of 64 bits.
ghost use Rattle.std.specs.Prelude.{FitsSigned};
ghost use Rattle.std.specs.Int.{w64};
ghost use Rattle.std.specs.List.{All};
ghost use Rattle.og_output.specs.Calendars.{AreOfCalendar, IsOfCalendar};

use og_rel::Rel;
use og_value::{Row, Value};

/// On each day the values of all rows are of the calendar. The types keep their values so, but say it of
/// one value at a time: the rows are walked for this contract alone, and nothing else is done.
pub fn of_calendar(rel: &Rel<Row>)
    ensures { AreOfCalendar rel.now }
{
    'rows: for i in 0..rel.len() {
        row_of_calendar(rel.row(i));
    }
}

// The same of the values of a row.
fn row_of_calendar(row: &Row)
    ensures { All IsOfCalendar row.now }
{
    'values: for i in 0..row.len() {
        value_of_calendar(row.value(i));
    }
}

// The same of a value.
fn value_of_calendar(value: &Value)
    ensures { IsOfCalendar value.now }
{
    match value {
        Value::Int(number) => of_64_bits(*number),
        Value::Text(_) => {}
        Value::Point(point) => point.ordered(),
        Value::Period(period) => period.ordered(),
    }
}

// The same of a number.
fn of_64_bits(number: i64)
    ensures { FitsSigned w64 number }
{
    let _ = number;
}
