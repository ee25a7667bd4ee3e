//! The texts of cells.
ghost use Rattle.std.specs.Prelude.{◌≡◌, ◌++◌, Err, List, ℕ, ℤ, IfOk, IfSome, IfNone, OnOk, OnErr};
ghost use Rattle.std.specs.Fmt.{signed_decimal};
ghost use Rattle.og_base.specs.Calendar.{day_text};
ghost use Rattle.og_time.specs.Period.{bracketed};
ghost use Rattle.og_value.specs.Cells.{IsIntText, IsCell, IsFixed, kind_of, cell_text, fixed_text};
ghost use Rattle.og_value.specs.Order.{rank};
ghost use Rattle.og_value.specs.Steady.{steady_value};
ghost use Rattle.og_value.specs.Values.{value_at};
ghost use Rattle.og_value.specs.declared.kind.Kind as kinds;
ghost use Rattle.og_value.specs.declared.value.FixedValue as fixed;
ghost use Rattle.og_value.specs.declared.cell.CellRefusal.{CellRefusal};
ghost use Rattle.og_value.specs.declared.value.Value as values;

use crate::kind::Kind;
use crate::text::{Text, TextRefusal};
use crate::value::{FixedValue, Value};
use itoa::Buffer;
use og_base::{ExtDay, FixedPeriod, NoMemory, write_day};
use og_time::{OngoingPeriod, OngoingPoint, read_period, read_point, write_period, write_point};
use std::alloc::Global;
use std::str;
use thiserror::Error;

/// Why no value was read.
#[derive(Clone, Copy, Debug, PartialEq, Eq, Error)]
pub enum CellRefusal {
    /// The bytes are no cell of the kind.
    #[error("no cell of this kind")]
    NotACell,
    /// Memory ran out.
    #[error("want of memory")]
    NoMemory,
}

/// Reads a cell of the kind: a number of 64 bits with a minus sign or none, a text in UTF-8, a point
/// text or a period text. `NotACell` exactly where the bytes are no such text (docs/FORMATS.md,
/// "Cells").
pub fn read_cell(alloc: Global, kind: Kind, text: &[u8]) -> Result<Value, CellRefusal>
    ensures value { IfOk result (λ v. IsCell kind text.now v) }
    ensures not_a_cell { result ≡ Err CellRefusal.NotACell → (v : values.Value) → ¬ IsCell kind text.now v }
    ensures refused { ((v : values.Value) → ¬ IsCell kind text.now v) → result ≡ Err CellRefusal.NotACell }
{
    match kind {
        Kind::Int => match read_int(text) {
            Some(n) => Ok(Value::Int(n)),
            None => Err(CellRefusal::NotACell),
        },
        Kind::Text => match Text::of(alloc, text) {
            Ok(text) => Ok(Value::Text(text)),
            Err(TextRefusal::NotText) => Err(CellRefusal::NotACell),
            Err(TextRefusal::NoMemory) => Err(CellRefusal::NoMemory),
        },
        Kind::Date => match read_point(text) {
            Ok(point) => Ok(Value::Point(point)),
            Err(_) => Err(CellRefusal::NotACell),
        },
        Kind::Period => match read_period(text) {
            Ok(period) => Ok(Value::Period(period)),
            Err(_) => Err(CellRefusal::NotACell),
        },
    }
}

// Reads a number. std reads a plus sign too, which no cell has.
fn read_int(text: &[u8]) -> Option<i64>
    ensures number { IfSome result (λ n. IsIntText text.now n) }
    ensures lacking { IfNone result ((n : ℤ) → ¬ IsIntText text.now n) }
{
    if text.first() == Some(&b'+') {
        return None;
    }
    let Ok(text) = str::from_utf8(text) else {
        return None;
    };
    text.parse::<i64>().ok()
}

/// Appends the one text of the value, or nothing where memory runs out.
pub fn write_cell(v: &Value, out: &mut Vec<u8>) -> Result<(), NoMemory>
    ensures written { OnOk result (out.new.items ≡ out.old.items ++ cell_text v.now) }
    ensures refused { OnErr result (out.new.items ≡ out.old.items) }
    ensures read_again { IsCell (kind_of v.now) (cell_text v.now) v.now }
{
    match v {
        Value::Int(n) => write_int(*n, out),
        Value::Text(text) => {
            text.utf8();
            write_text(text, out)
        }
        Value::Point(point) => {
            point.ordered();
            write_point(*point, out)
        }
        Value::Period(period) => {
            period.ordered();
            write_period(*period, out)
        }
    }
}

/// Appends the one text of the value of one day, or nothing where memory runs out. Read again it is a value
/// that is this one on all days.
pub fn write_fixed(v: &FixedValue, out: &mut Vec<u8>) -> Result<(), NoMemory>
    ensures written { OnOk result (out.new.items ≡ out.old.items ++ fixed_text v.now) }
    ensures refused { OnErr result (out.new.items ≡ out.old.items) }
    ensures read_again { IsCell (kind_of (steady_value v.now)) (fixed_text v.now) (steady_value v.now) }
    ensures same { (d : ℤ) → value_at (steady_value v.now) d ≡ v.now }
{
    // The calls beside the writers tell what reading it again rests on: that a text is UTF-8 and a day is one.
    match v {
        FixedValue::Int(n) => write_int(*n, out),
        FixedValue::Text(text) => {
            text.utf8();
            write_text(text, out)
        }
        FixedValue::Date(day) => {
            let _ = day.number();
            write_day(*day, out)
        }
        FixedValue::Period(period) => {
            let _ = period.start.number();
            let _ = period.end.number();
            write_fixed_period(*period, out)
        }
    }
}

// Appends the number in decimal.
fn write_int(n: i64, out: &mut Vec<u8>) -> Result<(), NoMemory>
    ensures written { OnOk result (out.new.items ≡ out.old.items ++ signed_decimal n) }
    ensures refused { OnErr result (out.new.items ≡ out.old.items) }
{
    let mut buffer = Buffer::new();
    out.extend_from_slice(buffer.format(n).as_bytes())?;
    Ok(())
}

// Appends the bytes of the text.
fn write_text(text: &Text, out: &mut Vec<u8>) -> Result<(), NoMemory>
    ensures written { OnOk result (out.new.items ≡ out.old.items ++ text.now) }
    ensures refused { OnErr result (out.new.items ≡ out.old.items) }
{
    out.extend_from_slice(text.bytes())?;
    Ok(())
}

// Appends the text of the period, which is that of an ongoing period between fixed points.
fn write_fixed_period(period: FixedPeriod, out: &mut Vec<u8>) -> Result<(), NoMemory>
    ensures written { OnOk result (out.new.items ≡ out.old.items ++ bracketed (day_text period.start) (day_text period.end)) }
    ensures refused { OnErr result (out.new.items ≡ out.old.items) }
{
    let start = fixed_point(period.start);
    let end = fixed_point(period.end);
    write_period(OngoingPeriod::new(start, end), out)
}

// The point that is this day on every day.
fn fixed_point(day: ExtDay) -> OngoingPoint
    ensures { result ≡ record { low = day; high = day } }
{
    OngoingPoint::new(day, day).unwrap()
}

/// Each text is a cell of at most one value of a kind, and two values of one day and one kind have
/// different texts.
pub fn one_text_a_cell()
    ensures one_value { (kind : kinds.Kind) → (text : List ℕ) → (v w : values.Value) → IsCell kind text v → IsCell kind text w → v ≡ w }
    ensures one_text { (x y : fixed.FixedValue) → IsFixed x → IsFixed y → rank x ≡ rank y → fixed_text x ≡ fixed_text y → x ≡ y }
{}
