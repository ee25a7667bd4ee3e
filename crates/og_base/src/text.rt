//! The texts of days.
ghost use Rattle.std.specs.Prelude.{◌≡◌, ◌↔◌, ◌++◌, ◌⊎◌, ◌<◌, ◌≤ℤ◌, ℤ, pos, true, List, ℕ, IfOk, OnOk, OnErr};
ghost use Rattle.std.specs.Prelude.{Ok};
ghost use Rattle.jiff_core.specs.Date.{epoch_day};
ghost use Rattle.jiff_fmt.specs.Text.{date_text};
ghost use Rattle.og_base.specs.Bytes.{Lacks};
ghost use Rattle.og_base.specs.Calendar.{IsDayText, IsRefDayText, IsExtDay, IsRefDay, day_text, before_all, after_all};

use crate::day::{ExtDay, RefDay};
use crate::memory::NoMemory;
use jiff_core::civil::Date;
use jiff_fmt::temporal;
use jiff_fmt::temporal::DateTimePrinter;
use thiserror::Error;

/// The bytes are no day text.
#[derive(Clone, Copy, Debug, PartialEq, Eq, Error)]
#[error("no day text")]
pub struct NotADay;

/// Reads a day text: the ten bytes `2020-02-29` in a year from 0 to 9999, the thirteen bytes
/// `-000044-03-15` in a year before 0, `-infinity` or `infinity`. Refused exactly where the bytes
/// are none of these (docs/FORMATS.md, "Days").
pub fn read_day(text: &[u8]) -> Result<ExtDay, NotADay>
    ensures value { IfOk result (IsDayText text.now) }
    ensures refused { OnErr result ((n : ℤ) → ¬ IsDayText text.now n) }
{
    if text == b"-infinity".as_slice() {
        return Ok(ExtDay::NEG);
    }
    if text == b"infinity".as_slice() {
        return Ok(ExtDay::POS);
    }
    let day = read_ref_day(text)?;
    Ok(ExtDay::of(day))
}

/// Reads the day text of a reference day. Refused exactly where the bytes are no such text, the
/// texts of the infinities among them.
pub fn read_ref_day(text: &[u8]) -> Result<RefDay, NotADay>
    ensures value { IfOk result (IsRefDayText text.now) }
    ensures refused { OnErr result ((n : ℤ) → ¬ IsRefDayText text.now n) }
{
    let Ok(date) = temporal::parse_date(text) else {
        return Err(NotADay);
    };
    // jiff reads more than these texts, so what it read is written again and compared.
    if !is_text_of(text, date) {
        return Err(NotADay);
    }
    day_of(date)
}

// Whether the bytes are the day text of the date.
fn is_text_of(text: &[u8], date: Date) -> bool
    ensures { (result ≡ true) ↔ (text.now ≡ date_text date) }
{
    if date.year < 0 {
        return DateTimePrinter::new().date_text(date).as_str().as_bytes() == text;
    }
    text == ten_bytes(date).as_slice()
}

// The day text of a date in a year from 0 on, at once: jiff's printer adds letter by letter.
fn ten_bytes(date: Date) -> [u8; 10]
    requires { pos 0 ≤ℤ date.year }
    ensures { result ≡ date_text date }
{
    let year = unsigned(date.year);
    [
        b'0' + (year / 1000) as u8,
        b'0' + (year / 100 % 10) as u8,
        b'0' + (year / 10 % 10) as u8,
        b'0' + (year % 10) as u8,
        b'-',
        b'0' + date.month / 10,
        b'0' + date.month % 10,
        b'-',
        b'0' + date.day / 10,
        b'0' + date.day % 10,
    ]
}

// The day of a date.
fn day_of(date: Date) -> Result<RefDay, NotADay>
    ensures { result ≡ Ok (epoch_day date) }
{
    RefDay::from_number(date.to_unix_epoch_day()).ok_or(NotADay)
}

/// Appends the one text of the day, or nothing where memory runs out.
pub fn write_day(day: ExtDay, out: &mut Vec<u8>) -> Result<(), NoMemory>
    ensures written { OnOk result (out.new.items ≡ out.old.items ++ day_text day) }
    ensures refused { OnErr result (out.new.items ≡ out.old.items) }
{
    let Some(day) = day.as_ref_day() else {
        return write_end(day, out);
    };
    let Ok(date) = Date::from_unix_epoch_day(i64::from(day.number())) else {
        unreachable!()
    };
    write_date(date, out)
}

// The number of a year from 0 on.
fn unsigned(year: i16) -> u16
    requires { pos 0 ≤ℤ year }
    ensures { pos result ≡ year }
{
    year.unsigned_abs()
}

// Appends the day text of the date.
fn write_date(date: Date, out: &mut Vec<u8>) -> Result<(), NoMemory>
    ensures written { OnOk result (out.new.items ≡ out.old.items ++ date_text date) }
    ensures refused { OnErr result (out.new.items ≡ out.old.items) }
{
    if date.year < 0 {
        let written = DateTimePrinter::new().date_text(date);
        out.extend_from_slice(written.as_str().as_bytes())?;
        return Ok(());
    }
    out.extend_from_slice(ten_bytes(date).as_slice())?;
    Ok(())
}

// Appends the text of an infinity.
fn write_end(end: ExtDay, out: &mut Vec<u8>) -> Result<(), NoMemory>
    requires { (end ≡ before_all) ⊎ (end ≡ after_all) }
    ensures written { OnOk result (out.new.items ≡ out.old.items ++ day_text end) }
    ensures refused { OnErr result (out.new.items ≡ out.old.items) }
{
    if end == ExtDay::NEG {
        out.extend_from_slice(b"-infinity")?;
    } else {
        out.extend_from_slice(b"infinity")?;
    }
    Ok(())
}

/// Reading and writing are one another's inverse: each day has one text, each text is of at most
/// one day, and the text that is written for a day is its text.
pub fn one_text_a_day()
    ensures one_text { (s t : List ℕ) (n : ℤ) → IsDayText s n → IsDayText t n → s ≡ t }
    ensures one_day { (s : List ℕ) (m n : ℤ) → IsDayText s m → IsDayText s n → m ≡ n }
    ensures written { (n : ℤ) → IsExtDay n → IsDayText (day_text n) n }
    // No byte is below the dash, so a comma or a plus sign parts day texts.
    ensures bytes { (s : List ℕ) (n : ℤ) (b : ℕ) → b < 45 → IsDayText s n → Lacks b s }
{}
