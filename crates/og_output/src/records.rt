//! The records that statements print, as csv writes them.
ghost use Rattle.std.specs.Prelude.{◌≡◌, ◌++◌, ◌∷◌, [], IfOk, OnOk, map};
ghost use Rattle.csv.specs.Writing.{default_writer, row_text};
ghost use Rattle.og_base.specs.Calendar.{day_text};
ghost use Rattle.og_base.specs.SetTexts.{lower_text};
ghost use Rattle.og_output.specs.Records.{names_text, range_records, records, what_word};

use crate::fields::{end_record, push_field};
use og_base::{DayRange, ExtDay, NoMemory, RefDay, write_day};
use og_db::Db;
use og_value::{Catalog, Schema, What};
use std::alloc::Global;

/// The record of the columns' names, with which a PRINT begins.
pub fn header_text(alloc: Global, schema: &Schema) -> Result<Vec<u8>, NoMemory>
    ensures { IfOk result (λ v. v.items ≡ records (map (λ column. column.name) schema.now ∷ [])) }
{
    let mut text = Vec::new(alloc);
    'columns: for i in 0..schema.len() {
        push_field(i, schema.column(i).name.bytes(), &mut text)?;
    }
    end_record(0, &mut text)?;
    Ok(text)
}

/// The names as TABLES writes them: the record `name,what`, then one for each name.
pub fn names_text(alloc: Global, db: &Db) -> Result<Vec<u8>, NoMemory>
    ensures { IfOk result (λ v. v.items ≡ names_text db.now) }
{
    let mut text = Vec::new(alloc);
    push_two(b"name", b"what", &mut text)?;
    db.names_differ();
    'names: for i in 0..db.len() {
        let name = db.name_at(i);
        let Some(what) = db.what(name) else {
            unreachable!();
        };
        push_two(name.bytes(), what_word(what), &mut text)?;
    }
    Ok(text)
}

/// The range as VALID writes it: the record `from,to`, then one of its two ends.
pub fn range_text(alloc: Global, range: DayRange) -> Result<Vec<u8>, NoMemory>
    ensures { IfOk result (λ v. v.items ≡ range_records range) }
{
    let first = lower_end_text(alloc, range)?;
    let last = upper_end_text(alloc, range)?;
    let mut text = Vec::new(alloc);
    push_two(b"from", b"to", &mut text)?;
    push_two(first.as_slice(), last.as_slice(), &mut text)?;
    Ok(text)
}

// The text of the lower end of the range.
fn lower_end_text(alloc: Global, range: DayRange) -> Result<Vec<u8>, NoMemory>
    ensures { IfOk result (λ v. v.items ≡ lower_text range.lo) }
{
    text_of_day(alloc, lower_end(range.lo))
}

// The text of its upper end.
fn upper_end_text(alloc: Global, range: DayRange) -> Result<Vec<u8>, NoMemory>
    ensures { IfOk result (λ v. v.items ≡ day_text range.hi) }
{
    text_of_day(alloc, range.hi)
}

// The text of the day.
fn text_of_day(alloc: Global, day: ExtDay) -> Result<Vec<u8>, NoMemory>
    ensures { IfOk result (λ v. v.items ≡ day_text day) }
{
    let mut text = Vec::new(alloc);
    write_day(day, &mut text)?;
    Ok(text)
}

// The day of which the text is that of the lower end: no range begins before the first day.
fn lower_end(lo: RefDay) -> ExtDay
    ensures { day_text result ≡ lower_text lo }
{
    if lo == RefDay::FIRST {
        return ExtDay::NEG;
    }
    ExtDay::of(lo)
}

// The word of what a name is.
fn what_word(what: What) -> &'static [u8]
    ensures { result.now ≡ what_word what }
{
    match what {
        What::Table => b"table",
        What::Kept => b"kept",
        What::Live => b"live",
    }
}

// Adds a record of two fields.
fn push_two(first: &[u8], second: &[u8], out: &mut Vec<u8>) -> Result<(), NoMemory>
    ensures { OnOk result (out.new.items ≡ out.old.items ++ row_text default_writer (first.now ∷ second.now ∷ [])) }
{
    let start = out.len();
    push_field(0, first, out)?;
    push_field(1, second, out)?;
    end_record(start, out)
}
