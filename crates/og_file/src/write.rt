//! Saved files, written.
ghost use Rattle.std.specs.Prelude.{◌≡◌, ◌<◌, ◌^◌, ◌++◌, ◌∷◌, [], ℕ, List, IfOk, OnOk, length, map};
ghost use Rattle.std.specs.List.{All};
ghost use Rattle.csv.specs.Writing.{default_writer, row_text};
ghost use Rattle.csv.proofs.RoundTrip.{rows_text};
ghost use Rattle.og_value.specs.Cells.{cell_text};
ghost use Rattle.og_value.specs.Words.{IsLowerWord};
ghost use Rattle.og_file.specs.PlainFiles.{IsPlainFile};
ghost use Rattle.og_file.specs.SavedFile.{kind_word};
ghost use Rattle.og_file.specs.Writers.{HasText, HasFields};
ghost use Rattle.og_file.specs.Writing.{IsOfKinds, IsReadAgain, column_text, count_text, days_text, records_of, row_record};

use crate::told::Told;
use csv::{Error, Writer, WriterBuilder};
use og_base::{NoMemory, RtSet, write_rt};
use og_progress::Progress;
use og_rel::Rel;
use og_value::{Column, Kind, Row, Schema, Value, write_cell};
use std::alloc::Global;

/// The plain saved file of the relation (docs/FORMATS.md, "Saved files"): version 2, as many rows, each on
/// its days, in the bytes that csv writes by default. `progress` is told how many rows are written. Refused
/// only where memory runs out.
pub fn write_saved<P: Progress>(
    alloc: Global,
    schema: &Schema,
    rel: &Rel<Row>,
    progress: &P,
) -> Result<Vec<u8>, NoMemory>
    requires fits { All (λ p. IsOfKinds schema.now p.0) rel.now }
    ensures { IfOk result (λ bytes. IsPlainFile bytes.items schema.now rel.now) }
{
    schema.bounded();
    rel.some_days();
    let told = Told::new(progress, rel.len());
    match saved_records(alloc, schema, rel, &told) {
        Ok(text) => Ok(text),
        Err(_) => Err(NoMemory),
    }
}

// The text of the records, or the error of the writer, which is want of memory.
fn saved_records<P: Progress>(
    alloc: Global,
    schema: &Schema,
    rel: &Rel<Row>,
    told: &Told<'_, P>,
) -> Result<Vec<u8>, Error>
    ensures text { IfOk result (λ v. v.items ≡ rows_text (records_of schema.now rel.now)) }
    ensures words { IfOk result (λ _. All (λ c. IsLowerWord c.name) schema.now) }
    ensures cells { IfOk result (λ _. All (λ p. All IsReadAgain p.0) rel.now) }
    ensures count { IfOk result (λ _. length rel.now < 2 ^ 64) }
{
    let mut writer = WriterBuilder::new()
        .flexible(true)
        .from_writer(Vec::new(alloc));
    let mut field = Vec::new(alloc);
    writer.write_fields(&[b"ongq:2"])?;
    write_columns(&mut writer, schema, &mut field)?;
    write_rows(&mut writer, rel, &mut field, told)?;
    write_count(alloc, &mut writer, rel.len())?;
    text_of(writer)
}

/// What the writer has written. Refused only for want of memory.
pub fn text_of(writer: Writer<Vec<u8>>) -> Result<Vec<u8>, Error>
    ensures { IfOk result (λ v. (text : List ℕ) → HasText writer text → v.items ≡ text) }
{
    match writer.into_inner() {
        Ok(text) => Ok(text),
        Err(e) => Err(e.into_error()),
    }
}

// Writes the record of the columns.
fn write_columns(
    writer: &mut Writer<Vec<u8>>,
    schema: &Schema,
    field: &mut Vec<u8>,
) -> Result<(), Error>
    ensures text { OnOk result ((text : List ℕ) → HasText writer.old text →
        HasText writer.new (text ++ row_text default_writer (map column_text schema.now))) }
    ensures words { OnOk result (All (λ c. IsLowerWord c.name) schema.now) }
{
    'columns: for i in 0..schema.len() {
        let Ok(()) = put_column(schema.column(i), field) else {
            return Err(Error::out_of_memory());
        };
        writer.write_field(field.as_slice())?;
    }
    writer.end_record()
}

// Makes the text the name of the column, a colon, and its kind.
fn put_column(column: &Column, out: &mut Vec<u8>) -> Result<(), NoMemory>
    ensures text { OnOk result (out.new.items ≡ column_text column.now) }
    ensures word { IsLowerWord column.now.name }
{
    column.name.lower_word();
    out.clear();
    out.extend_from_slice(column.name.bytes())?;
    out.push(b':')?;
    out.extend_from_slice(kind_word(column.kind))?;
    Ok(())
}

// The word of the kind.
fn kind_word(kind: Kind) -> &'static [u8]
    ensures { result.now ≡ kind_word kind }
{
    match kind {
        Kind::Int => b"INT",
        Kind::Text => b"TEXT",
        Kind::Date => b"DATE",
        Kind::Period => b"PERIOD",
    }
}

// Writes the record of each row.
fn write_rows<P: Progress>(
    writer: &mut Writer<Vec<u8>>,
    rel: &Rel<Row>,
    field: &mut Vec<u8>,
    told: &Told<'_, P>,
) -> Result<(), Error>
    ensures text { OnOk result ((records : List (List (List ℕ))) → HasText writer.old (rows_text records) →
        HasText writer.new (rows_text (records ++ map row_record rel.now))) }
    ensures cells { OnOk result (All (λ p. All IsReadAgain p.0) rel.now) }
{
    'rows: for i in 0..rel.len() {
        told.tell_written(i);
        write_row(writer, rel.row(i), rel.days(i), field)?;
    }
    Ok(())
}

// Writes the record of the row. The text of each field is made in `field`, which the caller keeps from
// row to row.
fn write_row(
    writer: &mut Writer<Vec<u8>>,
    row: &Row,
    days: &RtSet,
    field: &mut Vec<u8>,
) -> Result<(), Error>
    ensures text { OnOk result ((text : List ℕ) → HasText writer.old text →
        HasText writer.new (text ++ row_text default_writer (row_record (row.now, days.now)))) }
    ensures cells { OnOk result (All IsReadAgain row.now) }
{
    write_cells(writer, row, field)?;
    let Ok(()) = put_days(days, field) else {
        return Err(Error::out_of_memory());
    };
    writer.write_field(field.as_slice())?;
    writer.end_record()
}

// Writes the text of each value as a field.
fn write_cells(writer: &mut Writer<Vec<u8>>, row: &Row, field: &mut Vec<u8>) -> Result<(), Error>
    ensures text { OnOk result ((text : List ℕ) → HasText writer.old text → HasFields writer.new text (map cell_text row.now)) }
    ensures cells { OnOk result (All IsReadAgain row.now) }
{
    'values: for i in 0..row.len() {
        let Ok(()) = put_cell(row.value(i), field) else {
            return Err(Error::out_of_memory());
        };
        writer.write_field(field.as_slice())?;
    }
    Ok(())
}

// Makes the text that of the value.
fn put_cell(value: &Value, out: &mut Vec<u8>) -> Result<(), NoMemory>
    ensures text { OnOk result (out.new.items ≡ cell_text value.now) }
    ensures cell { IsReadAgain value.now }
{
    out.clear();
    write_cell(value, out)
}

// Makes the text that of the days.
fn put_days(days: &RtSet, out: &mut Vec<u8>) -> Result<(), NoMemory>
    ensures { OnOk result (out.new.items ≡ days_text days.now) }
{
    out.clear();
    write_rt(days, out)?;
    if out.as_slice() == b"{[-infinity,infinity)}".as_slice() {
        out.clear();
        out.push(b'*')?;
    }
    Ok(())
}

// Writes the record of the number of rows.
fn write_count(alloc: Global, writer: &mut Writer<Vec<u8>>, count: usize) -> Result<(), Error>
    ensures { OnOk result ((text : List ℕ) → HasText writer.old text →
        HasText writer.new (text ++ row_text default_writer (count_text count ∷ []))) }
{
    let Ok(text) = format!(in alloc; "rows:{count}") else {
        return Err(Error::out_of_memory());
    };
    writer.write_field(text.as_bytes())?;
    writer.end_record()
}
