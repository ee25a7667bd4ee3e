//! What is wrong with a record of a file.
ghost use Rattle.std.specs.Prelude.{◌≡◌, ◌≤◌, ◌+◌, List, IfOk, IfSome, IfNone, length, take};
ghost use Rattle.csv.specs.Records.{fields_of};
ghost use Rattle.og_value.specs.declared.schema.Column as columns;
ghost use Rattle.og_value.specs.declared.value.Value as values;
ghost use Rattle.og_file.specs.BadRecords.{HasColumns, IsBadCell, IsBadOne, IsBadRecord, IsBadRow, IsBadSavedRecord, IsBadSavedRow, IsBadTwo};
ghost use Rattle.og_file.specs.Records.{Record, IsRecordAt};
ghost use Rattle.og_file.specs.SavedFile.{IsNoRow, Version, one, two};
ghost use Rattle.og_file.specs.TableFile.{AreCells};

use crate::header::schema_of;
use crate::records::record_at;
use crate::rows::{days_field, row_one, row_two};
use crate::saved::{end_of, header_of, is_mark};
use csv::ByteRecord;
use og_base::NoMemory;
use og_value::{CellRefusal, Column, Schema, read_cell};
use std::alloc::Global;

/// What is wrong with a record of a file.
#[derive(Debug, Drop)]
pub enum BadRecord {
    /// It has another number of fields than is wanted.
    Fields { wanted: usize, found: usize },
    /// The field of this column, which has these bytes, is the first that is no cell.
    Cell { column: Column, bytes: Vec<u8> },
    /// The last field, which has these bytes, is no set of days.
    Days { bytes: Vec<u8> },
    /// The bytes end before it.
    Missing,
    /// It says the number of rows, and another record follows it.
    NotLast,
}

/// What is wrong with the record of a table file for the schema that has this number, counted from 1:
/// `Fields` or `Cell`. None exactly where it is a row, and where there is no such record. The first record,
/// that of the names, is taken for a row too. Refused only where memory runs out.
pub fn bad_record(
    alloc: Global,
    schema: &Schema,
    bytes: &[u8],
    number: u64,
) -> Result<Option<BadRecord>, NoMemory>
    ensures told { IfOk result (λ told. IfSome told (IsBadRecord schema.now bytes.now number)) }
    ensures none { IfOk result (λ told. IfNone told ((bad : BadRecord) → ¬ IsBadRecord schema.now bytes.now number bad)) }
{
    match record_at(alloc, bytes, number)? {
        Some(fields) => bad_row(alloc, schema, &fields),
        None => Ok(None),
    }
}

/// What is wrong with the record of a saved file that has this number, counted from 1. The header of the
/// file names the columns; a row has a field for each, and one of days behind them. `Missing` and `NotLast`
/// are told of version 2 alone, whose last record says the number of rows. None exactly where the record is
/// of its form, where it belongs to the header or is missing in version 1, and where the file has no header
/// of either version. Refused only where memory runs out.
pub fn bad_saved_record(
    alloc: Global,
    bytes: &[u8],
    number: u64,
) -> Result<Option<BadRecord>, NoMemory>
    ensures told { IfOk result (λ told. IfSome told (IsBadSavedRecord bytes.now number)) }
    ensures none { IfOk result (λ told. IfNone told ((bad : BadRecord) → ¬ IsBadSavedRecord bytes.now number bad)) }
{
    if let Some(schema) = schema_two(alloc, bytes)? {
        return bad_two(alloc, &schema, bytes, number);
    }
    match schema_one(alloc, bytes)? {
        Some(schema) => bad_one(alloc, &schema, bytes, number),
        None => Ok(None),
    }
}

// The columns that a header of version 1 names.
fn schema_one(alloc: Global, bytes: &[u8]) -> Result<Option<Schema>, NoMemory>
    ensures columns { IfOk result (λ found. IfSome found (HasColumns one bytes.now)) }
    ensures none { IfOk result (λ found. IfNone found ((columns : List columns.Column) → ¬ HasColumns one bytes.now columns)) }
{
    let Some(first) = record_at(alloc, bytes, 1)? else {
        return Ok(None);
    };
    match header_of(alloc, &first)? {
        Some((schema, _)) => Ok(Some(schema)),
        None => Ok(None),
    }
}

// The columns that a header of version 2 names.
fn schema_two(alloc: Global, bytes: &[u8]) -> Result<Option<Schema>, NoMemory>
    ensures columns { IfOk result (λ found. IfSome found (HasColumns two bytes.now)) }
    ensures none { IfOk result (λ found. IfNone found ((columns : List columns.Column) → ¬ HasColumns two bytes.now columns)) }
{
    let Some(first) = record_at(alloc, bytes, 1)? else {
        return Ok(None);
    };
    if !is_mark(&first) {
        return Ok(None);
    }
    match record_at(alloc, bytes, 2)? {
        Some(second) => schema_of(alloc, &second, second.len()),
        None => Ok(None),
    }
}

// What is wrong with the record, in version 1.
fn bad_one(
    alloc: Global,
    schema: &Schema,
    bytes: &[u8],
    number: u64,
) -> Result<Option<BadRecord>, NoMemory>
    ensures told { IfOk result (λ told. IfSome told (IsBadOne schema.now bytes.now number)) }
    ensures none { IfOk result (λ told. IfNone told ((bad : BadRecord) → ¬ IsBadOne schema.now bytes.now number bad)) }
{
    if number < 2 {
        return Ok(None);
    }
    let Some(fields) = record_at(alloc, bytes, number)? else {
        return Ok(None);
    };
    match row_one(alloc, schema, &fields) {
        Ok(row) => {
            drop(row);
            Ok(None)
        }
        Err(CellRefusal::NotACell) => Ok(Some(bad_saved_row(alloc, schema, &fields)?)),
        Err(CellRefusal::NoMemory) => Err(NoMemory),
    }
}

// What is wrong with the record, in version 2.
fn bad_two(
    alloc: Global,
    schema: &Schema,
    bytes: &[u8],
    number: u64,
) -> Result<Option<BadRecord>, NoMemory>
    ensures told { IfOk result (λ told. IfSome told (IsBadTwo schema.now bytes.now number)) }
    ensures none { IfOk result (λ told. IfNone told ((bad : BadRecord) → ¬ IsBadTwo schema.now bytes.now number bad)) }
{
    if number < 3 {
        return Ok(None);
    }
    let Some(fields) = record_at(alloc, bytes, number)? else {
        return Ok(Some(BadRecord::Missing));
    };
    if let Some(_) = end_of(&fields) {
        return bad_end(alloc, bytes, number);
    }
    match row_two(alloc, schema, &fields) {
        Ok(row) => {
            drop(row);
            Ok(None)
        }
        Err(CellRefusal::NotACell) => Ok(Some(bad_saved_row(alloc, schema, &fields)?)),
        Err(CellRefusal::NoMemory) => Err(NoMemory),
    }
}

// `NotLast` exactly where another record follows the one with this number. Memory ends before the number of
// a record has more than 64 bits.
fn bad_end(alloc: Global, bytes: &[u8], number: u64) -> Result<Option<BadRecord>, NoMemory>
    ensures told { IfOk result (λ told. IfSome told (λ t. (t ≡ BadRecord.NotLast) × (next : Record) × IsRecordAt bytes.now (number + 1) next)) }
    ensures none { IfOk result (λ told. IfNone told ((next : Record) → ¬ IsRecordAt bytes.now (number + 1) next)) }
{
    let Some(behind) = number.checked_add(1) else {
        return Err(NoMemory);
    };
    let Some(_) = record_at(alloc, bytes, behind)? else {
        return Ok(None);
    };
    Ok(Some(BadRecord::NotLast))
}

// What is wrong with the fields as a row of a table file.
fn bad_row(
    alloc: Global,
    schema: &Schema,
    fields: &ByteRecord,
) -> Result<Option<BadRecord>, NoMemory>
    ensures told { IfOk result (λ told. IfSome told (IsBadRow schema.now (fields_of fields.now))) }
    ensures none { IfOk result (λ told. IfNone told ((bad : BadRecord) → ¬ IsBadRow schema.now (fields_of fields.now) bad)) }
{
    if fields.len() != schema.len() {
        return Ok(Some(BadRecord::Fields {
            wanted: schema.len(),
            found: fields.len(),
        }));
    }
    match bad_cell(alloc, schema, fields)? {
        Some((column, bytes)) => Ok(Some(BadRecord::Cell { column, bytes })),
        None => Ok(None),
    }
}

// What is wrong with the fields, which are no row of a saved file of the version.
fn bad_saved_row(alloc: Global, schema: &Schema, fields: &ByteRecord) -> Result<BadRecord, NoMemory>
    ensures { IfOk result (λ bad. (version : Version) → IsNoRow version schema.now (fields_of fields.now) → IsBadSavedRow version schema.now (fields_of fields.now) bad) }
{
    schema.bounded();
    let Some(field) = days_field(schema, fields) else {
        return Ok(BadRecord::Fields {
            wanted: schema.len() + 1,
            found: fields.len(),
        });
    };
    if let Some((column, bytes)) = bad_cell(alloc, schema, fields)? {
        return Ok(BadRecord::Cell { column, bytes });
    }
    let mut bytes = Vec::new(alloc);
    bytes.extend_from_slice(field)?;
    Ok(BadRecord::Days { bytes })
}

// The first column whose field is no cell, and the bytes of that field.
fn bad_cell(
    alloc: Global,
    schema: &Schema,
    fields: &ByteRecord,
) -> Result<Option<(Column, Vec<u8>)>, NoMemory>
    requires { length schema.now ≤ length (fields_of fields.now) }
    ensures first { IfOk result (λ found. IfSome found (λ bad. IsBadCell schema.now (fields_of fields.now) bad.0 bad.1.items)) }
    ensures none { IfOk result (λ found. IfNone found ((row : List values.Value) × AreCells schema.now (take (length schema.now) (fields_of fields.now)) row)) }
{
    'columns: for i in 0..schema.len() {
        let column = schema.column(i);
        let Some(field) = fields.get(i) else {
            return Ok(None);
        };
        match read_cell(alloc, column.kind, field) {
            Ok(value) => drop(value),
            Err(CellRefusal::NotACell) => {
                let mut bytes = Vec::new(alloc);
                bytes.extend_from_slice(field)?;
                return Ok(Some((column.copy()?, bytes)));
            }
            Err(CellRefusal::NoMemory) => return Err(NoMemory),
        }
    }
    Ok(None)
}
