//! Saved files.
ghost use Rattle.std.specs.Prelude.{◌≡◌, ◌≢◌, ◌∷◌, [], ℕ, List, IfOk, IfErr, IfSome, IfNone, OnOk, length};
ghost use Rattle.std.specs.Bool.{Decides};
ghost use Rattle.csv.specs.Records.{fields_of};
ghost use Rattle.og_file.specs.Readers.{HasRead};
ghost use Rattle.og_file.specs.Records.{Record};
ghost use Rattle.og_value.specs.declared.schema.Column.{Column};
ghost use Rattle.og_file.specs.SavedFile.{AreSchema, IsHeader, IsSavedFault, IsSavedFile, mark, one, two};
ghost use Rattle.og_file.specs.SavedParts.{HasAdded, HasRowsOne, HasRowsTwo, IsEnd, IsPairFault};
ghost use Rattle.og_file.specs.declared.refusal.FileRefusal.{FileRefusal};

use crate::header::{count_of, schema_of};
use crate::records::{read_next, reader_of};
use crate::refusal::FileRefusal;
use crate::rows::{row_one, row_two};
use crate::told::Told;
use csv::{ByteRecord, Reader};
use og_base::NoMemory;
use og_progress::Progress;
use og_rel::Rel;
use og_value::{CellRefusal, Row, Schema};
use std::alloc::Global;

/// What a saved file holds: the columns, and the rows on their days.
#[derive(Drop)]
pub struct Saved {
    pub schema: Schema,
    pub rel: Rel<Row>,
}

/// The columns and the rows of a saved file, of version 1 or 2 (docs/FORMATS.md, "Saved files"). `Header`
/// exactly where the first record is missing or of neither form, or is `ongq:2` and the second is missing or
/// not of its form; else `Cell` with the number of the first record that is not of its form, or with the
/// next number where the last record of version 2 is missing; else `RowCount` where the file says another
/// number of rows than it has. `progress` is told how many bytes are read.
pub fn read_saved<P: Progress>(
    alloc: Global,
    bytes: &[u8],
    progress: &P,
) -> Result<Saved, FileRefusal>
    ensures file { IfOk result (λ saved. IsSavedFile bytes.now saved.schema saved.rel) }
    ensures fault { IfErr result (IsSavedFault bytes.now) }
{
    let mut reader = reader_of(alloc, bytes);
    let mut fields = ByteRecord::new(alloc);
    if !read_next(&mut reader, &mut fields)? {
        return Err(FileRefusal::Header);
    }
    let told = Told::new(progress, bytes.len());
    if is_mark(&fields) {
        version_two(alloc, &mut reader, &mut fields, &told)
    } else {
        version_one(alloc, &mut reader, &mut fields, &told)
    }
}

// Whether the record is the first one of version 2.
pub(crate) fn is_mark(fields: &ByteRecord) -> bool
    ensures { Decides result (fields_of fields.now ≡ mark) }
{
    if fields.len() != 1 {
        return false;
    }
    match fields.get(0) {
        Some(field) => field == b"ongq:2".as_slice(),
        None => false,
    }
}

// The file of version 1 whose first record was read.
fn version_one<P: Progress>(
    alloc: Global,
    reader: &mut Reader<&[u8]>,
    fields: &mut ByteRecord,
    told: &Told<'_, P>,
) -> Result<Saved, FileRefusal>
    ensures file { IfOk result (λ saved. (bytes : List ℕ) → HasRead bytes (fields_of fields.old ∷ []) reader.old → fields_of fields.old ≢ mark → IsSavedFile bytes saved.schema saved.rel) }
    ensures fault { IfErr result (λ e. (bytes : List ℕ) → HasRead bytes (fields_of fields.old ∷ []) reader.old → fields_of fields.old ≢ mark → IsSavedFault bytes e) }
{
    let Some((schema, said)) = header_of(alloc, fields)? else {
        return Err(FileRefusal::Header);
    };
    let rel = rows_one(alloc, &schema, reader, fields, told)?;
    counted(schema, rel, said)
}

// The file of version 2 whose first record was read.
fn version_two<P: Progress>(
    alloc: Global,
    reader: &mut Reader<&[u8]>,
    fields: &mut ByteRecord,
    told: &Told<'_, P>,
) -> Result<Saved, FileRefusal>
    ensures file { IfOk result (λ saved. (bytes : List ℕ) → HasRead bytes (mark ∷ []) reader.old → IsSavedFile bytes saved.schema saved.rel) }
    ensures fault { IfErr result (λ e. (bytes : List ℕ) → HasRead bytes (mark ∷ []) reader.old → IsSavedFault bytes e) }
{
    if !read_next(reader, fields)? {
        return Err(FileRefusal::Header);
    }
    let Some(schema) = schema_of(alloc, fields, fields.len())? else {
        return Err(FileRefusal::Header);
    };
    let (rel, said) = rows_two(alloc, &schema, reader, fields, told)?;
    counted(schema, rel, said)
}

// The columns and the number of rows that the first record of version 1 has.
pub(crate) fn header_of(
    alloc: Global,
    fields: &ByteRecord,
) -> Result<Option<(Schema, u64)>, NoMemory>
    ensures header { IfOk result (λ found. IfSome found (λ h. IsHeader (fields_of fields.now) h.0 h.1)) }
    ensures none { IfOk result (λ found. IfNone found ((columns : List Column) (count : ℕ) → ¬ IsHeader (fields_of fields.now) columns count)) }
{
    let Some(last) = fields.len().checked_sub(1) else {
        return Ok(None);
    };
    let Some(field) = fields.get(last) else {
        return Ok(None);
    };
    let Some(said) = count_of(field) else {
        return Ok(None);
    };
    match schema_of(alloc, fields, last)? {
        Some(schema) => Ok(Some((schema, said))),
        None => Ok(None),
    }
}

// The rows of version 1, behind the header that was read.
fn rows_one<P: Progress>(
    alloc: Global,
    schema: &Schema,
    reader: &mut Reader<&[u8]>,
    fields: &mut ByteRecord,
    told: &Told<'_, P>,
) -> Result<Rel<Row>, FileRefusal>
    ensures rows { IfOk result (λ rel. (bytes : List ℕ) (header : Record) → HasRead bytes (header ∷ []) reader.old → HasRowsOne bytes header schema.now rel) }
    ensures fault { IfErr result (λ e. (bytes : List ℕ) (header : Record) (count : ℕ) → HasRead bytes (header ∷ []) reader.old → IsHeader header schema.now count → IsSavedFault bytes e) }
{
    let mut rel = Rel::new(alloc);
    'records: for number in 2..u64::MAX {
        if !read_next(reader, fields)? {
            return Ok(rel);
        }
        told.tell_read(rel.len(), reader);
        add_one(alloc, schema, fields, number, &mut rel)?;
    }
    Err(FileRefusal::NoMemory)
}

// Adds the row of version 1 that the record with that number is.
fn add_one(
    alloc: Global,
    schema: &Schema,
    fields: &ByteRecord,
    number: u64,
    rel: &mut Rel<Row>,
) -> Result<(), FileRefusal>
    ensures added { OnOk result (HasAdded one schema.now (fields_of fields.now) rel.old rel.new) }
    ensures fault { IfErr result (IsPairFault one schema.now (fields_of fields.now) number) }
{
    match row_one(alloc, schema, fields) {
        Ok((row, days)) => Ok(rel.push(row, days)?),
        Err(CellRefusal::NotACell) => Err(FileRefusal::Cell { number }),
        Err(CellRefusal::NoMemory) => Err(FileRefusal::NoMemory),
    }
}

// The rows of version 2, behind the header that was read, and the number of rows that the last record says.
fn rows_two<P: Progress>(
    alloc: Global,
    schema: &Schema,
    reader: &mut Reader<&[u8]>,
    fields: &mut ByteRecord,
    told: &Told<'_, P>,
) -> Result<(Rel<Row>, u64), FileRefusal>
    ensures rows { IfOk result (λ r. (bytes : List ℕ) (header : Record) → HasRead bytes (mark ∷ header ∷ []) reader.old → HasRowsTwo bytes header schema.now r.0 r.1) }
    ensures fault { IfErr result (λ e. (bytes : List ℕ) (header : Record) → HasRead bytes (mark ∷ header ∷ []) reader.old → AreSchema header schema.now → IsSavedFault bytes e) }
{
    let mut rel = Rel::new(alloc);
    'records: for number in 3..u64::MAX {
        if !read_next(reader, fields)? {
            // The last record is missing.
            return Err(FileRefusal::Cell { number });
        }
        if let Some(said) = end_of(fields) {
            if read_next(reader, fields)? {
                return Err(FileRefusal::Cell { number });
            }
            return Ok((rel, said));
        }
        told.tell_read(rel.len(), reader);
        add_two(alloc, schema, fields, number, &mut rel)?;
    }
    Err(FileRefusal::NoMemory)
}

// Adds the row of version 2 that the record with that number is.
fn add_two(
    alloc: Global,
    schema: &Schema,
    fields: &ByteRecord,
    number: u64,
    rel: &mut Rel<Row>,
) -> Result<(), FileRefusal>
    ensures added { OnOk result (HasAdded two schema.now (fields_of fields.now) rel.old rel.new) }
    ensures fault { IfErr result (IsPairFault two schema.now (fields_of fields.now) number) }
{
    match row_two(alloc, schema, fields) {
        Ok((row, days)) => Ok(rel.push(row, days)?),
        Err(CellRefusal::NotACell) => Err(FileRefusal::Cell { number }),
        Err(CellRefusal::NoMemory) => Err(FileRefusal::NoMemory),
    }
}

// The number of rows that the record says, where it is the last one of version 2.
pub(crate) fn end_of(fields: &ByteRecord) -> Option<u64>
    ensures end { IfSome result (IsEnd (fields_of fields.now)) }
    ensures none { IfNone result ((count : ℕ) → ¬ IsEnd (fields_of fields.now) count) }
{
    if fields.len() != 1 {
        return None;
    }
    match fields.get(0) {
        Some(field) => count_of(field),
        None => None,
    }
}

// What was read, where it has as many rows as the file says.
fn counted(schema: Schema, rel: Rel<Row>, said: u64) -> Result<Saved, FileRefusal>
    ensures file { IfOk result (λ saved. (saved.schema ≡ schema) × (saved.rel ≡ rel) × (said ≡ length rel)) }
    ensures fault { IfErr result (λ e. (e ≡ FileRefusal.RowCount said (length rel)) × (said ≢ length rel)) }
{
    let found = rel.len() as u64;
    if said == found {
        Ok(Saved { schema, rel })
    } else {
        Err(FileRefusal::RowCount { said, found })
    }
}
