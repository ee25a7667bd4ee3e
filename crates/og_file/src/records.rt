//! The records of bytes, read one at a time by csv.
ghost use Rattle.std.specs.Prelude.{[], ℕ, List, IfOk, IfSome, IfNone};
ghost use Rattle.csv.specs.Records.{fields_of};
ghost use Rattle.og_file.specs.Records.{Record, IsRecordAt};
ghost use Rattle.og_file.specs.Readers.{HasRead, HasFound};

use csv::{ByteRecord, Reader, ReaderBuilder};
use og_base::NoMemory;
use std::alloc::Global;

/// The fields of the record of the bytes that has this number, counted from 1. None exactly where there is
/// no such record. It reads the records up to that one. Refused only where memory runs out.
pub fn record_at(alloc: Global, bytes: &[u8], number: u64) -> Result<Option<ByteRecord>, NoMemory>
    ensures found { IfOk result (λ found. IfSome found (λ r. IsRecordAt bytes.now number (fields_of r))) }
    ensures none { IfOk result (λ found. IfNone found ((fields : Record) → ¬ IsRecordAt bytes.now number fields)) }
{
    let Some(before) = number.checked_sub(1) else {
        return Ok(None);
    };
    let mut reader = reader_of(alloc, bytes);
    let mut fields = ByteRecord::new(alloc);
    'records: for i in 0..before {
        if !read_next(&mut reader, &mut fields)? {
            return Ok(None);
        }
    }
    if !read_next(&mut reader, &mut fields)? {
        return Ok(None);
    }
    Ok(Some(fields))
}

// A reader of the bytes, whose records may differ in length.
pub(crate) fn reader_of(alloc: Global, bytes: &[u8]) -> Reader<&[u8]>
    ensures { HasRead bytes.now [] result }
{
    ReaderBuilder::new()
        .has_headers(false)
        .flexible(true)
        .from_reader(alloc, bytes)
}

// Reads the next record over `record`, and gives whether there is one. csv refuses bytes in memory only
// for want of memory.
pub(crate) fn read_next(
    reader: &mut Reader<&[u8]>,
    fields: &mut ByteRecord,
) -> Result<bool, NoMemory>
    ensures { IfOk result (λ found. (bytes : List ℕ) (before : List Record) → HasRead bytes before reader.old → HasFound bytes before found (fields_of fields.new) reader.new) }
{
    let Ok(found) = reader.read_byte_record(fields) else {
        return Err(NoMemory);
    };
    Ok(found)
}
