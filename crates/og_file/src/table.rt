//! Table files.
ghost use Rattle.std.specs.Prelude.{ℕ, List, [], ◌∷◌, IfOk, IfErr};
ghost use Rattle.og_file.specs.Readers.{HasRead};
ghost use Rattle.og_file.specs.Records.{Record};
ghost use Rattle.og_file.specs.TableFile.{AreCells, HasNames, IsRowFault, IsTableFile, IsTableFault};
ghost use Rattle.csv.specs.Records.{fields_of};

use crate::cells::cells_of;
use crate::names::has_names;
use crate::records::{read_next, reader_of};
use crate::refusal::FileRefusal;
use crate::told::Told;
use csv::{ByteRecord, Reader};
use og_progress::Progress;
use og_value::{CellRefusal, Row, Schema};
use std::alloc::Global;

/// The rows of a table file: its first record has the names of the columns in order, in letters of any
/// case, and each further record a cell for each column (docs/FORMATS.md, "Table files"). `Header` exactly
/// where the first record is missing or differs; else `Cell` exactly where a further record is no row,
/// with the number of the first such record; never `RowCount`. `progress` is told how many bytes are read.
pub fn read_table<P: Progress>(
    alloc: Global,
    schema: &Schema,
    bytes: &[u8],
    progress: &P,
) -> Result<Vec<Row>, FileRefusal>
    ensures rows { IfOk result (λ rows. IsTableFile schema.now bytes.now rows.items) }
    ensures fault { IfErr result (IsTableFault schema.now bytes.now) }
{
    let mut reader = reader_of(alloc, bytes);
    let mut fields = ByteRecord::new(alloc);
    if !read_next(&mut reader, &mut fields)? {
        return Err(FileRefusal::Header);
    }
    if !has_names(schema, &fields) {
        return Err(FileRefusal::Header);
    }
    let told = Told::new(progress, bytes.len());
    table_rows(alloc, schema, &mut reader, &mut fields, &told)
}

// The rows of the records behind that of the names, which the reader has read.
fn table_rows<P: Progress>(
    alloc: Global,
    schema: &Schema,
    reader: &mut Reader<&[u8]>,
    fields: &mut ByteRecord,
    told: &Told<'_, P>,
) -> Result<Vec<Row>, FileRefusal>
    ensures rows { IfOk result (λ rows. (bytes : List ℕ) (names : Record) → HasRead bytes (names ∷ []) reader.old → HasNames schema.now names → IsTableFile schema.now bytes rows.items) }
    ensures fault { IfErr result (λ e. (bytes : List ℕ) (names : Record) → HasRead bytes (names ∷ []) reader.old → HasNames schema.now names → IsTableFault schema.now bytes e) }
{
    let mut rows = Vec::new(alloc);
    'records: for _ in 0..u64::MAX {
        if !read_next(reader, fields)? {
            return Ok(rows);
        }
        told.tell_read(rows.len(), reader);
        let row = table_row(alloc, schema, fields, rows.len() as u64 + 2)?;
        rows.push(row)?;
    }
    Err(FileRefusal::NoMemory)
}

// The row of the record, which has that number.
fn table_row(
    alloc: Global,
    schema: &Schema,
    fields: &ByteRecord,
    number: u64,
) -> Result<Row, FileRefusal>
    ensures row { IfOk result (AreCells schema.now (fields_of fields.now)) }
    ensures fault { IfErr result (IsRowFault schema.now (fields_of fields.now) number) }
{
    if fields.len() != schema.len() {
        return Err(FileRefusal::Cell { number });
    }
    match cells_of(alloc, schema, fields) {
        Ok(row) => Ok(row),
        Err(CellRefusal::NotACell) => Err(FileRefusal::Cell { number }),
        Err(CellRefusal::NoMemory) => Err(FileRefusal::NoMemory),
    }
}
