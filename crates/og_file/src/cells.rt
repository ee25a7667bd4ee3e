// The cells of a record.
ghost use Rattle.std.specs.Prelude.{◌≡◌, List, Err, IfOk, length, take};
ghost use Rattle.csv.specs.Records.{fields_of};
ghost use Rattle.og_value.specs.declared.cell.CellRefusal.{CellRefusal};
ghost use Rattle.og_value.specs.declared.value.Value as values;
ghost use Rattle.og_file.specs.TableFile.{AreCells};

use csv::ByteRecord;
use og_value::{CellRefusal, Row, Schema, read_cell};
use std::alloc::Global;

// The row of the first fields, a cell for each column. `NotACell` exactly where there is none.
pub(crate) fn cells_of(
    alloc: Global,
    schema: &Schema,
    fields: &ByteRecord,
) -> Result<Row, CellRefusal>
    ensures cells { IfOk result (λ row. AreCells schema.now (take (length schema.now) (fields_of fields.now)) row) }
    ensures none { result ≡ Err CellRefusal.NotACell → (row : List values.Value) → ¬ AreCells schema.now (take (length schema.now) (fields_of fields.now)) row }
{
    let Ok(mut row) = Row::with_room(alloc, schema.len()) else {
        return Err(CellRefusal::NoMemory);
    };
    'columns: for i in 0..schema.len() {
        let Some(field) = fields.get(i) else {
            return Err(CellRefusal::NotACell);
        };
        let value = read_cell(alloc, schema.column(i).kind, field)?;
        let Ok(()) = row.push(value) else {
            return Err(CellRefusal::NoMemory);
        };
    }
    Ok(row)
}
