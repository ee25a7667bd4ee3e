// The rows of a saved file, with their days.
ghost use Rattle.std.specs.Prelude.{◌≡◌, ◌++◌, ◌∷◌, [], ℕ, List, Err, IfOk, IfErr, IfSome, IfNone, take, length};
ghost use Rattle.csv.specs.Records.{fields_of};
ghost use Rattle.og_base.specs.Ranges.{Range};
ghost use Rattle.og_base.specs.SetTexts.{set_text};
ghost use Rattle.og_rel.specs.Relations.{HasDays};
ghost use Rattle.og_value.specs.declared.cell.CellRefusal.{CellRefusal};
ghost use Rattle.og_file.specs.SavedFile.{IsDays, IsRow, IsNoRow, full_text, one, two};

use crate::cells::cells_of;
use csv::ByteRecord;
use og_base::{NoMemory, RtRefusal, RtSet, read_rt};
use og_value::{CellRefusal, Row, Schema};
use std::alloc::Global;

// A row and its days as version 1 has them. `NotACell` exactly where the fields are no row.
pub(crate) fn row_one(
    alloc: Global,
    schema: &Schema,
    fields: &ByteRecord,
) -> Result<(Row, RtSet), CellRefusal>
    ensures row { IfOk result (λ pair. IsRow one schema.now (fields_of fields.now) pair) }
    ensures none { result ≡ Err CellRefusal.NotACell → IsNoRow one schema.now (fields_of fields.now) }
{
    let Some(field) = days_field(schema, fields) else {
        return Err(CellRefusal::NotACell);
    };
    let days = days_one(alloc, field)?;
    let row = cells_of(alloc, schema, fields)?;
    Ok((row, days))
}

// The same as version 2 has them.
pub(crate) fn row_two(
    alloc: Global,
    schema: &Schema,
    fields: &ByteRecord,
) -> Result<(Row, RtSet), CellRefusal>
    ensures row { IfOk result (λ pair. IsRow two schema.now (fields_of fields.now) pair) }
    ensures none { result ≡ Err CellRefusal.NotACell → IsNoRow two schema.now (fields_of fields.now) }
{
    let Some(field) = days_field(schema, fields) else {
        return Err(CellRefusal::NotACell);
    };
    let days = days_two(alloc, field)?;
    let row = cells_of(alloc, schema, fields)?;
    Ok((row, days))
}

// The field behind those of the columns, where it is the last one.
pub(crate) fn days_field<'a>(schema: &Schema, fields: &'a ByteRecord) -> Option<&'a [u8]>
    ensures last { IfSome result (λ field. fields_of fields.now ≡ take (length schema.now) (fields_of fields.now) ++ field.now ∷ []) }
    ensures none { IfNone result ((cells : List (List ℕ)) (field : List ℕ) → length cells ≡ length schema.now → ¬ (fields_of fields.now ≡ cells ++ field ∷ [])) }
{
    let Some(field) = fields.get(schema.len()) else {
        return None;
    };
    if fields.len() != schema.len() + 1 {
        return None;
    }
    Some(field)
}

// The days of a row in version 1: a set text that is not `{}`.
fn days_one(alloc: Global, field: &[u8]) -> Result<RtSet, CellRefusal>
    ensures days { IfOk result (IsDays one field.now) }
    ensures none { result ≡ Err CellRefusal.NotACell → (days : List Range) → ¬ IsDays one field.now days }
{
    let days = match read_rt(alloc, field) {
        Ok(days) => days,
        Err(RtRefusal::NotASet) => return Err(CellRefusal::NotACell),
        Err(RtRefusal::NoMemory) => return Err(CellRefusal::NoMemory),
    };
    days.normal();
    if days.is_empty() {
        return Err(CellRefusal::NotACell);
    }
    Ok(days)
}

// The days of a row in version 2: `*` for all days, or a set text that is neither `{}` nor that of all days.
fn days_two(alloc: Global, field: &[u8]) -> Result<RtSet, CellRefusal>
    ensures days { IfOk result (IsDays two field.now) }
    ensures none { result ≡ Err CellRefusal.NotACell → (days : List Range) → ¬ IsDays two field.now days }
{
    if field == b"*".as_slice() {
        return all_days(alloc);
    }
    if field == b"{[-infinity,infinity)}".as_slice() {
        return Err(CellRefusal::NotACell);
    }
    days_one(alloc, field)
}

// All days. Refused only for want of memory.
fn all_days(alloc: Global) -> Result<RtSet, CellRefusal>
    ensures days { IfOk result (λ days. HasDays days × (set_text days ≡ full_text)) }
    ensures refused { IfErr result (λ e. e ≡ CellRefusal.NoMemory) }
{
    match RtSet::all(alloc) {
        Ok(days) => {
            days.normal();
            Ok(days)
        }
        Err(NoMemory) => Err(CellRefusal::NoMemory),
    }
}
