// The fields of a header: columns, and the number of rows.
ghost use Rattle.std.specs.Prelude.{◌≡◌, ◌≢◌, ◌≤◌, ◌<◌, ◌^◌, ◌++◌, ◌∷◌, ℕ, List, IfOk, IfSome, IfNone, length, slice_index, take};
ghost use Rattle.std.specs.Bool.{Decides};
ghost use Rattle.std.specs.Fmt.{decimal};
ghost use Rattle.csv.specs.Records.{fields_of};
ghost use Rattle.og_value.specs.declared.kind.Kind as kinds;
ghost use Rattle.og_value.specs.declared.schema.Column as columns;
ghost use Rattle.og_file.specs.SavedFile.{AreColumns, AreSchema, IsColumn, IsCount, kind_word};

use csv::ByteRecord;
use og_base::NoMemory;
use og_value::{Column, Kind, MAX_COLUMNS, Name, NameRefusal, Schema};
use std::alloc::Global;
use std::str;

// The schema that the first fields name, so many of them; None exactly where they name none.
pub(crate) fn schema_of(
    alloc: Global,
    fields: &ByteRecord,
    count: usize,
) -> Result<Option<Schema>, NoMemory>
    ensures schema { IfOk result (λ found. IfSome found (λ schema. AreSchema (take count (fields_of fields.now)) schema)) }
    ensures none { IfOk result (λ found. IfNone found ((columns : List columns.Column) → ¬ AreSchema (take count (fields_of fields.now)) columns)) }
{
    let count = count.min(fields.len());
    if count == 0 {
        return Ok(None);
    }
    if count > MAX_COLUMNS {
        return Ok(None);
    }
    let Some(columns) = columns_of(alloc, fields, count)? else {
        return Ok(None);
    };
    Ok(Some(Schema::of(columns)))
}

// The columns that the first fields name, so many of them; None exactly where they name none.
fn columns_of(
    alloc: Global,
    fields: &ByteRecord,
    count: usize,
) -> Result<Option<Vec<Column>>, NoMemory>
    requires { count ≤ length (fields_of fields.now) }
    ensures columns { IfOk result (λ found. IfSome found (λ columns. AreColumns (take count (fields_of fields.now)) columns.items)) }
    ensures none { IfOk result (λ found. IfNone found ((columns : List columns.Column) → ¬ AreColumns (take count (fields_of fields.now)) columns)) }
{
    let mut columns = Vec::new(alloc);
    'fields: for i in 0..count {
        let Some(field) = fields.get(i) else {
            return Ok(None);
        };
        let Some(column) = column_of(alloc, field)? else {
            return Ok(None);
        };
        columns.push(column)?;
    }
    Ok(Some(columns))
}

// The column that the field names; None exactly where it names none.
fn column_of(alloc: Global, field: &[u8]) -> Result<Option<Column>, NoMemory>
    ensures column { IfOk result (λ found. IfSome found (IsColumn field.now)) }
    ensures none { IfOk result (λ found. IfNone found ((column : columns.Column) → ¬ IsColumn field.now column)) }
{
    let Some((word, kind)) = parts_of(field) else {
        return Ok(None);
    };
    match Name::of(alloc, word) {
        Ok(name) => Ok(Some(Column { name, kind })),
        Err(NameRefusal::NotAName) => Ok(None),
        Err(NameRefusal::NoMemory) => Err(NoMemory),
    }
}

// The bytes before the kind that the field ends with, and that kind.
fn parts_of(field: &[u8]) -> Option<(&[u8], Kind)>
    ensures parts { IfSome result (λ parts. field.now ≡ parts.0.now ++ 58 ∷ kind_word parts.1) }
    ensures none { IfNone result ((word : List ℕ) (kind : kinds.Kind) → field.now ≢ word ++ 58 ∷ kind_word kind) }
{
    if let Some(word) = field.strip_suffix(b":INT".as_slice()) {
        return Some((word, Kind::Int));
    }
    if let Some(word) = field.strip_suffix(b":TEXT".as_slice()) {
        return Some((word, Kind::Text));
    }
    if let Some(word) = field.strip_suffix(b":DATE".as_slice()) {
        return Some((word, Kind::Date));
    }
    let word = field.strip_suffix(b":PERIOD".as_slice())?;
    Some((word, Kind::Period))
}

// The number of rows that the field says; None exactly where it says none.
pub(crate) fn count_of(field: &[u8]) -> Option<u64>
    ensures count { IfSome result (IsCount field.now) }
    ensures none { IfNone result ((count : ℕ) → ¬ IsCount field.now count) }
{
    let digits = field.strip_prefix(b"rows:".as_slice())?;
    number_of(digits)
}

// The number that is written so. std reads a plus sign and leading zeros too, which no number has here.
fn number_of(digits: &[u8]) -> Option<u64>
    ensures number { IfSome result (λ number. (digits.now ≡ decimal number) × (number < 2 ^ 64)) }
    ensures none { IfNone result ((number : ℕ) → number < 2 ^ 64 → digits.now ≢ decimal number) }
{
    if !is_plain(digits) {
        return None;
    }
    let Ok(text) = str::from_utf8(digits) else {
        return None;
    };
    text.parse::<u64>().ok()
}

// Whether no plus sign comes first, and no zero before others.
fn is_plain(digits: &[u8]) -> bool
    ensures { Decides result ((slice_index digits.now 0 ≢ 43) × (slice_index digits.now 0 ≡ 48 → length digits.now ≡ 1)) }
{
    match digits.first() {
        Some(b'+') => false,
        Some(b'0') => digits.len() == 1,
        _ => true,
    }
}
