//! The fields of a record, written at the end of a text as csv writes them.
ghost use Rattle.std.specs.Prelude.{◌≡◌, ◌++◌, ◌∷◌, [], ℕ, List, OnOk, length, if◌then◌else◌};
ghost use Rattle.csv.specs.Writing as meant;
ghost use Rattle.csv.specs.Writing.{default_writer, field_text, next_sep, quoted, row_body, row_text};

use og_base::NoMemory;

/// Adds the field with that number, counted from 0, of the record at the end of the text.
pub(crate) fn push_field(i: usize, field: &[u8], out: &mut Vec<u8>) -> Result<(), NoMemory>
    ensures { OnOk result (out.new.items ≡ out.old.items ++ (next_sep default_writer i ++ field_text default_writer field.now)) }
{
    push_separator(i, out)?;
    push_bytes(field, out)
}

/// Adds what stands before the field with that number.
pub(crate) fn push_separator(i: usize, out: &mut Vec<u8>) -> Result<(), NoMemory>
    ensures { OnOk result (out.new.items ≡ out.old.items ++ next_sep default_writer i) }
{
    if i > 0 {
        out.push(b',')?;
    }
    Ok(())
}

/// Adds the bytes of a field, between quotes where it has some byte that calls for them.
pub(crate) fn push_bytes(field: &[u8], out: &mut Vec<u8>) -> Result<(), NoMemory>
    ensures { OnOk result (out.new.items ≡ out.old.items ++ field_text default_writer field.now) }
{
    if needs_quotes(field) {
        return push_quoted(field, out);
    }
    out.extend_from_slice(field)?;
    Ok(())
}

// Whether the field has a byte that calls for quotes.
fn needs_quotes(field: &[u8]) -> bool
    ensures { result ≡ meant.needs_quotes default_writer field.now }
{
    field.iter().any(
        |b: &u8| -> bool
            ensures { result ≡ meant.needs_byte default_writer b.now }
        { needs_byte(*b) },
    )
}

// Whether the byte calls for quotes: a comma, a quote, and what ends a line.
fn needs_byte(b: u8) -> bool
    ensures { result ≡ meant.needs_byte default_writer b }
{
    b == b',' || b == b'"' || b == b'\r' || b == b'\n'
}

// Adds the field between quotes, each quote in it twice.
fn push_quoted(field: &[u8], out: &mut Vec<u8>) -> Result<(), NoMemory>
    ensures { OnOk result (out.new.items ≡ out.old.items ++ quoted default_writer field.now) }
{
    out.push(b'"')?;
    'bytes: for b in field {
        push_escaped(*b, out)?;
    }
    out.push(b'"')?;
    Ok(())
}

// Adds a byte of a field between quotes: a quote is written twice.
fn push_escaped(b: u8, out: &mut Vec<u8>) -> Result<(), NoMemory>
    ensures { OnOk result (out.new.items ≡ out.old.items ++ meant.escaped default_writer (b ∷ [])) }
{
    if b == b'"' {
        out.push(b'"')?;
    }
    out.push(b)?;
    Ok(())
}

/// Ends the record that begins at that place of the text.
pub(crate) fn end_record(start: usize, out: &mut Vec<u8>) -> Result<(), NoMemory>
    ensures { OnOk result ((text : List ℕ) (fields : List (List ℕ)) → start ≡ length text → out.old.items ≡ text ++ row_body default_writer fields →
        out.new.items ≡ text ++ row_text default_writer fields) }
{
    // A record that shows no byte has one empty field.
    let is_blank = out.len() == start;
    push_blank(is_blank, out)?;
    out.push(b'\n')?;
    Ok(())
}

// Adds two quotes where the record shows no byte.
fn push_blank(is_blank: bool, out: &mut Vec<u8>) -> Result<(), NoMemory>
    ensures { OnOk result (out.new.items ≡ out.old.items ++ (if is_blank then 34 ∷ 34 ∷ [] else [])) }
{
    if is_blank {
        out.extend_from_slice(b"\"\"")?;
    }
    Ok(())
}
