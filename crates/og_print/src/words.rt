//! Words and their bytes.
ghost use Rattle.std.specs.Prelude.{◌≡◌, ◌++◌, ◌∷◌, [], OnOk};
ghost use Rattle.og_lex.specs.Bytes as bytes;
ghost use Rattle.og_value.specs.Cells.{cell_text};
ghost use Rattle.og_print.specs.Words as spec;

use itoa::Buffer;
use og_base::NoMemory;
use og_syntax::{Sort, word_of};
use og_value::{Name, Value, write_cell};
use std::alloc::Global;

// Appends a reserved word or a symbol.
pub fn plain(sort: Sort, out: &mut Vec<u8>) -> Result<(), NoMemory>
    ensures { OnOk result (out.new.items ≡ spec.with_words out.old.items (spec.Plain sort ∷ [])) }
{
    out.extend_from_slice(mark_text(sort))?;
    out.extend_from_slice(word_of(sort))?;
    out.push(blank_after(sort))?;
    Ok(())
}

// Appends a word between parts, before each but the first.
pub fn separator(is_first: bool, sort: Sort, out: &mut Vec<u8>) -> Result<(), NoMemory>
    ensures { OnOk result (out.new.items ≡ spec.with_words out.old.items (spec.separator_words is_first sort)) }
{
    if is_first {
        return Ok(());
    }
    plain(sort, out)
}

// The blank after a reserved word or a symbol: a line ends with a semicolon.
fn blank_after(sort: Sort) -> u8
    ensures { result ≡ spec.blank_after sort }
{
    match sort {
        Sort::Semicolon => b'\n',
        _ => b' ',
    }
}

// Appends a name.
pub fn named(name: &Name, out: &mut Vec<u8>) -> Result<(), NoMemory>
    ensures { OnOk result (out.new.items ≡ spec.with_words out.old.items (spec.Named name.now ∷ [])) }
{
    out.extend_from_slice(name.bytes())?;
    out.push(b' ')?;
    Ok(())
}

// Appends a number in decimal.
pub fn whole(n: i64, out: &mut Vec<u8>) -> Result<(), NoMemory>
    ensures { OnOk result (out.new.items ≡ spec.with_words out.old.items (spec.Whole n ∷ [])) }
{
    let mut buffer = Buffer::new();
    out.extend_from_slice(buffer.format(n).as_bytes())?;
    out.push(b' ')?;
    Ok(())
}

// Appends a text between quotes.
pub fn quoted(content: &[u8], out: &mut Vec<u8>) -> Result<(), NoMemory>
    ensures { OnOk result (out.new.items ≡ spec.with_words out.old.items (spec.Quoted content.now ∷ [])) }
{
    out.push(b'\'')?;
    doubled(content, out)?;
    out.push(b'\'')?;
    out.push(b' ')?;
    Ok(())
}

// Appends bytes with each quote doubled.
fn doubled(content: &[u8], out: &mut Vec<u8>) -> Result<(), NoMemory>
    ensures { OnOk result (out.new.items ≡ out.old.items ++ bytes.doubled content.now) }
{
    'bytes: for byte in content {
        if *byte == b'\'' {
            out.push(b'\'')?;
        }
        out.push(*byte)?;
    }
    Ok(())
}

// Appends the cell of a value between quotes.
pub fn quoted_cell(alloc: Global, value: &Value, out: &mut Vec<u8>) -> Result<(), NoMemory>
    ensures { OnOk result (out.new.items ≡ spec.with_words out.old.items (spec.Quoted (cell_text value.now) ∷ [])) }
{
    let mut text = Vec::new(alloc);
    write_cell(value, &mut text)?;
    quoted(text.as_slice(), out)
}

// The bytes of a symbol, and none where the sort is that of none.
fn mark_text(sort: Sort) -> &'static [u8]
    ensures { result.now ≡ spec.mark_text sort }
{
    match sort {
        Sort::LeftParen => b"(",
        Sort::RightParen => b")",
        Sort::Comma => b",",
        Sort::Semicolon => b";",
        Sort::Dot => b".",
        Sort::Star => b"*",
        Sort::Equal => b"=",
        Sort::NotEqual => b"<>",
        Sort::LessEqual => b"<=",
        Sort::GreaterEqual => b">=",
        Sort::Less => b"<",
        Sort::Greater => b">",
        _ => b"",
    }
}
