//! Texts between quotes, and comments.
ghost use Rattle.std.specs.Prelude.{◌≡◌, ◌++◌, ◌∷◌, [], OnOk};
ghost use Rattle.og_lex.specs.Bytes.{doubled};
ghost use Rattle.og_lex.specs.Bytes as lexed;
ghost use Rattle.og_sql_text.specs.Texts.{commented};
ghost use Rattle.og_sql_text.specs.Texts as meant;

use og_base::NoMemory;

/// Appends bytes between single quotes, each quote in them doubled. Refused only for want of memory.
pub fn write_quoted(bytes: &[u8], out: &mut Vec<u8>) -> Result<(), NoMemory>
    ensures { OnOk result (out.new.items ≡ out.old.items ++ lexed.quoted bytes.now) }
{
    out.push(b'\'')?;
    'bytes: for b in bytes {
        put_quoted(*b, out)?;
    }
    out.push(b'\'')?;
    Ok(())
}

// Appends a byte of a text between quotes.
fn put_quoted(b: u8, out: &mut Vec<u8>) -> Result<(), NoMemory>
    ensures { OnOk result (out.new.items ≡ out.old.items ++ doubled (b ∷ [])) }
{
    if b == b'\'' {
        out.push(b'\'')?;
    }
    out.push(b)?;
    Ok(())
}

/// Appends a comment: `-- ` before each line of the text, and a line feed. Refused only for want of memory.
pub fn write_comment(text: &[u8], out: &mut Vec<u8>) -> Result<(), NoMemory>
    ensures { OnOk result (out.new.items ≡ out.old.items ++ meant.comment text.now) }
{
    out.extend_from_slice(b"-- ")?;
    'bytes: for b in text {
        put_commented(*b, out)?;
    }
    out.push(b'\n')?;
    Ok(())
}

// Appends a byte of a comment.
fn put_commented(b: u8, out: &mut Vec<u8>) -> Result<(), NoMemory>
    ensures { OnOk result (out.new.items ≡ out.old.items ++ commented b) }
{
    if b == b'\n' || b == b'\r' {
        out.extend_from_slice(b"\n-- ")?;
        return Ok(());
    }
    out.push(b)?;
    Ok(())
}
