//! What is wrong with a file, in words.

use crate::scene::Scene;
use crate::shown::{brief, whole};
use csv::ByteRecord;
use og_base::NoMemory;
use og_faults::{Fault, kind_word};
use og_file::{BadRecord, bad_record, bad_saved_record, record_at};
use og_lex::{Token, TokenKind, has_text, text_of};
use og_syntax::{Lexeme, Sort, bytes_of, sees};
use og_value::{Catalog, Name, NameRefusal, Schema};
use std::alloc::Global;

// The most bytes of a list that are put together: more than a message shows of it.
const MAX_LIST: usize = 1_024;

/// The words of a fault of a file, which the statement names; without a statement the words of the command do. The bytes
/// that were read last are those of the file. Refused only where memory runs out.
pub fn file_words(
    alloc: Global,
    scene: &Scene<'_>,
    piece: &[Lexeme],
    fault: &Fault,
) -> Result<String, NoMemory> {
    let file = file_of(alloc, scene, piece)?;
    let file = file.as_str();
    match fault {
        Fault::NoFile { .. } => Ok(format!(in alloc; "{file}: no such file")?),
        Fault::Header { .. } => header_words(alloc, scene, piece, file),
        Fault::Record { number, .. } => record_words(alloc, scene, piece, file, *number),
        Fault::RowCount { said, found, .. } => {
            let rows = if *said == 1 { "row" } else { "rows" };
            Ok(format!(in alloc; "{file}: it says {said} {rows}, and has {found}")?)
        }
        _ => Ok(String::new(alloc)),
    }
}

// The name of the file: the text of the statement, or the second word of the command `at`.
fn file_of(alloc: Global, scene: &Scene<'_>, piece: &[Lexeme]) -> Result<String, NoMemory> {
    'lexemes: for lexeme in piece {
        if lexeme.sort == Sort::Quoted {
            return content_of(alloc, scene.script, *lexeme);
        }
    }
    if scene.words.len() < 2 {
        return Ok(String::new(alloc));
    }
    whole(alloc, scene.words.word(1).as_bytes())
}

// What stands between the quotes of the text.
fn content_of(alloc: Global, script: &[u8], lexeme: Lexeme) -> Result<String, NoMemory> {
    let token = Token {
        kind: TokenKind::Text,
        start: lexeme.start,
        end: lexeme.end,
    };
    if !has_text(script, &token) {
        return Ok(String::new(alloc));
    }
    let content = text_of(alloc, script, &token)?;
    whole(alloc, content.as_slice())
}

// The columns of the table that an IMPORT names. None for another statement.
fn table_of<'a>(
    alloc: Global,
    scene: &Scene<'a>,
    piece: &[Lexeme],
) -> Result<Option<&'a Schema>, NoMemory> {
    if !sees(piece, Sort::Import) {
        return Ok(None);
    }
    let Some(lexeme) = piece.get(2) else {
        return Ok(None);
    };
    match Name::of(alloc, bytes_of(scene.script, *lexeme)) {
        Ok(name) => Ok(scene.db.schema(&name)),
        Err(NameRefusal::NotAName) => Ok(None),
        Err(NameRefusal::NoMemory) => Err(NoMemory),
    }
}

// The words for a file that does not begin as it has to.
fn header_words(
    alloc: Global,
    scene: &Scene<'_>,
    piece: &[Lexeme],
    file: &str,
) -> Result<String, NoMemory> {
    let first = record_at(alloc, scene.read, 1)?;
    if let Some(schema) = table_of(alloc, scene, piece)? {
        let wanted = names_of(alloc, schema)?;
        let found = fields_of(alloc, &first)?;
        return Ok(format!(in alloc;
            "{file}, record 1: wanted {}, found {}",
            wanted.as_str(),
            found.as_str()
        )?);
    }
    if !is_mark(&first) {
        let found = fields_of(alloc, &first)?;
        return Ok(format!(in alloc; "{file}, record 1: wanted ongq:2, found {}", found.as_str())?);
    }
    let found = fields_of(alloc, &record_at(alloc, scene.read, 2)?)?;
    Ok(format!(in alloc;
        "{file}, record 2: wanted columns as id:INT, found {}",
        found.as_str()
    )?)
}

// Whether the record is the first one of a saved file of version 2.
fn is_mark(record: &Option<ByteRecord>) -> bool {
    match record {
        Some(fields) => fields.len() == 1 && fields.get(0) == Some(b"ongq:2".as_slice()),
        None => false,
    }
}

// The names of the columns, with commas between them.
fn names_of(alloc: Global, schema: &Schema) -> Result<String, NoMemory> {
    let mut list = Vec::new(alloc);
    'columns: for i in 0..schema.len() {
        if i > 0 {
            list.push(b',')?;
        }
        list.extend_from_slice(schema.column(i).name.bytes())?;
    }
    brief(alloc, list.as_slice())
}

// The fields of the record, with commas between them, or the end.
fn fields_of(alloc: Global, record: &Option<ByteRecord>) -> Result<String, NoMemory> {
    let Some(fields) = record else {
        return Ok(String::from_str(alloc, "the end")?);
    };
    let mut list = Vec::new(alloc);
    'fields: for i in 0..fields.len() {
        if i > 0 {
            list.push(b',')?;
        }
        list.extend_from_slice(fields.get(i).unwrap_or(b""))?;
        if list.len() > MAX_LIST {
            break;
        }
    }
    brief(alloc, list.as_slice())
}

// The words for a record that is not of its form.
fn record_words(
    alloc: Global,
    scene: &Scene<'_>,
    piece: &[Lexeme],
    file: &str,
    number: u64,
) -> Result<String, NoMemory> {
    let bad = match table_of(alloc, scene, piece)? {
        Some(schema) => bad_record(alloc, schema, scene.read, number)?,
        None => bad_saved_record(alloc, scene.read, number)?,
    };
    let place = format!(in alloc; "{file}, record {number}")?;
    bad_words(alloc, place.as_str(), &bad)
}

// The words for what is wrong with the record at that place.
fn bad_words(alloc: Global, place: &str, bad: &Option<BadRecord>) -> Result<String, NoMemory> {
    let words = match bad {
        Some(BadRecord::Fields { wanted, found }) => {
            let fields = if *wanted == 1 { "field" } else { "fields" };
            format!(in alloc; "{place}: wanted {wanted} {fields}, found {found}")?
        }
        Some(BadRecord::Cell { column, bytes }) => {
            let cell = brief(alloc, bytes.as_slice())?;
            let (name, kind) = (column.name.as_str(), kind_word(column.kind));
            format!(in alloc;
                "{place}, column {name} {kind}: '{}' is no {kind}",
                cell.as_str()
            )?
        }
        Some(BadRecord::Days { bytes }) => {
            let cell = brief(alloc, bytes.as_slice())?;
            format!(in alloc; "{place}: '{}' is no set of days", cell.as_str())?
        }
        Some(BadRecord::Missing) => format!(in alloc; "{place}: wanted rows:N, found the end")?,
        Some(BadRecord::NotLast) => {
            format!(in alloc; "{place}: wanted no record behind it, found one")?
        }
        None => format!(in alloc; "{place}: it is no row")?,
    };
    Ok(words)
}
