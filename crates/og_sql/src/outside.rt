//! What standard error says of a value that PostgreSQL cannot hold.

use og_base::{NoMemory, write_day};
use og_locate::{piece_at, position_of};
use og_sql_outside::Outside;
use std::alloc::Global;

/// The message: the line and the column of the first word of the statement with that number, and words.
pub fn outside_report(
    alloc: Global,
    script: &[u8],
    statement: usize,
    what: Outside,
) -> Result<String, NoMemory> {
    let words = words_of(alloc, what)?;
    let words = words.as_str();
    let start = start_of(alloc, script, statement)?;
    let position = position_of(script, start.min(script.len()));
    let (line, column) = (position.line, position.column);
    Ok(format!(in alloc; "{line}:{column}: {words}\n")?)
}

// Where the statement with that number begins.
fn start_of(alloc: Global, script: &[u8], statement: usize) -> Result<usize, NoMemory> {
    let Some(piece) = piece_at(alloc, script, statement)? else {
        return Ok(0);
    };
    match piece.first() {
        Some(lexeme) => Ok(lexeme.start),
        None => Ok(0),
    }
}

// What is wrong with the value.
fn words_of(alloc: Global, what: Outside) -> Result<String, NoMemory> {
    match what {
        Outside::Day(day) => {
            let mut text = Vec::new(alloc);
            write_day(day, &mut text)?;
            let day = std::str::from_utf8(text.as_slice()).unwrap_or("");
            Ok(format!(in alloc; "PostgreSQL has no day before -004713-11-24, found {day}")?)
        }
        Outside::Nul => Ok(String::from_str(alloc, "PostgreSQL has no text with a byte 0")?),
    }
}
