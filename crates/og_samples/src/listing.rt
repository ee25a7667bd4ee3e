//! What bytes and relations have, beside what is wanted of them. Where memory runs out the answer is no.
use og_base::{NoMemory, RefDay, read_ref_day};
use og_rel::Rel;
use og_value::{FixedRow, Row, write_fixed};
use std::alloc::Global;

/// Whether the bytes are the text.
pub fn is_text(bytes: &[u8], text: &str) -> bool {
    bytes == text.as_bytes()
}

// Appends the cells of the row with commas between them, as a line.
fn add_line(row: &FixedRow, out: &mut Vec<u8>) -> Result<(), NoMemory> {
    for i in 0..row.len() {
        if i > 0 {
            out.push(b',')?;
        }
        write_fixed(row.value(i), out)?;
    }
    out.push(b'\n')?;
    Ok(())
}

/// Whether these are the lines of the rows.
pub fn are_lines(alloc: Global, rows: &[FixedRow], text: &str) -> bool {
    let mut out = Vec::new(alloc);
    for row in rows {
        if add_line(row, &mut out).is_err() {
            return false;
        }
    }
    is_text(out.as_slice(), text)
}

/// Whether these are the lines of the relation on the day.
pub fn has_lines(alloc: Global, rel: &Rel<Row>, day: RefDay, text: &str) -> bool {
    match rel.at(day) {
        Ok(rows) => are_lines(alloc, rows.as_slice(), text),
        Err(_) => false,
    }
}

/// Whether the relation is of that many rows, and these are its lines on the day.
pub fn lists(alloc: Global, rel: &Rel<Row>, len: usize, day: &str, text: &str) -> bool {
    match read_ref_day(day.as_bytes()) {
        Ok(day) => rel.len() == len && has_lines(alloc, rel, day, text),
        Err(_) => false,
    }
}
