//! The line of a script on which a fault stands, with a mark below it.

use crate::finding::Mark;
use crate::shown::{Tabs, shown};
use memchr::memchr;
use og_base::NoMemory;
use og_locate::line_start;
use std::alloc::Global;

// The most characters of a line that are shown.
const MAX_LINE: usize = 100;

// The most characters before the mark; where there are more, the last ones alone are shown.
const MAX_BEFORE: usize = 60;

const LEAST_BEFORE: usize = 40;

/// The line of the mark, and below it `^` at its first character and `~` at the others, each behind two blanks. Of a long
/// line the part around the mark is shown.
pub fn drawing(alloc: Global, script: &[u8], mark: Mark) -> Result<String, NoMemory> {
    let at = mark.start.min(script.len());
    let (front, rest) = script.split_at(at);
    let (_, before) = front.split_at(line_start(script, at));
    let rest = line_front(rest);
    let marked = &rest[..mark.end.saturating_sub(at).min(rest.len())];
    let before_shown = shown_before(alloc, before)?;
    let room = MAX_LINE.saturating_sub(before_shown.count);
    let behind = shown(alloc, rest, room, Tabs::Kept)?;
    let count = shown(alloc, marked, room, Tabs::Kept)?.count;
    let mut lines = String::new(alloc);
    lines.push_str("  ")?;
    lines.push_str(before_shown.dots)?;
    lines.push_str(before_shown.text.as_str())?;
    lines.push_str(behind.text.as_str())?;
    lines.push_str(if behind.is_cut { "...\n  " } else { "\n  " })?;
    put_blanks(&mut lines, before_shown.dots)?;
    put_blanks(&mut lines, before_shown.text.as_str())?;
    put_mark(&mut lines, count)?;
    Ok(lines)
}

// What stands before the mark.
#[derive(Drop)]
struct Before {
    text: String,
    count: usize,
    // What stands for the beginning of the line where it is not shown.
    dots: &'static str,
}

// The line before the mark, or its last characters.
fn shown_before(alloc: Global, before: &[u8]) -> Result<Before, NoMemory> {
    let count = before.iter().filter(|b| begins_char(**b)).count();
    if count <= MAX_BEFORE {
        let shown = shown(alloc, before, before.len(), Tabs::Kept)?;
        return Ok(Before {
            text: shown.text,
            count: shown.count,
            dots: "",
        });
    }
    let last = behind_chars(before, count.saturating_sub(LEAST_BEFORE));
    let shown = shown(alloc, last, last.len(), Tabs::Kept)?;
    Ok(Before {
        text: shown.text,
        count: shown.count,
        dots: "...",
    })
}

// Whether a character begins with the byte.
fn begins_char(b: u8) -> bool {
    b < 128 || b >= 192
}

// The bytes behind that many characters.
fn behind_chars(bytes: &[u8], count: usize) -> &[u8] {
    let mut left = count;
    'bytes: for i in 0..bytes.len() {
        if begins_char(bytes[i]) {
            if left == 0 {
                return &bytes[i..];
            }
            left -= 1;
        }
    }
    &[]
}

// The bytes up to the end of the line, without a carriage return before it.
fn line_front(bytes: &[u8]) -> &[u8] {
    let end = memchr(b'\n', bytes).unwrap_or(bytes.len());
    let (line, _) = bytes.split_at(end.min(bytes.len()));
    line.strip_suffix(b"\r".as_slice()).unwrap_or(line)
}

// Puts a blank for each character, and a tab for a tab.
fn put_blanks(lines: &mut String, text: &str) -> Result<(), NoMemory> {
    'chars: for c in text.chars() {
        lines.push(if c == '\t' { c } else { ' ' })?;
    }
    Ok(())
}

// Puts the mark of that many characters, and ends the line.
fn put_mark(lines: &mut String, count: usize) -> Result<(), NoMemory> {
    lines.push('^')?;
    'chars: for _ in 1..count {
        lines.push('~')?;
    }
    lines.push('\n')?;
    Ok(())
}
