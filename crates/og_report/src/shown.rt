//! Bytes as a terminal may show them.

use og_base::NoMemory;
use std::alloc::Global;

// The most bytes of a character.
const CHAR: usize = 4;

/// The first characters of bytes.
#[derive(Drop)]
pub struct Excerpt {
    pub text: String,
    /// The number of the characters.
    pub count: usize,
    /// Whether others follow.
    pub is_cut: bool,
}

/// What a tab is shown as: itself in a line of a script, where the mark below it has one too.
#[derive(Clone, Copy, PartialEq, Eq)]
pub enum Tabs {
    Kept,
    Replaced,
}

/// The first `most` characters of the bytes. A control character and bytes that are no UTF-8 are shown as `?`.
pub fn shown(alloc: Global, bytes: &[u8], most: usize, tabs: Tabs) -> Result<Excerpt, NoMemory> {
    let size = bytes.len().min(most.saturating_mul(CHAR));
    let (front, rest) = bytes.split_at(size);
    let lossy = String::from_utf8_lossy(alloc, front)?;
    let mut text = String::new(alloc);
    let mut count = 0_usize;
    'chars: for c in lossy.as_str().chars() {
        if count == most {
            return Ok(Excerpt {
                text,
                count,
                is_cut: true,
            });
        }
        text.push(shown_char(c, tabs))?;
        count = count.saturating_add(1);
    }
    Ok(Excerpt {
        text,
        count,
        is_cut: !rest.is_empty(),
    })
}

// The character, or what is shown for it.
fn shown_char(c: char, tabs: Tabs) -> char {
    let is_kept = c == '\t' && tabs == Tabs::Kept;
    if !is_kept && (c.is_control() || c == char::REPLACEMENT_CHARACTER) {
        return '?';
    }
    c
}

// The most characters of a text, a cell or a list that a message shows.
const MAX_SHOWN: usize = 60;

/// The bytes as a message shows them, `...` behind the first 60 characters where others follow.
pub fn brief(alloc: Global, bytes: &[u8]) -> Result<String, NoMemory> {
    let shown = shown(alloc, bytes, MAX_SHOWN, Tabs::Replaced)?;
    let mut text = shown.text;
    if shown.is_cut {
        text.push_str("...")?;
    }
    Ok(text)
}

/// The bytes as a message shows them, whole.
pub fn whole(alloc: Global, bytes: &[u8]) -> Result<String, NoMemory> {
    Ok(shown(alloc, bytes, bytes.len(), Tabs::Replaced)?.text)
}
