//! Texts of SQL between dollars, in which nothing is written otherwise than alone.

use crate::sql::Sql;

/// Appends a text on lines of its own between the word in dollars. Where the text has these, the word has underscores behind
/// it, more than stand anywhere in the text.
pub fn put_dollars(word: &str, sql: &Sql, out: &mut Sql) {
    let text = sql.written();
    let marks = if has_dollars(word.as_bytes(), text) {
        underscores_in(text).saturating_add(1)
    } else {
        0
    };
    put_tag(word, marks, out);
    out.put("\n");
    out.put_sql(sql);
    out.put(if text.ends_with(b"\n") { "" } else { "\n" });
    put_tag(word, marks, out)
}

// Appends the word and that number of underscores, in dollars.
fn put_tag(word: &str, marks: usize, out: &mut Sql) {
    out.put("$");
    out.put(word);
    'marks: for _ in 0..marks {
        out.put("_");
    }
    out.put("$")
}

// Whether the text has the word in dollars.
fn has_dollars(word: &[u8], text: &[u8]) -> bool {
    let mut found = 0;
    'bytes: for b in text {
        if found == word.len().saturating_add(1) && *b == b'$' {
            return true;
        }
        found = found_with(word, found, *b);
    }
    false
}

// How many bytes of a dollar and the word are the last of a text, where that many were before its last byte.
fn found_with(word: &[u8], found: usize, b: u8) -> usize {
    if b == b'$' {
        return 1;
    }
    if found > 0 && word.get(found - 1) == Some(&b) {
        return found.saturating_add(1);
    }
    0
}

// The most underscores in a row.
fn underscores_in(text: &[u8]) -> usize {
    let mut most = 0usize;
    let mut row = 0usize;
    'bytes: for b in text {
        row = if *b == b'_' { row.saturating_add(1) } else { 0 };
        most = most.max(row);
    }
    most
}
