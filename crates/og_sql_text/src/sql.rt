//! Texts of SQL, as they are written.

use crate::quotes::write_quoted;
use itoa::Buffer;
use og_base::{ExtDay, NoMemory, write_day};
use std::alloc::Global;
use std::marker::Model;

/// A text of SQL. Where memory runs out it is cut: nothing more is written, and `end` is refused. So what writes it has no
/// refusals of its own. Of its bytes nothing is promised.
#[derive(Drop)]
pub struct Sql {
    alloc: Global,
    bytes: Vec<u8>,
    is_cut: bool,
}

impl Model for Sql {
    ghost use Rattle.std.specs.Prelude.{⊤};

    ghost Value = { ⊤ };

    ghost view = { λ _. tt };
}

impl Sql {
    /// The text without bytes. Takes no memory.
    pub fn new(alloc: Global) -> Sql {
        Sql {
            alloc,
            bytes: Vec::new(alloc),
            is_cut: false,
        }
    }

    /// The allocator.
    pub fn alloc(&self) -> Global {
        self.alloc
    }

    /// Its bytes. Refused where memory ran out.
    pub fn end(&self) -> Result<&[u8], NoMemory> {
        if self.is_cut {
            return Err(NoMemory);
        }
        Ok(self.bytes.as_slice())
    }

    // Its bytes, as far as they were written.
    pub(crate) fn written(&self) -> &[u8] {
        self.bytes.as_slice()
    }

    /// Cuts the text, as where memory runs out.
    pub fn cut(&mut self) {
        self.is_cut = true;
    }

    /// What was made, if memory did not run out; and else the text is cut.
    pub fn made<T>(&mut self, made: Result<T, NoMemory>) -> Option<T> {
        match made {
            Ok(value) => Some(value),
            Err(NoMemory) => {
                self.is_cut = true;
                None
            }
        }
    }

    /// Appends words.
    pub fn put(&mut self, words: &str) {
        self.put_bytes(words.as_bytes());
    }

    /// Appends bytes.
    pub fn put_bytes(&mut self, bytes: &[u8]) {
        if self.is_cut {
            return;
        }
        if self.bytes.extend_from_slice(bytes).is_err() {
            self.is_cut = true;
        }
    }

    /// Appends another text.
    pub fn put_sql(&mut self, other: &Sql) {
        if other.is_cut {
            self.is_cut = true;
        }
        self.put_bytes(other.bytes.as_slice());
    }

    /// Appends a number in decimal.
    pub fn number(&mut self, n: usize) {
        let mut buffer = Buffer::new();
        self.put(buffer.format(n));
    }

    /// Appends a number with a sign in decimal.
    pub fn signed(&mut self, n: i64) {
        let mut buffer = Buffer::new();
        self.put(buffer.format(n));
    }

    /// Appends bytes between single quotes, each quote in them doubled.
    pub fn quoted(&mut self, bytes: &[u8]) {
        if self.is_cut {
            return;
        }
        if write_quoted(bytes, &mut self.bytes).is_err() {
            self.is_cut = true;
        }
    }

    /// Appends another text between single quotes.
    pub fn quoted_sql(&mut self, other: &Sql) {
        if other.is_cut {
            self.is_cut = true;
        }
        self.quoted(other.bytes.as_slice());
    }

    /// Appends a day as an expression of SQL.
    pub fn day(&mut self, day: ExtDay) {
        let text = text_of(self.alloc, day);
        let Some(text) = self.made(text) else {
            return;
        };
        if is_of_both(text.as_slice()) {
            self.put("date ");
            self.quoted(text.as_slice());
        } else {
            self.put("read_day(");
            self.quoted(text.as_slice());
            self.put(")");
        }
    }

    /// Appends a day as PostgreSQL reads it in a composite value or a range of COPY.
    pub fn plain_day(&mut self, day: ExtDay) {
        let text = text_of(self.alloc, day);
        let Some(text) = self.made(text) else {
            return;
        };
        if is_of_both(text.as_slice()) {
            self.put_bytes(text.as_slice());
        } else {
            self.before_christ(text.as_slice());
        }
    }

    // Appends the day of a year up to 0, as the year of PostgreSQL before Christ.
    fn before_christ(&mut self, text: &[u8]) {
        let (year, rest) = text.split_at(text.len().saturating_sub(6));
        let number = year.iter().fold(0usize, |n: usize, b: &u8| -> usize {
            if b.is_ascii_digit() {
                n.saturating_mul(10).saturating_add(usize::from(*b - b'0'))
            } else {
                n
            }
        });
        let number = number.saturating_add(1);
        self.put("\"");
        self.put(if number < 10 {
            "000"
        } else if number < 100 {
            "00"
        } else if number < 1000 {
            "0"
        } else {
            ""
        });
        self.number(number);
        self.put_bytes(rest);
        self.put(" BC\"");
    }
}

// The text of the day.
fn text_of(alloc: Global, day: ExtDay) -> Result<Vec<u8>, NoMemory> {
    let mut text = Vec::new(alloc);
    write_day(day, &mut text)?;
    Ok(text)
}

// Whether the text of a day is one of PostgreSQL too: an infinity, or a day of a year from 1 on.
fn is_of_both(text: &[u8]) -> bool {
    match text {
        [b'-', b'i', ..] => true,
        [b'-', ..] => false,
        [b'0', b'0', b'0', b'0', ..] => false,
        _ => true,
    }
}
