//! The line and the column of a place in a script.
ghost use Rattle.std.specs.Prelude.{◌≡◌, ◌≤◌, length};
ghost use Rattle.og_locate.specs.Positions as spec;

use memchr::memrchr;

/// A line, counted from 1, and a column of it, counted in characters from 1.
#[derive(Clone, Copy, Debug, PartialEq, Eq)]
pub struct Position {
    pub line: usize,
    pub column: usize,
}

/// The line and the column of the byte at that offset, counted from 0, or of the end of the script. A byte that goes on
/// with a character of UTF-8 begins no column.
pub fn position_of(script: &[u8], offset: usize) -> Position
    requires { offset ≤ length script.now }
    ensures { spec.IsPositionOf script.now offset result }
{
    let (before, _) = script.split_at(offset);
    let line = line_behind(before);
    let start = line_start(script, offset);
    let (_, front) = before.split_at(start);
    Position {
        line,
        column: column_behind(front),
    }
}

/// The offset at which the line of the byte at that offset begins: behind the last line feed before it.
pub fn line_start(script: &[u8], offset: usize) -> usize
    requires { offset ≤ length script.now }
    ensures start { spec.IsLineStart script.now offset result }
    ensures within { result ≤ offset }
{
    let (before, _) = script.split_at(offset);
    match memrchr(b'\n', before) {
        Some(at) => at + 1,
        None => 0,
    }
}

// The line behind these bytes.
fn line_behind(bytes: &[u8]) -> usize
    ensures { result ≡ spec.line_behind bytes.now }
{
    bytes.iter().filter(|b| **b == b'\n').count() + 1
}

// The column behind these bytes of a line.
fn column_behind(bytes: &[u8]) -> usize
    ensures { result ≡ spec.column_behind bytes.now }
{
    bytes.iter().filter(|b| begins_char(**b)).count() + 1
}

// Whether a character begins with the byte.
fn begins_char(b: u8) -> bool
    ensures { result ≡ spec.begins_char b }
{
    b < 128 || b >= 192
}
