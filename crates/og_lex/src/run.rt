//! Runs of bytes of one class.
ghost use Rattle.std.specs.Prelude.{◌≡◌, ◌≢◌, ◌<◌, ◌≤◌, length, slice_index};
ghost use Rattle.std.specs.List.{prefix_len};
ghost use Rattle.og_base.specs.Letters.{begins_word};
ghost use Rattle.og_lex.specs.Bytes.{is_blank};
ghost use Rattle.og_lex.specs.Front as spec;

/// A class of bytes of which runs are made.
#[derive(Clone, Copy, Debug)]
pub enum Class {
    Word,
    Digit,
    Line,
}

// Whether the byte is of the class.
fn is_in(class: Class, b: u8) -> bool
    ensures { result ≡ spec.is_in class b }
{
    match class {
        Class::Word => b.is_ascii_alphanumeric() || b == b'_',
        Class::Digit => b.is_ascii_digit(),
        Class::Line => b != b'\n',
    }
}

/// How many bytes of the class stand at the front.
pub fn run_len(class: Class, z: &[u8]) -> usize
    ensures value { result ≡ prefix_len (spec.is_in class) z.now }
    ensures within { result ≤ length z.now }
{
    let mut end = 0;
    'run: while end < z.len() && is_in(class, z[end]) {
        end += 1;
    }
    end
}

/// Whether the byte stands between tokens.
pub fn is_blank(b: u8) -> bool
    ensures { result ≡ is_blank b }
{
    b == b' ' || b == b'\t' || b == b'\n' || b == b'\r'
}

/// Whether a word begins with the byte.
pub fn begins_word(b: u8) -> bool
    ensures { result ≡ begins_word b }
{
    b.is_ascii_alphabetic() || b == b'_'
}

/// The byte at a place, and 0 after the end.
pub fn byte_at(z: &[u8], at: usize) -> u8
    ensures value { result ≡ slice_index z.now at }
    ensures within { result ≢ 0 → at < length z.now }
{
    if at < z.len() { z[at] } else { 0 }
}
