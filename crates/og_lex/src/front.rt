//! What stands at the front of the bytes.
ghost use Rattle.std.specs.Prelude.{◌≡◌, ◌+◌, length};
ghost use Rattle.og_lex.specs.Front as spec;

use crate::numeral::number;
use crate::quote::text;
use crate::run::{Class, begins_word, byte_at, is_blank, run_len};
use crate::symbol::mark;
use crate::token::TokenKind;

/// What stands at the front: bytes to pass over, a token, each with its length, or a fault.
#[derive(Clone, Copy, Debug)]
pub enum Front {
    Skip(usize),
    Piece(TokenKind, usize),
    Bad(Fault),
}

/// Why no token stands at the front.
#[derive(Clone, Copy, Debug)]
pub enum Fault {
    BadByte,
    OpenText,
    NumberRange,
}

/// What stands at the front of the bytes.
#[tactic(auto, unfolding(crate::specs::Front::front))]
pub fn front_of(z: &[u8]) -> Front
    ensures value { result ≡ spec.front z.now }
    ensures within { spec.IsWithin result (length z.now) }
{
    let [b, rest @ ..] = z else {
        return Front::Bad(Fault::BadByte);
    };
    if is_blank(*b) {
        Front::Skip(1)
    } else if begins_word(*b) {
        Front::Piece(TokenKind::Word, 1 + run_len(Class::Word, rest))
    } else if b.is_ascii_digit() {
        number(z, false)
    } else if *b == b'-' {
        dash(rest)
    } else if *b == b'\'' {
        text(rest)
    } else {
        mark(*b, byte_at(rest, 0))
    }
}

// The comment or the number that begins with `-`, by the bytes after it.
#[tactic(auto, unfolding(crate::specs::Front::dash))]
fn dash(z: &[u8]) -> Front
    ensures value { result ≡ spec.dash z.now }
    ensures within { spec.IsWithin result (length z.now + 1) }
{
    match z {
        [b'-', rest @ ..] => Front::Skip(2 + run_len(Class::Line, rest)),
        [b'0'..=b'9', ..] => number(z, true),
        _ => Front::Bad(Fault::BadByte),
    }
}
