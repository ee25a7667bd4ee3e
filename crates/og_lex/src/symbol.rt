//! Symbols of the language.
ghost use Rattle.std.specs.Prelude.{◌≡◌, ◌==◌, if◌then◌else◌};
ghost use Rattle.og_lex.specs.Front as spec;

use crate::front::{Fault, Front};
use crate::token::TokenKind;

/// A mark of one or two bytes.
#[derive(Clone, Copy, Debug, PartialEq, Eq)]
pub enum Symbol {
    LeftParen,
    RightParen,
    Comma,
    Semicolon,
    Dot,
    Star,
    Equal,
    NotEqual,
    LessEqual,
    GreaterEqual,
    Less,
    Greater,
}

/// The symbol at the front, by its first byte and the one after it.
#[tactic(auto, unfolding(crate::specs::Front::mark))]
pub fn mark(b: u8, next: u8) -> Front
    ensures value { result ≡ spec.mark b next }
    ensures within { spec.IsWithin result (if next == 0 then 1 else 2) }
{
    match b {
        b'<' => less(next),
        b'>' => greater(next),
        b => single(b),
    }
}

// The symbol that begins with `<`.
#[tactic(auto, unfolding(crate::specs::Front::less))]
fn less(next: u8) -> Front
    ensures value { result ≡ spec.less next }
    ensures within { spec.IsWithin result (if next == 0 then 1 else 2) }
{
    match next {
        b'>' => Front::Piece(TokenKind::Sym(Symbol::NotEqual), 2),
        b'=' => Front::Piece(TokenKind::Sym(Symbol::LessEqual), 2),
        _ => Front::Piece(TokenKind::Sym(Symbol::Less), 1),
    }
}

// The symbol that begins with `>`.
#[tactic(auto, unfolding(crate::specs::Front::greater))]
fn greater(next: u8) -> Front
    ensures value { result ≡ spec.greater next }
    ensures within { spec.IsWithin result (if next == 0 then 1 else 2) }
{
    match next {
        b'=' => Front::Piece(TokenKind::Sym(Symbol::GreaterEqual), 2),
        _ => Front::Piece(TokenKind::Sym(Symbol::Greater), 1),
    }
}

// The symbol of one byte.
#[tactic(auto, unfolding(crate::specs::Front::single))]
fn single(b: u8) -> Front
    ensures value { result ≡ spec.single b }
    ensures within { spec.IsWithin result 1 }
{
    match b {
        b'(' => Front::Piece(TokenKind::Sym(Symbol::LeftParen), 1),
        b')' => Front::Piece(TokenKind::Sym(Symbol::RightParen), 1),
        b',' => Front::Piece(TokenKind::Sym(Symbol::Comma), 1),
        b';' => Front::Piece(TokenKind::Sym(Symbol::Semicolon), 1),
        b'.' => Front::Piece(TokenKind::Sym(Symbol::Dot), 1),
        b'*' => Front::Piece(TokenKind::Sym(Symbol::Star), 1),
        b'=' => Front::Piece(TokenKind::Sym(Symbol::Equal), 1),
        _ => Front::Bad(Fault::BadByte),
    }
}
