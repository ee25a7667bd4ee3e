//! Tokens, each with its place in the script.

use crate::symbol::Symbol;

/// What a token is.
#[derive(Clone, Copy, Debug, PartialEq, Eq)]
pub enum TokenKind {
    /// A letter or `_`, then letters, digits and `_`.
    Word,
    /// Digits with an optional `-`, and their value.
    Number(i64),
    /// Bytes between two quotes, in which each quote is doubled.
    Text,
    /// A mark.
    Sym(Symbol),
}

/// A token and its bytes in the script, from `start` to before `end`.
#[derive(Clone, Copy, Debug, PartialEq, Eq)]
pub struct Token {
    pub kind: TokenKind,
    pub start: usize,
    pub end: usize,
}
