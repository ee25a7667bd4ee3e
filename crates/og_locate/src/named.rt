//! The lexeme that is a name.
ghost use Rattle.std.specs.Prelude.{◌↔◌, ◌<◌, ℕ, IsTrue, MatchOption, length};
ghost use Rattle.og_locate.specs.Named.{IsNamed, lexeme_at};

use og_syntax::{Lexeme, Sort, bytes_of, same_sort};

/// The place among the lexemes, from 0, of the first that is the name, in letters of any case. None where none is.
pub fn first_named(script: &[u8], piece: &[Lexeme], name: &[u8]) -> Option<usize>
    ensures { MatchOption result ((i : ℕ) → i < length piece.now → ¬ IsNamed script.now name.now (lexeme_at piece.now i)) (λ n. (n < length piece.now) × IsNamed script.now name.now (lexeme_at piece.now n) × ((i : ℕ) → i < n → ¬ IsNamed script.now name.now (lexeme_at piece.now i))) }
{
    piece
        .iter()
        .position(|lexeme| is_named(script, *lexeme, name))
}

// Whether the lexeme is the name.
fn is_named(script: &[u8], lexeme: Lexeme, name: &[u8]) -> bool
    ensures { IsTrue result ↔ IsNamed script.now name.now lexeme }
{
    same_sort(lexeme.sort, Sort::Name) && bytes_of(script, lexeme).eq_ignore_ascii_case(name)
}
