//! The steps of reading lexemes.
ghost use Rattle.std.specs.Prelude.{◌≡◌, ◌∷◌, [], IfOk, drop};
ghost use Rattle.og_syntax.specs.Lexemes.{same_sort, sort_at, sees};
ghost use Rattle.og_syntax.specs.Reading.{Gives, Passes, one, past, pure, tok};

use crate::lexeme::{Lexeme, Sort};
use crate::refusal::Refusal;
use sqlite_items::Items;
use std::alloc::{AllocError, Global};

/// Whether both are the same.
#[tactic(auto, unfolding(crate::specs::Lexemes::same_sort))]
pub fn same_sort(a: Sort, b: Sort) -> bool
    ensures { result ≡ same_sort a b }
{
    a == b
}

/// The sort of the first lexeme, which is `Nothing` where there is none.
pub fn sort_at(lexemes: &[Lexeme]) -> Sort
    ensures { result ≡ sort_at lexemes.now }
{
    match lexemes.first() {
        Some(lexeme) => lexeme.sort,
        None => Sort::Nothing,
    }
}

/// Whether a lexeme of that sort comes first.
#[tactic(auto, unfolding(crate::specs::Lexemes::sees))]
pub fn sees(lexemes: &[Lexeme], sort: Sort) -> bool
    ensures { result ≡ sees sort lexemes.now }
{
    same_sort(sort_at(lexemes), sort)
}

/// The lexemes after the first one.
pub fn after(lexemes: &[Lexeme]) -> &[Lexeme]
    ensures { result.now ≡ drop 1 lexemes.now }
{
    match lexemes.split_first() {
        Some((_, rest)) => rest,
        None => lexemes,
    }
}

/// The lexemes after one of that sort. `Syntax` exactly where no such lexeme comes first.
#[tactic(auto, unfolding(crate::specs::Reading::tok))]
pub fn expect(lexemes: &[Lexeme], sort: Sort) -> Result<&[Lexeme], Refusal>
    ensures { Passes result (tok sort lexemes.now) }
{
    if sees(lexemes, sort) {
        Ok(after(lexemes))
    } else {
        Err(Refusal::Syntax)
    }
}

// What was read, and the lexemes after one of that sort behind it. `Syntax` exactly where no such
// lexeme comes there.
pub fn followed<'a, T: Drop>(
    read: (T, &'a [Lexeme]),
    sort: Sort,
) -> Result<(T, &'a [Lexeme]), Refusal>
    ensures { Gives result (past sort (pure read.entry.0) read.entry.1.now) }
{
    let (value, lexemes) = read;
    let rest = expect(lexemes, sort)?;
    Ok((value, rest))
}

// The list of the first part that was read.
pub fn list_of<T: Drop>(alloc: Global, first: T) -> Result<Items<T>, AllocError>
    ensures { IfOk result (λ parts. parts ≡ first ∷ []) }
{
    let mut parts = Items::new(alloc);
    parts.push(first)?;
    Ok(parts)
}

/// The first lexeme and those after it. `Syntax` exactly where it is not of that sort.
#[tactic(auto, unfolding(crate::specs::Reading::one))]
pub fn one(lexemes: &[Lexeme], sort: Sort) -> Result<(Lexeme, &[Lexeme]), Refusal>
    ensures { Gives result (one sort lexemes.now) }
{
    match lexemes.split_first() {
        Some((lexeme, rest)) => {
            if same_sort(lexeme.sort, sort) {
                Ok((*lexeme, rest))
            } else {
                Err(Refusal::Syntax)
            }
        }
        None => Err(Refusal::Syntax),
    }
}
