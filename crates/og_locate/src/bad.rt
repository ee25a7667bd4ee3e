//! The literal of a statement that is no text of its kind.
ghost use Rattle.std.specs.Prelude.{◌↔◌, IfOk, IsTrue};
ghost use Rattle.og_locate.specs.BadTexts.{IsBad, IsFirstBad, IsNoDay, IsNoDayBehind, IsNoRefDay, IsNoneBehind};
ghost use Rattle.og_syntax.specs.declared.lexeme.Sort as sorts;
ghost use Rattle.og_time.specs.Period.{IsPeriodText, Period};
ghost use Rattle.og_time.specs.Point.{IsPointText, Point};

use og_base::{NoMemory, read_day, read_ref_day};
use og_lex::{Token, TokenKind, has_text, text_of, tokens_of_a_script};
use og_syntax::{Lexeme, Sort, same_sort};
use og_time::{read_period, read_point};
use std::alloc::Global;

/// The place among the lexemes, from 0, of the first text behind DATE, ONGOING or PERIOD that is none of its kind; behind
/// OF DATE its kind is that of reference days. None where each is. Refused only where memory runs out.
pub fn first_bad(alloc: Global, script: &[u8], piece: &[Lexeme]) -> Result<Option<usize>, NoMemory>
    ensures { IfOk result (IsFirstBad script.now sorts.Sort.Nothing sorts.Sort.Nothing 0 piece.now) }
{
    let mut rest = piece;
    let mut at = 0;
    let mut earlier = Sort::Nothing;
    let mut word = Sort::Nothing;
    'lexemes: while !rest.is_empty() {
        let lexeme = rest[0];
        if is_bad(alloc, script, earlier, word, lexeme)? {
            return Ok(Some(at));
        }
        let (_, after) = rest.split_at(1);
        rest = after;
        at += 1;
        earlier = word;
        word = lexeme.sort;
    }
    Ok(None)
}

// Whether the lexeme is a text that is none of the kind that two lexemes of these sorts ask for.
fn is_bad(
    alloc: Global,
    script: &[u8],
    earlier: Sort,
    word: Sort,
    lexeme: Lexeme,
) -> Result<bool, NoMemory>
    ensures { IfOk result (λ b. IsTrue b ↔ IsBad script.now earlier word lexeme) }
{
    tokens_of_a_script();
    if !same_sort(lexeme.sort, Sort::Quoted) {
        return Ok(false);
    }
    let token = Token {
        kind: TokenKind::Text,
        start: lexeme.start,
        end: lexeme.end,
    };
    if !has_text(script, &token) {
        return Ok(false);
    }
    let content = text_of(alloc, script, &token)?;
    Ok(is_none_behind(earlier, word, content.as_slice()))
}

// Whether the bytes are no text of the kind that two lexemes of these sorts ask for.
fn is_none_behind(earlier: Sort, word: Sort, z: &[u8]) -> bool
    ensures { IsTrue result ↔ IsNoneBehind earlier word z.now }
{
    match word {
        Sort::Date => is_no_day_behind(earlier, z),
        Sort::Ongoing => is_no_point(z),
        Sort::Period => is_no_period(z),
        _ => false,
    }
}

// Whether the bytes are no day text behind DATE, and behind OF DATE none of a reference day.
fn is_no_day_behind(earlier: Sort, z: &[u8]) -> bool
    ensures { IsTrue result ↔ IsNoDayBehind earlier z.now }
{
    if same_sort(earlier, Sort::Of) {
        return is_no_ref_day(z);
    }
    is_no_day(z)
}

// Whether the bytes are no day text of a reference day.
fn is_no_ref_day(z: &[u8]) -> bool
    ensures { IsTrue result ↔ IsNoRefDay z.now }
{
    match read_ref_day(z) {
        Ok(_) => false,
        Err(_) => true,
    }
}

// Whether the bytes are no day text.
fn is_no_day(z: &[u8]) -> bool
    ensures { IsTrue result ↔ IsNoDay z.now }
{
    match read_day(z) {
        Ok(_) => false,
        Err(_) => true,
    }
}

// Whether the bytes are no point text.
fn is_no_point(z: &[u8]) -> bool
    ensures { IsTrue result ↔ ((p : Point) → ¬ IsPointText z.now p) }
{
    match read_point(z) {
        Ok(_) => false,
        Err(_) => true,
    }
}

// Whether the bytes are no period text.
fn is_no_period(z: &[u8]) -> bool
    ensures { IsTrue result ↔ ((i : Period) → ¬ IsPeriodText z.now i) }
{
    match read_period(z) {
        Ok(_) => false,
        Err(_) => true,
    }
}
