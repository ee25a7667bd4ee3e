//! Statements that are too deep.
ghost use Rattle.std.specs.Prelude.{◌≡◌, ◌≤◌};
ghost use Rattle.og_syntax.specs.Lexemes.{is};
ghost use Rattle.og_syntax.specs.declared.lexeme.Sort.{Sort};
ghost use Rattle.og_parse.specs.Depth as spec;

use og_syntax::{Lexeme, Sort, same_sort};

/// The most parentheses that are open at once, the most words NOT, and the most words UNION, EXCEPT
/// and INTERSECT together, of a statement.
pub const MAX_DEPTH: usize = 100;

/// Whether the lexemes are too deep: more than `MAX_DEPTH` parentheses are open at once, or they have more words NOT,
/// or more words UNION, EXCEPT and INTERSECT together.
#[tactic(auto, unfolding(crate::specs::Depth::is_too_deep))]
pub fn is_too_deep(lexemes: &[Lexeme]) -> bool
    ensures { result ≡ spec.is_too_deep lexemes.now }
{
    is_nested(lexemes)
        || MAX_DEPTH < count_of_nots(lexemes)
        || MAX_DEPTH < count_of_set_words(lexemes)
}

// Whether more than `MAX_DEPTH` parentheses are open at once.
fn is_nested(lexemes: &[Lexeme]) -> bool
    ensures { result ≡ spec.is_nested 0 lexemes.now }
{
    let mut opened = 0;
    'each: for lexeme in lexemes {
        opened = opened_after(opened, lexeme.sort);
        if MAX_DEPTH < opened {
            return true;
        }
    }
    false
}

// How many parentheses are open after a lexeme.
fn opened_after(opened: usize, sort: Sort) -> usize
    requires { opened ≤ spec.max_depth }
    ensures { result ≡ spec.opened_after opened sort }
{
    match sort {
        Sort::LeftParen => opened + 1,
        Sort::RightParen => opened.saturating_sub(1),
        _ => opened,
    }
}

// How many words NOT there are.
fn count_of_nots(lexemes: &[Lexeme]) -> usize
    ensures { result ≡ spec.count_of (is Sort.Not) lexemes.now }
{
    let mut count = 0;
    'each: for lexeme in lexemes {
        if same_sort(lexeme.sort, Sort::Not) {
            count += 1;
        }
    }
    count
}

// How many words UNION, EXCEPT and INTERSECT there are.
fn count_of_set_words(lexemes: &[Lexeme]) -> usize
    ensures { result ≡ spec.count_of spec.is_set_word lexemes.now }
{
    let mut count = 0;
    'each: for lexeme in lexemes {
        if is_set_word(lexeme.sort) {
            count += 1;
        }
    }
    count
}

// Whether the word is UNION, EXCEPT or INTERSECT.
fn is_set_word(sort: Sort) -> bool
    ensures { result ≡ spec.is_set_word sort }
{
    same_sort(sort, Sort::Union)
        || same_sort(sort, Sort::Except)
        || same_sort(sort, Sort::Intersect)
}
