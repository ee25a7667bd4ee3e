//! Names and texts, by the bytes of their lexemes.
ghost use Rattle.std.specs.Prelude.{◌≡◌, take, drop};
ghost use Rattle.og_syntax.specs.Reading.{Gives};
ghost use Rattle.og_syntax.specs.Reader as spec;
ghost use Rattle.og_syntax.specs.Spans as spans;

use crate::lexeme::{Lexeme, Sort};
use crate::reading::Reading;
use crate::refusal::Refusal;
use crate::step::one;
use og_lex::{Token, TokenKind, Unquoted, has_text, text_of};
use og_value::{Name, NameRefusal, Text, TextRefusal};

/// The bytes of the lexeme.
#[tactic(auto, unfolding(crate::specs::Spans::spelling))]
pub fn bytes_of(script: &[u8], lexeme: Lexeme) -> &[u8]
    ensures { result.now ≡ spans.spelling script.now lexeme }
{
    let rest = after_bytes(script, lexeme.start);
    front_bytes(rest, lexeme.end.saturating_sub(lexeme.start))
}

// The bytes after so many of them.
fn after_bytes(bytes: &[u8], count: usize) -> &[u8]
    ensures { result.now ≡ drop count bytes.now }
{
    if count >= bytes.len() {
        return &bytes[bytes.len()..];
    }
    &bytes[count..]
}

// So many of the first bytes.
fn front_bytes(bytes: &[u8], count: usize) -> &[u8]
    ensures { result.now ≡ take count bytes.now }
{
    if count >= bytes.len() {
        return bytes;
    }
    &bytes[..count]
}

// The token of a text.
fn text_token(lexeme: Lexeme) -> Token
    ensures { result ≡ spans.text_token lexeme }
{
    Token {
        kind: TokenKind::Text,
        start: lexeme.start,
        end: lexeme.end,
    }
}

/// The name that the lexemes begin with, in lower case, and the lexemes after it.
#[tactic(auto, unfolding(crate::specs::Reader::name))]
pub fn name<'a>(
    reading: &Reading<'_>,
    lexemes: &'a [Lexeme],
) -> Result<(Name, &'a [Lexeme]), Refusal>
    ensures { Gives result (spec.name reading.now.script.now lexemes.now) }
{
    let (lexeme, rest) = one(lexemes, Sort::Name)?;
    match Name::of(reading.alloc, bytes_of(reading.script, lexeme)) {
        Ok(name) => Ok((name, rest)),
        Err(NameRefusal::NotAName) => Err(Refusal::Syntax),
        Err(NameRefusal::NoMemory) => Err(Refusal::NoMemory),
    }
}

/// What stands between the quotes that the lexemes begin with, each doubled quote made single.
#[tactic(auto, unfolding(crate::specs::Reader::quoted))]
pub fn quoted<'a, 's>(
    reading: &Reading<'s>,
    lexemes: &'a [Lexeme],
) -> Result<(Unquoted<'s>, &'a [Lexeme]), Refusal>
    ensures { Gives result (spec.quoted reading.now.script.now lexemes.now) }
{
    let (lexeme, rest) = one(lexemes, Sort::Quoted)?;
    let token = text_token(lexeme);
    if !has_text(reading.script, &token) {
        return Err(Refusal::Syntax);
    }
    Ok((text_of(reading.alloc, reading.script, &token)?, rest))
}

/// The text that the lexemes begin with, and the lexemes after it.
#[tactic(auto, unfolding(crate::specs::Reader::text))]
pub fn text<'a>(
    reading: &Reading<'_>,
    lexemes: &'a [Lexeme],
) -> Result<(Text, &'a [Lexeme]), Refusal>
    ensures { Gives result (spec.text reading.now.script.now lexemes.now) }
{
    let (bytes, rest) = quoted(reading, lexemes)?;
    match Text::of(reading.alloc, bytes.as_slice()) {
        Ok(text) => Ok((text, rest)),
        Err(TextRefusal::NotText) => Err(Refusal::Syntax),
        Err(TextRefusal::NoMemory) => Err(Refusal::NoMemory),
    }
}
