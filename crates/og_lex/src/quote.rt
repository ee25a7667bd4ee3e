//! Texts between quotes.
ghost use Rattle.std.specs.Prelude.{◌≡◌, ◌↔◌, ◌+◌, ◌<◌, IfSome, IfOk, IsTrue, false, length};
ghost use Rattle.std.specs.Str.{is_utf8};
ghost use Rattle.og_lex.specs.Front as spec;
ghost use Rattle.og_lex.specs.Grammar.{HasText, IsTextAt};

use crate::front::{Fault, Front};
use crate::run::byte_at;
use crate::token::{Token, TokenKind};
use memchr::memchr;
use og_base::NoMemory;
use std::alloc::Global;
use std::borrow::CowSlice;
use std::marker::Model;

/// The text at the front, by the bytes after its first quote.
#[tactic(auto, unfolding(crate::specs::Front::text))]
pub fn text(z: &[u8]) -> Front
    ensures value { result ≡ spec.text z.now }
    ensures within { spec.IsWithin result (length z.now + 1) }
{
    let Some(len) = closing(z) else {
        return Front::Bad(Fault::OpenText);
    };
    let (inner, _) = z.split_at(len);
    if is_text(inner) {
        Front::Piece(TokenKind::Text, len + 2)
    } else {
        Front::Bad(Fault::BadByte)
    }
}

// Whether the bytes are UTF-8.
fn is_text(z: &[u8]) -> bool
    ensures { result ≡ is_utf8 z.now }
{
    std::str::from_utf8(z).is_ok()
}

// The place of the closing quote: the first quote that is none of a doubled pair.
fn closing(z: &[u8]) -> Option<usize>
    ensures value { result ≡ spec.closing false 0 z.now }
    ensures within { IfSome result (λ end. end < length z.now) }
{
    // Most texts have no quote, and then the first one closes.
    let first = memchr(b'\'', z)?;
    if byte_at(z, first + 1) != b'\'' {
        return Some(first);
    }
    closing_past_pairs(z)
}

// The same, by a look at each byte.
fn closing_past_pairs(mut z: &[u8]) -> Option<usize>
    ensures value { result ≡ spec.closing false 0 z.entry.now }
    ensures within { IfSome result (λ end. end < length z.entry.now) }
{
    let mut is_second = false;
    let mut at = 0;
    'bytes: while let [b, rest @ ..] = z {
        if !is_second && *b == b'\'' && byte_at(rest, 0) != b'\'' {
            return Some(at);
        }
        is_second = !is_second && *b == b'\'';
        at += 1;
        z = rest;
    }
    None
}

/// What stands between the quotes of a text, seen as its bytes: those of the script, or new ones where a
/// quote stands among them.
#[derive(Drop)]
pub struct Unquoted<'a> {
    bytes: CowSlice<'a, u8>,
}

impl<'a> Model for Unquoted<'a> {
    ghost use Rattle.std.specs.Prelude.{List, ℕ};
    ghost use Rattle.std.specs.Cow.{cow_slice_items};

    ghost Value = { List ℕ };

    ghost view = { λ c. cow_slice_items c.bytes };
}

impl<'a> Unquoted<'a> {
    /// The bytes.
    pub fn as_slice(&self) -> &[u8]
        ensures { result.now ≡ self.now }
    {
        self.bytes.as_slice()
    }
}

/// Whether the bytes of the token are a text.
pub fn has_text(script: &[u8], token: &Token) -> bool
    ensures { IsTrue result ↔ HasText script.now token.now }
{
    let (start, end) = (token.start, token.end);
    start < end && end <= script.len() && is_quoted(&script[start..end])
}

// Whether a quote comes first, and the text that it begins ends with the bytes.
fn is_quoted(z: &[u8]) -> bool
    ensures { result ≡ spec.is_quoted z.now }
{
    let [b'\'', rest @ ..] = z else {
        return false;
    };
    match closing(rest) {
        Some(end) => end + 1 == rest.len(),
        None => false,
    }
}

/// The content of a text token of the script, with each doubled quote made single. The bytes of the
/// token have to be a text. They are copied where a quote stands among them alone. Refused where
/// memory runs out.
pub fn text_of<'a>(alloc: Global, script: &'a [u8], token: &Token) -> Result<Unquoted<'a>, NoMemory>
    requires { HasText script.now token.now }
    ensures content { IfOk result (λ content. IsTextAt script.now token.now content) }
{
    let inner = &script[token.start + 1..token.end - 1];
    singled(alloc, inner)
}

// The bytes without the second of each two quotes.
fn singled(alloc: Global, z: &[u8]) -> Result<Unquoted<'_>, NoMemory>
    ensures { IfOk result (λ content. content ≡ spec.single_quotes false z.now) }
{
    if !z.contains(&b'\'') {
        return Ok(Unquoted {
            bytes: CowSlice::Borrowed(z),
        });
    }
    Ok(Unquoted {
        bytes: CowSlice::Owned(single(alloc, z)?),
    })
}

// A copy of the bytes without the second of each two quotes.
fn single(alloc: Global, mut z: &[u8]) -> Result<Vec<u8>, NoMemory>
    ensures { IfOk result (λ content. content.items ≡ spec.single_quotes false z.entry.now) }
{
    let mut content = Vec::new(alloc);
    let mut is_second = false;
    'bytes: while let [b, rest @ ..] = z {
        if !is_second {
            content.push(*b)?;
        }
        is_second = !is_second && *b == b'\'';
        z = rest;
    }
    Ok(content)
}
