//! Scripts as lists of tokens.
ghost use Rattle.std.specs.Prelude.{◌≡◌, ◌⊎◌, ◌+◌, ◌++◌, ◌<◌, ◌≤◌, ◌^◌, List, true, Ok, IfOk, IfErr, length, drop};
ghost use Rattle.og_lex.specs.Faults.{IsRefusal, IsRefusalFrom};
ghost use Rattle.og_lex.specs.Front as spec;
ghost use Rattle.og_lex.specs.Grammar.{IsLexed, Reads};
ghost use Rattle.og_lex.specs.Endings as endings;
ghost use Rattle.og_lex.specs.Endings.{EndsStatement};
ghost use Rattle.og_lex.specs.declared.token.Token.{Token};

use crate::front::{Front, front_of};
use crate::refusal::{LexRefusal, refusal_at};
use crate::symbol::Symbol;
use crate::token::{Token, TokenKind};
use std::alloc::Global;

/// Cuts a script into its tokens, each the longest at its place. Spaces, tabs, line feeds, carriage
/// returns and comments, from `--` to before the next line feed or the end, stand between tokens and
/// mean nothing. Refused at the first place where no token can be taken: with `OpenText` where a text
/// does not close, with `NumberRange` where a number is outside 64 bits, else with `BadByte`; and
/// with `NoMemory` where memory runs out.
pub fn lex(alloc: Global, script: &[u8]) -> Result<Vec<Token>, LexRefusal>
    ensures tokens { IfOk result (λ tokens. IsLexed script.now tokens.items) }
    ensures refused { IfErr result (IsRefusal script.now) }
{
    pieces(alloc, script)
}

// The tokens, piece by piece.
fn pieces(alloc: Global, script: &[u8]) -> Result<Vec<Token>, LexRefusal>
    ensures tokens { IfOk result (λ tokens. spec.lexed script.now ≡ Ok tokens.items) }
    ensures fault { IfErr result (λ refusal. spec.IsErrorOf refusal (spec.lexed script.now)) }
{
    let mut tokens = Vec::new(alloc);
    let mut rest = script;
    let mut at = 0;
    'pieces: while !rest.is_empty() {
        let taken = take_piece(rest, at, &mut tokens)?;
        let (_, after) = rest.split_at(taken.len);
        rest = after;
        at += taken.len;
    }
    Ok(tokens)
}

/// Makes the list that of the tokens from the place on, in bytes from 0, up to a semicolon or to the end of
/// the script, and gives the place after them. Refused as `lex`, at the first place from there on where no
/// token can be taken.
pub fn lex_part(script: &[u8], from: usize, tokens: &mut Vec<Token>) -> Result<usize, LexRefusal>
    requires { from ≤ length script.now }
    ensures read { IfOk result (λ end. Reads from (drop from script.now) tokens.new.items end (drop end script.now)) }
    ensures within { IfOk result (λ end. (from ≤ end) × (end ≤ length script.now)) }
    ensures forward { from < length script.now → IfOk result (λ end. from < end) }
    ensures ends { IfOk result (λ end. (end ≡ length script.now) ⊎ EndsStatement tokens.new.items) }
    ensures refused { IfErr result (IsRefusalFrom from (drop from script.now)) }
{
    tokens.clear();
    let (_, mut rest) = script.split_at(from);
    let mut at = from;
    'pieces: while !rest.is_empty() {
        let taken = take_piece(rest, at, tokens)?;
        let (_, after) = rest.split_at(taken.len);
        rest = after;
        at += taken.len;
        if taken.ends && tokens.len() >= PART {
            return Ok(at);
        }
    }
    Ok(at)
}

// How many tokens a part has at least, but for the last one.
const PART: usize = 4_096;

// What was taken: how many bytes, and whether they are a semicolon.
#[derive(Clone, Copy, Debug)]
struct Taken {
    len: usize,
    ends: bool,
}

// Takes what stands at the front.
fn take_piece(z: &[u8], at: usize, tokens: &mut Vec<Token>) -> Result<Taken, LexRefusal>
    requires some { 0 < length z.now }
    requires small { at + length z.now < 2 ^ 63 }
    ensures within { IfOk result (λ taken. (1 ≤ taken.len) × (taken.len ≤ length z.now)) }
    ensures taken { IfOk result (λ taken. spec.with_front tokens.old.items (spec.lex_from at 0 z.now) ≡ spec.with_front tokens.new.items (spec.lex_from (at + taken.len) 0 (drop taken.len z.now))) }
    ensures read { IfOk result (λ taken. (more : List Token) × (tokens.new.items ≡ tokens.old.items ++ more) × Reads at z.now more (at + taken.len) (drop taken.len z.now)) }
    ensures ends { IfOk result (λ taken. taken.ends ≡ true → EndsStatement tokens.new.items) }
    ensures fault { IfErr result (λ refusal. spec.IsErrorOf refusal (spec.lex_from at 0 z.now)) }
    ensures refused { IfErr result (IsRefusalFrom at z.now) }
{
    match front_of(z) {
        Front::Skip(len) => Ok(Taken { len, ends: false }),
        Front::Piece(kind, len) => {
            tokens.push(Token {
                kind,
                start: at,
                end: at + len,
            })?;
            Ok(Taken {
                len,
                ends: is_semicolon(kind),
            })
        }
        Front::Bad(fault) => Err(refusal_at(fault, at)),
    }
}

// Whether the token is a semicolon.
fn is_semicolon(kind: TokenKind) -> bool
    ensures { result ≡ endings.is_semicolon kind }
{
    matches!(kind, TokenKind::Sym(Symbol::Semicolon))
}
