//! Scripts.
ghost use Rattle.std.specs.Prelude.{◌≡◌, ◌+◌, ◌<◌, ◌≤◌, ◌^◌, List, IfOk, IfErr, length};
ghost use Rattle.og_lex.specs.Grammar.{IsLexed};
ghost use Rattle.og_lex.specs.declared.token.Token.{Token};
ghost use Rattle.og_parse.specs.Bytes.{IsRefusedAs, IsScriptRefusal};
ghost use Rattle.og_parse.specs.Script.{AreGood, HasFirstFault, IsScript, IsFirstFault, OrNoMemory, pieces};
ghost use Rattle.og_parse.specs.Tokens.{lexemes_of};

use crate::lexemes::next_piece;
use crate::piece::read_piece;
use crate::refusal::{ParseRefusal, ScriptRefusal};
use og_lex::{Token, lex_part};
use og_syntax::{Script, Stmt};
use sqlite_items::Items;
use std::alloc::Global;

/// The tree of a script, from its tokens: the tokens are cut after each `;`, and each piece is a
/// statement. Refused with the fault of the first piece that has one, and its number from 1:
/// `TooDeep` where it is too deep, else `Syntax` where it is no statement, else `Literal` where a
/// quoted text of it is not of its form; and with `NoMemory` where memory runs out.
pub fn parse(alloc: Global, script: &[u8], tokens: &[Token]) -> Result<Script, ParseRefusal>
    ensures tree { IfOk result (λ tree. IsScript script.now tokens.now tree.stmts) }
    ensures refused { IfErr result (OrNoMemory (IsFirstFault script.now tokens.now)) }
{
    let stmts = statements(alloc, script, tokens, 1)?;
    Ok(Script { stmts })
}

/// The tree of the bytes of a script, the same as `parse` gives for what `lex` does, and refused as these are. The
/// tokens of some statements at a time stand in memory.
pub fn parse_bytes(alloc: Global, script: &[u8]) -> Result<Script, ScriptRefusal>
    ensures tree { IfOk result (λ tree. (tokens : List Token) × IsLexed script.now tokens × IsScript script.now tokens tree.stmts) }
    ensures refused { IfErr result (IsScriptRefusal script.now) }
{
    let mut stmts = Items::new(alloc);
    let mut tokens = Vec::new(alloc);
    let mut at = 0;
    'parts: while at < script.len() {
        at = lex_part(script, at, &mut tokens)?;
        match statements(alloc, script, tokens.as_slice(), stmts.len() + 1) {
            Ok(more) => stmts.append(more)?,
            Err(refusal) => return Err(refused_as(script, at, tokens, refusal)),
        }
    }
    Ok(Script { stmts })
}

// Why bytes are no script where a statement before the place has a fault: the bytes from there on may have no tokens.
fn refused_as(
    script: &[u8],
    from: usize,
    tokens: Vec<Token>,
    refusal: ParseRefusal,
) -> ScriptRefusal
    requires { from ≤ length script.now }
    ensures { IsRefusedAs script.now from refusal result }
{
    if refusal == ParseRefusal::NoMemory {
        return ScriptRefusal::NoMemory;
    }
    let mut tokens = tokens;
    let mut at = from;
    'parts: while at < script.len() {
        match lex_part(script, at, &mut tokens) {
            Ok(end) => at = end,
            Err(refusal) => return ScriptRefusal::Tokens { refusal },
        }
    }
    ScriptRefusal::Statement { refusal }
}

// The statements of the pieces, of which the first has that number. The lexemes of one piece alone stand beside the
// tokens.
fn statements(
    alloc: Global,
    script: &[u8],
    tokens: &[Token],
    first: usize,
) -> Result<Items<Stmt>, ParseRefusal>
    requires { first + length tokens.now < 2 ^ 64 }
    ensures good { IfOk result (AreGood script.now (pieces (lexemes_of script.now tokens.now))) }
    ensures fault { IfErr result (OrNoMemory (HasFirstFault script.now first (pieces (lexemes_of script.now tokens.now)))) }
{
    let mut stmts = Items::new(alloc);
    let mut piece = Vec::new(alloc);
    let mut rest = tokens;
    let mut number = first;
    'pieces: while !rest.is_empty() {
        next_piece(script, rest, &mut piece)?;
        stmts.push(read_piece(alloc, script, piece.as_slice(), number)?)?;
        let (_, left) = rest.split_at(piece.len());
        rest = left;
        number += 1;
    }
    Ok(stmts)
}
