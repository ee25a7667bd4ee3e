//! Pieces, each a statement or none.
ghost use Rattle.std.specs.Prelude.{◌≡◌, true, false, IfOk, IfErr};
ghost use Rattle.og_syntax.specs.declared.tree.Stmt as trees;
ghost use Rattle.og_syntax.specs.Reading.{by};
ghost use Rattle.og_parse.specs.Statements.{IsWhole};
ghost use Rattle.og_parse.specs.Whole.{GivesAll};
ghost use Rattle.og_parse.specs.Script.{IsGood, IsNone, HasFault, OrNoMemory};
ghost use Rattle.og_parse.specs.Depth.{is_too_deep};
ghost use Rattle.og_parse.specs.StatementReader.{whole};

use crate::depth::is_too_deep;
use crate::refusal::ParseRefusal;
use crate::statement::statement;
use og_base::NoMemory;
use og_syntax::{Lexeme, Literals, Reading, Refusal, Stmt};
use std::alloc::Global;

// The statement of a piece, or its fault with the number of the statement.
pub fn read_piece(
    alloc: Global,
    script: &[u8],
    piece: &[Lexeme],
    number: usize,
) -> Result<Stmt, ParseRefusal>
    ensures good { IfOk result (IsGood script.now piece.now) }
    ensures fault { IfErr result (OrNoMemory (HasFault script.now number piece.now)) }
{
    if is_too_deep(piece) {
        return Err(ParseRefusal::TooDeep { statement: number });
    }
    let strictly = Reading {
        alloc,
        script,
        literals: Literals::Strict,
    };
    match whole(&strictly, piece) {
        Ok(stmt) => Ok(stmt),
        Err(Refusal::Syntax) => Err(fault_of(alloc, script, piece, number)),
        Err(Refusal::NoMemory) => Err(ParseRefusal::NoMemory),
    }
}

/// Whether the lexemes are a statement with its semicolon, in which any text may stand for each literal. Refused only
/// where memory runs out.
pub fn is_statement(alloc: Global, script: &[u8], piece: &[Lexeme]) -> Result<bool, NoMemory>
    ensures some { IfOk result (λ b. b ≡ true → (x : trees.Stmt) × IsWhole script.now false piece.now x) }
    ensures none { IfOk result (λ b. b ≡ false → IsNone script.now false piece.now) }
{
    let leniently = Reading {
        alloc,
        script,
        literals: Literals::Lenient,
    };
    match whole(&leniently, piece) {
        Ok(stmt) => {
            drop(stmt);
            Ok(true)
        }
        Err(Refusal::Syntax) => Ok(false),
        Err(Refusal::NoMemory) => Err(NoMemory),
    }
}

// The fault of a piece that is not too deep and no statement by strict reading.
fn fault_of(alloc: Global, script: &[u8], piece: &[Lexeme], number: usize) -> ParseRefusal
    requires flat { is_too_deep piece.now ≡ false }
    requires none { IsNone script.now true piece.now }
    ensures { OrNoMemory (HasFault script.now number piece.now) result }
{
    let leniently = Reading {
        alloc,
        script,
        literals: Literals::Lenient,
    };
    match whole(&leniently, piece) {
        Ok(stmt) => {
            drop(stmt);
            ParseRefusal::Literal { statement: number }
        }
        Err(Refusal::Syntax) => ParseRefusal::Syntax { statement: number },
        Err(Refusal::NoMemory) => ParseRefusal::NoMemory,
    }
}

// The statement that all of the lexemes are.
#[tactic(auto, unfolding(crate::specs::StatementReader::whole))]
fn whole(reading: &Reading<'_>, piece: &[Lexeme]) -> Result<Stmt, Refusal>
    ensures { GivesAll result (by reading.now whole piece.now) }
{
    let (stmt, rest) = statement(reading, piece)?;
    if rest.is_empty() {
        return Ok(stmt);
    }
    drop(stmt);
    Err(Refusal::Syntax)
}
