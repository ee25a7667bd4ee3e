//! The lexemes of a statement, by its number.
ghost use Rattle.std.specs.Prelude.{◌≡◌, ◌+◌, Some, IfOk, IfSome, IfNone, length, slice_get};
ghost use Rattle.og_locate.specs.Pieces.{IsPieceAt};
ghost use Rattle.og_parse.specs.Script.{pieces};
ghost use Rattle.og_parse.specs.Tokens.{lexemes_of};

use og_base::NoMemory;
use og_lex::{LexRefusal, Token, lex_part};
use og_parse::next_piece;
use og_syntax::Lexeme;
use std::alloc::Global;

/// The lexemes of the statement with that number, counted from 1. None where the script has no such statement, or no
/// tokens up to its end. The tokens of some statements at a time stand in memory. Refused only where memory runs out.
pub fn piece_at(
    alloc: Global,
    script: &[u8],
    number: usize,
) -> Result<Option<Vec<Lexeme>>, NoMemory>
    ensures { IfOk result (λ found. IfSome found (λ piece. IsPieceAt script.now number piece.items)) }
{
    let mut tokens = Vec::new(alloc);
    let mut piece = Vec::new(alloc);
    let mut at = 0;
    let mut before = number.saturating_sub(1);
    'parts: while at < script.len() {
        at = match lex_part(script, at, &mut tokens) {
            Ok(end) => end,
            Err(LexRefusal::NoMemory) => return Err(NoMemory),
            Err(_) => return Ok(None),
        };
        let Some(left) = pass_pieces(script, tokens.as_slice(), before, &mut piece)? else {
            return Ok(Some(piece));
        };
        before = left;
    }
    Ok(None)
}

// Makes the list that of the lexemes of the piece of the tokens with that number before it. Gives how many pieces are
// still to be passed where the tokens have no such piece.
fn pass_pieces(
    script: &[u8],
    tokens: &[Token],
    before: usize,
    piece: &mut Vec<Lexeme>,
) -> Result<Option<usize>, NoMemory>
    ensures found { IfOk result (λ left. IfNone left (slice_get (pieces (lexemes_of script.now tokens.now)) before ≡ Some piece.new.items)) }
    ensures left { IfOk result (λ left. IfSome left (λ n. length (pieces (lexemes_of script.now tokens.now)) + n ≡ before)) }
{
    let mut rest = tokens;
    let mut left = before;
    'pieces: while !rest.is_empty() {
        next_piece(script, rest, piece)?;
        if left == 0 {
            return Ok(None);
        }
        let (_, after) = rest.split_at(piece.len());
        rest = after;
        left -= 1;
    }
    Ok(Some(left))
}
