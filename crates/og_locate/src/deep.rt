//! The lexeme from which on a statement is too deep.
ghost use Rattle.std.specs.Prelude.{◌≡◌, ◌+◌, ◌<◌, IfSome, IfNone, false};
ghost use Rattle.og_locate.specs.Deep.{IsBetween, IsDeepAt};
ghost use Rattle.og_parse.specs.Depth.{is_too_deep};

use og_parse::is_too_deep;
use og_syntax::Lexeme;

/// The place among the lexemes, from 0, of a lexeme with which they become too deep: those before it are not, and with
/// it they are. None where all of them are not too deep.
pub fn deep_at(piece: &[Lexeme]) -> Option<usize>
    ensures some { IfSome result (IsDeepAt piece.now) }
    ensures none { IfNone result (is_too_deep piece.now ≡ false) }
{
    if !is_too_deep(piece) {
        return None;
    }
    let mut flat = 0;
    let mut deep = piece.len();
    'halves: while flat + 1 < deep {
        (flat, deep) = half_of(piece, flat, deep);
    }
    Some(flat)
}

// The half of the stretch in which they become too deep.
fn half_of(piece: &[Lexeme], flat: usize, deep: usize) -> (usize, usize)
    requires between { IsBetween piece.now flat deep }
    requires several { flat + 1 < deep }
    ensures between { IsBetween piece.now result.0 result.1 }
    ensures shorter { result.1 + flat < deep + result.0 }
{
    let middle = flat + (deep - flat) / 2;
    let (front, _) = piece.split_at(middle);
    if is_too_deep(front) {
        (flat, middle)
    } else {
        (middle, deep)
    }
}
