//! Lists, whose parts are read one after the other.
ghost use Rattle.std.specs.Prelude.{◌≡◌, ℕ, Bool, List};
ghost use Rattle.og_syntax.specs.declared.lexeme.Lexeme.{Lexeme};
ghost use Rattle.og_syntax.specs.Reading.{Gives, Reads, by, more_if, with_front};

use crate::lexeme::Lexeme;
use crate::reading::Reading;
use crate::refusal::Refusal;
use sqlite_items::Items;

/// Parts of a list, which are read one after the other for as long as one begins. What stands between
/// two parts is read with the second.
pub trait Parts {
    /// What is read of a part.
    type Part: Drop;

    /// Whether a part begins with these lexemes.
    ghost begins: { Self → List Lexeme → Bool };

    /// The reader of a part, of a script with its literals read strictly or not.
    ghost part: { Self → List ℕ → Bool → Reads Self.Part };

    /// Whether a part begins.
    fn begins(&self, lexemes: &[Lexeme]) -> bool
        ensures { result ≡ begins self.now lexemes.now };

    /// The part that the lexemes begin with, and the lexemes after it. `Syntax` where it is not read.
    fn part<'a>(
        &self,
        reading: &Reading<'_>,
        lexemes: &'a [Lexeme],
    ) -> Result<(Self::Part, &'a [Lexeme]), Refusal>
        ensures { Gives result (by reading.now (part self.now) lexemes.now) };
}

/// Further parts, behind the parts that were read before, and the lexemes after them. No more parts are
/// read than there are lexemes, which is all where each part takes one. `Syntax` where a part begins
/// and is not read.
#[tactic(auto, using(crate::proofs::Loops::turns), unfolding(crate::specs::Reading::more_if))]
pub fn more_parts<'a, P: Parts>(
    reading: &Reading<'_>,
    kind: &P,
    lexemes: &'a [Lexeme],
    parts: Items<P::Part>,
) -> Result<(Items<P::Part>, &'a [Lexeme]), Refusal>
    ensures { Gives result (with_front parts (more_if (P.begins kind.now) (by reading.now (P.part kind.now)) lexemes.now)) }
{
    let mut parts = parts;
    let mut rest = lexemes;
    let mut turns = lexemes.len();
    'more: while turns > 0 && kind.begins(rest) {
        let (part, left) = kind.part(reading, rest)?;
        parts.push(part)?;
        rest = left;
        turns -= 1;
    }
    Ok((parts, rest))
}
