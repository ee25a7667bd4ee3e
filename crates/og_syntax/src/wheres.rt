//! What stands after WHERE, with EXISTS at its end.
ghost use Rattle.std.specs.Prelude.{◌≡◌, ◌&&◌, ◌∷◌, [], not, drop, None, Some};
ghost use Rattle.og_syntax.specs.declared.lexeme.Sort.{Sort};
ghost use Rattle.og_syntax.specs.Lexemes.{sees};
ghost use Rattle.og_syntax.specs.Reading.{Gives, by, past};
ghost use Rattle.og_syntax.specs.Clauses.{all_of, any_of};
ghost use Rattle.og_syntax.specs.Reader as spec;

use crate::conditions::{
    all_of, any_of, condition, further_negation_in, more_conjunctions_in, negation_in,
};
use crate::lexeme::{Lexeme, Sort};
use crate::parts::{Parts, more_parts};
use crate::reading::Reading;
use crate::refusal::Refusal;
use crate::semis::{begins_semi, semis};
use crate::step::{after, expect, list_of, same_sort, sees, sort_at};
use crate::tree::{CondText, SemiText};
use sqlite_items::Items;

// A condition, and conditions of EXISTS and NOT EXISTS.
pub type Where = (Option<CondText>, Items<SemiText>);

// What stands after WHERE. In a live query no EXISTS stands there.
#[tactic(auto, unfolding(crate::specs::Reader::wcond))]
pub fn where_condition<'a>(
    reading: &Reading<'_>,
    live: bool,
    lexemes: &'a [Lexeme],
) -> Result<(Where, &'a [Lexeme]), Refusal>
    ensures { Gives result (by reading.now spec.wcond live lexemes.now) }
{
    if live {
        let (cond, rest) = condition(reading, lexemes)?;
        return Ok(((Some(cond), Items::new(reading.alloc)), rest));
    }
    where_in(reading, lexemes, lexemes.len())
}

// What stands after WHERE, where negations are nested no deeper than the number.
#[tactic(auto, unfolding(crate::specs::Reader::wcond_of))]
fn where_in<'a>(
    reading: &Reading<'_>,
    lexemes: &'a [Lexeme],
    depth: usize,
) -> Result<(Where, &'a [Lexeme]), Refusal>
    ensures { Gives result (by reading.now spec.wcond_of (by reading.now spec.neg_in depth) lexemes.now) }
{
    if begins_semi(lexemes) {
        let (semis, rest) = semis(reading, lexemes)?;
        return Ok(((None, semis), rest));
    }
    let (first, rest) = negation_in(reading, lexemes, depth)?;
    let parts = list_of(reading.alloc, first)?;
    let (parts, rest) = more_parts(reading, &FurtherNegations { depth }, rest, parts)?;
    where_end(reading, rest, depth, parts)
}

// Further negations, each after AND, where neither EXISTS nor NOT EXISTS comes, and nested no deeper
// than the number.
#[derive(Clone, Copy)]
struct FurtherNegations {
    depth: usize,
}

impl Parts for FurtherNegations {
    type Part = CondText;

    ghost begins = { λ _. spec.and_neg };

    ghost part = { λ kind script strict. past Sort.And (spec.neg_in script strict kind.depth) };

    #[tactic(auto, unfolding(crate::specs::Reader::and_neg))]
    fn begins(&self, lexemes: &[Lexeme]) -> bool {
        sees(lexemes, Sort::And) && !begins_semi(after(lexemes))
    }

    fn part<'a>(
        &self,
        reading: &Reading<'_>,
        lexemes: &'a [Lexeme],
    ) -> Result<(CondText, &'a [Lexeme]), Refusal> {
        further_negation_in(reading, lexemes, self.depth)
    }
}

// Conditions of EXISTS after AND, or further conjunctions after OR, behind negations with AND between them.
#[tactic(auto, unfolding(crate::specs::Reader::where_end))]
fn where_end<'a>(
    reading: &Reading<'_>,
    lexemes: &'a [Lexeme],
    depth: usize,
    parts: Items<CondText>,
) -> Result<(Where, &'a [Lexeme]), Refusal>
    ensures { Gives result (by reading.now spec.where_end (by reading.now spec.neg_in depth) parts lexemes.now) }
{
    if same_sort(sort_at(lexemes), Sort::And) {
        let rest = expect(lexemes, Sort::And)?;
        let (semis, rest) = semis(reading, rest)?;
        return Ok(((Some(all_of(parts)), semis), rest));
    }
    let either = list_of(reading.alloc, all_of(parts))?;
    let (either, rest) = more_conjunctions_in(reading, lexemes, depth, either)?;
    Ok(((Some(any_of(either)), Items::new(reading.alloc)), rest))
}
