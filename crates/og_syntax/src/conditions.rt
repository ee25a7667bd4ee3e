//! Conditions.
ghost use Rattle.std.specs.Prelude.{◌≡◌, ◌∷◌, []};
ghost use Rattle.og_syntax.specs.Lexemes.{is};
ghost use Rattle.og_syntax.specs.Reading.{Gives, by, past, more, with_front, single, pair, bind, pure, tok, ◌>>◌};
ghost use Rattle.og_syntax.specs.Clauses as clauses;
ghost use Rattle.og_syntax.specs.Reader as spec;
ghost use Rattle.og_syntax.specs.declared.lexeme.Sort.{Sort};
ghost use Rattle.og_syntax.specs.declared.tree.CondText.TheVariants as tree;

use crate::expressions::expression;
use crate::lexeme::{Lexeme, Sort};
use crate::meaning::{comparison_of, predicate_of};
use crate::reading::Reading;
use crate::refusal::Refusal;
use crate::step::{after, expect, followed, list_of, same_sort, sort_at};
use crate::tree::{CondText, ExprText};
use sqlite_items::{Boxed, Items};

/// The condition that the lexemes begin with, and the lexemes after it.
#[tactic(auto, unfolding(crate::specs::Reader::cond))]
pub fn condition<'a>(
    reading: &Reading<'_>,
    lexemes: &'a [Lexeme],
) -> Result<(CondText, &'a [Lexeme]), Refusal>
    ensures { Gives result (by reading.now spec.cond lexemes.now) }
{
    condition_in(reading, lexemes, lexemes.len())
}

// Conjunctions with OR between them, whose negations are nested no deeper than the number.
#[cycle(conditions)]
#[tactic(auto, unfolding(crate::specs::Reader::cond_of))]
fn condition_in<'a>(
    reading: &Reading<'_>,
    lexemes: &'a [Lexeme],
    depth: usize,
) -> Result<(CondText, &'a [Lexeme]), Refusal>
    ensures { Gives result (spec.cond_of (by reading.now spec.neg_in depth) lexemes.now) }
{
    let (first, rest) = conjunction_in(reading, lexemes, depth)?;
    let parts = list_of(reading.alloc, first)?;
    let (parts, rest) = more_conjunctions_in(reading, rest, depth, parts)?;
    Ok((any_of(parts), rest))
}

// Further conjunctions, each after OR, behind the parts that were read before.
#[cycle(conditions)]
#[tactic(auto, using(crate::proofs::Loops::turns), unfolding(crate::specs::Reading::more_if))]
pub fn more_conjunctions_in<'a>(
    reading: &Reading<'_>,
    lexemes: &'a [Lexeme],
    depth: usize,
    parts: Items<CondText>,
) -> Result<(Items<CondText>, &'a [Lexeme]), Refusal>
    ensures { Gives result (with_front parts (more (is Sort.Or) (past Sort.Or (spec.conj_of (by reading.now spec.neg_in depth))) lexemes.now)) }
{
    let mut parts = parts;
    let mut rest = lexemes;
    let mut turns = lexemes.len();
    'more: while turns > 0 && same_sort(sort_at(rest), Sort::Or) {
        let (part, left) = further_conjunction_in(reading, rest, depth)?;
        parts.push(part)?;
        rest = left;
        turns -= 1;
    }
    Ok((parts, rest))
}

// A conjunction after OR, whose negations are nested no deeper than the number.
#[cycle(conditions)]
fn further_conjunction_in<'a>(
    reading: &Reading<'_>,
    lexemes: &'a [Lexeme],
    depth: usize,
) -> Result<(CondText, &'a [Lexeme]), Refusal>
    ensures { Gives result (past Sort.Or (spec.conj_of (by reading.now spec.neg_in depth)) lexemes.now) }
{
    let rest = expect(lexemes, Sort::Or)?;
    conjunction_in(reading, rest, depth)
}

// Negations with AND between them, nested no deeper than the number.
#[cycle(conditions)]
#[tactic(auto, unfolding(crate::specs::Reader::conj_of))]
fn conjunction_in<'a>(
    reading: &Reading<'_>,
    lexemes: &'a [Lexeme],
    depth: usize,
) -> Result<(CondText, &'a [Lexeme]), Refusal>
    ensures { Gives result (spec.conj_of (by reading.now spec.neg_in depth) lexemes.now) }
{
    let (first, rest) = negation_in(reading, lexemes, depth)?;
    let parts = list_of(reading.alloc, first)?;
    let (parts, rest) = more_negations_in(reading, rest, depth, parts)?;
    Ok((all_of(parts), rest))
}

// Further negations, each after AND, behind the parts that were read before.
#[cycle(conditions)]
#[tactic(auto, using(crate::proofs::Loops::turns), unfolding(crate::specs::Reading::more_if))]
fn more_negations_in<'a>(
    reading: &Reading<'_>,
    lexemes: &'a [Lexeme],
    depth: usize,
    parts: Items<CondText>,
) -> Result<(Items<CondText>, &'a [Lexeme]), Refusal>
    ensures { Gives result (with_front parts (more (is Sort.And) (past Sort.And (by reading.now spec.neg_in depth)) lexemes.now)) }
{
    let mut parts = parts;
    let mut rest = lexemes;
    let mut turns = lexemes.len();
    'more: while turns > 0 && same_sort(sort_at(rest), Sort::And) {
        let (part, left) = further_negation_in(reading, rest, depth)?;
        parts.push(part)?;
        rest = left;
        turns -= 1;
    }
    Ok((parts, rest))
}

// A negation after AND, nested no deeper than the number.
#[cycle(conditions)]
pub fn further_negation_in<'a>(
    reading: &Reading<'_>,
    lexemes: &'a [Lexeme],
    depth: usize,
) -> Result<(CondText, &'a [Lexeme]), Refusal>
    ensures { Gives result (past Sort.And (by reading.now spec.neg_in depth) lexemes.now) }
{
    let rest = expect(lexemes, Sort::And)?;
    negation_in(reading, rest, depth)
}

// An atom after any number of NOT, nested no deeper than the number.
#[cycle(conditions)]
#[tactic(auto, unfolding(crate::specs::Reader::neg_in))]
pub fn negation_in<'a>(
    reading: &Reading<'_>,
    lexemes: &'a [Lexeme],
    depth: usize,
) -> Result<(CondText, &'a [Lexeme]), Refusal>
    ensures { Gives result (by reading.now spec.neg_in depth lexemes.now) }
{
    if depth == 0 {
        return Err(Refusal::Syntax);
    }
    if same_sort(sort_at(lexemes), Sort::Not) {
        let rest = expect(lexemes, Sort::Not)?;
        let (inner, rest) = negation_in(reading, rest, depth - 1)?;
        return Ok((CondText::Not(Boxed::new(reading.alloc, inner)?), rest));
    }
    atom_in(reading, lexemes, depth - 1)
}

// An atom, whose negations are nested no deeper than the number.
#[cycle(conditions)]
#[tactic(auto, unfolding(crate::specs::Reader::atom_of))]
fn atom_in<'a>(
    reading: &Reading<'_>,
    lexemes: &'a [Lexeme],
    depth: usize,
) -> Result<(CondText, &'a [Lexeme]), Refusal>
    ensures { Gives result (by reading.now spec.atom_of (by reading.now spec.neg_in depth) lexemes.now) }
{
    let sort = sort_at(lexemes);
    if same_sort(sort, Sort::LeftParen) {
        return enclosed_in(reading, lexemes, depth);
    }
    if same_sort(sort, Sort::Empty) {
        return emptiness(reading, lexemes);
    }
    if same_sort(sort, Sort::Contains) {
        return containment(reading, lexemes);
    }
    relation(reading, lexemes)
}

// A condition in parentheses, whose negations are nested no deeper than the number.
#[cycle(conditions)]
fn enclosed_in<'a>(
    reading: &Reading<'_>,
    lexemes: &'a [Lexeme],
    depth: usize,
) -> Result<(CondText, &'a [Lexeme]), Refusal>
    ensures { Gives result (single (spec.cond_of (by reading.now spec.neg_in depth)) lexemes.now) }
{
    let rest = expect(lexemes, Sort::LeftParen)?;
    let read = condition_in(reading, rest, depth)?;
    followed(read, Sort::RightParen)
}

// One by itself, or the list of several that are joined by AND.
pub fn all_of(parts: Items<CondText>) -> CondText
    ensures { result ≡ clauses.all_of parts }
{
    if parts.len() != 1 {
        return CondText::And(parts);
    }
    let mut parts = parts;
    parts.remove(0)
}

// One by itself, or the list of several that are joined by OR.
pub fn any_of(parts: Items<CondText>) -> CondText
    ensures { result ≡ clauses.any_of parts }
{
    if parts.len() != 1 {
        return CondText::Or(parts);
    }
    let mut parts = parts;
    parts.remove(0)
}

// EMPTY and the expression in parentheses after it.
fn emptiness<'a>(
    reading: &Reading<'_>,
    lexemes: &'a [Lexeme],
) -> Result<(CondText, &'a [Lexeme]), Refusal>
    ensures { Gives result (past Sort.Empty (bind (single (by reading.now spec.expr)) (λ x. pure (tree.Empty x))) lexemes.now) }
{
    let rest = expect(lexemes, Sort::Empty)?;
    let rest = expect(rest, Sort::LeftParen)?;
    let (period, rest) = expression(reading, rest)?;
    followed((CondText::Empty(period), rest), Sort::RightParen)
}

// CONTAINS and the two expressions in parentheses after it.
fn containment<'a>(
    reading: &Reading<'_>,
    lexemes: &'a [Lexeme],
) -> Result<(CondText, &'a [Lexeme]), Refusal>
    ensures { Gives result (past Sort.Contains (bind (pair (by reading.now spec.expr)) (λ xs. pure (tree.Contains xs.0 xs.1))) lexemes.now) }
{
    let rest = expect(lexemes, Sort::Contains)?;
    let rest = expect(rest, Sort::LeftParen)?;
    let read = expression(reading, rest)?;
    let (period, rest) = followed(read, Sort::Comma)?;
    match expression(reading, rest) {
        Ok((day, rest)) => followed((CondText::Contains(period, day), rest), Sort::RightParen),
        Err(refusal) => {
            drop(period);
            Err(refusal)
        }
    }
}

// Two expressions with a comparison or a predicate between them.
#[tactic(auto, unfolding(crate::specs::Reader::relation))]
fn relation<'a>(
    reading: &Reading<'_>,
    lexemes: &'a [Lexeme],
) -> Result<(CondText, &'a [Lexeme]), Refusal>
    ensures { Gives result (by reading.now spec.relation lexemes.now) }
{
    let (left, rest) = expression(reading, lexemes)?;
    if comparison_of(sort_at(rest)).is_some() {
        return compared(reading, left, rest);
    }
    related(reading, left, rest)
}

// A comparison and the expression after it, behind the first expression.
#[tactic(auto, unfolding(crate::specs::Reader::compare, crate::specs::Reading::worded))]
fn compared<'a>(
    reading: &Reading<'_>,
    left: ExprText,
    lexemes: &'a [Lexeme],
) -> Result<(CondText, &'a [Lexeme]), Refusal>
    ensures { Gives result (by reading.now spec.compare left lexemes.now) }
{
    let Some(op) = comparison_of(sort_at(lexemes)) else {
        drop(left);
        return Err(Refusal::Syntax);
    };
    match expression(reading, after(lexemes)) {
        Ok((right, rest)) => Ok((CondText::Compare { op, left, right }, rest)),
        Err(refusal) => {
            drop(left);
            Err(refusal)
        }
    }
}

// A predicate and the expression after it, behind the first expression.
#[tactic(auto, unfolding(crate::specs::Reader::relate, crate::specs::Reading::worded))]
fn related<'a>(
    reading: &Reading<'_>,
    left: ExprText,
    lexemes: &'a [Lexeme],
) -> Result<(CondText, &'a [Lexeme]), Refusal>
    ensures { Gives result (by reading.now spec.relate left lexemes.now) }
{
    let Some(pred) = predicate_of(sort_at(lexemes)) else {
        drop(left);
        return Err(Refusal::Syntax);
    };
    match expression(reading, after(lexemes)) {
        Ok((right, rest)) => Ok((CondText::Relate { pred, left, right }, rest)),
        Err(refusal) => {
            drop(left);
            Err(refusal)
        }
    }
}
