//! Expressions.
ghost use Rattle.std.specs.Prelude.{◌≡◌, ◌&&◌, [], ◌∷◌, drop, Some, IfOk, OnErr};
ghost use Rattle.og_syntax.specs.Lexemes.{sees};
ghost use Rattle.og_syntax.specs.Reading.{Gives, by, bind, pair, single, pure, optional, ◌>>◌, tok};
ghost use Rattle.og_syntax.specs.declared.tree.ExprText.TheVariants as tree;
ghost use Rattle.og_syntax.specs.Reader as spec;

use crate::lexeme::{Lexeme, Sort};
use crate::literals::literal;
use crate::meaning::{func_of_one, func_of_two};
use crate::reading::Reading;
use crate::refusal::Refusal;
use crate::spelling::name;
use crate::step::{after, expect, list_of, same_sort, sees, sort_at};
use crate::tree::ExprText;
use og_value::{Func, Name};

/// The expression that the lexemes begin with, and the lexemes after it.
#[tactic(auto, unfolding(crate::specs::Reader::expr))]
pub fn expression<'a>(
    reading: &Reading<'_>,
    lexemes: &'a [Lexeme],
) -> Result<(ExprText, &'a [Lexeme]), Refusal>
    ensures { Gives result (by reading.now spec.expr lexemes.now) }
{
    expression_in(reading, lexemes, lexemes.len())
}

// An expression nested no deeper than the number.
#[cycle(expressions)]
#[tactic(auto, unfolding(crate::specs::Reader::expr_in, crate::specs::Reader::calls_period, crate::specs::Reading::worded))]
fn expression_in<'a>(
    reading: &Reading<'_>,
    lexemes: &'a [Lexeme],
    depth: usize,
) -> Result<(ExprText, &'a [Lexeme]), Refusal>
    ensures { Gives result (by reading.now spec.expr_in depth lexemes.now) }
{
    if depth == 0 {
        return Err(Refusal::Syntax);
    }
    let sort = sort_at(lexemes);
    if same_sort(sort, Sort::Name) {
        return column(reading, lexemes);
    }
    if let Some(func) = func_of_two(sort) {
        return call_of_two(reading, func, after(lexemes), depth - 1);
    }
    if let Some(func) = func_of_one(sort) {
        return call_of_one(reading, func, after(lexemes), depth - 1);
    }
    if sees(lexemes, Sort::Period) && sees(after(lexemes), Sort::LeftParen) {
        let rest = expect(lexemes, Sort::Period)?;
        return call_of_two(reading, Func::Period, rest, depth - 1);
    }
    let (value, rest) = literal(reading, lexemes)?;
    Ok((ExprText::Lit(value), rest))
}

// A call with the two expressions in parentheses that come.
#[cycle(expressions)]
fn call_of_two<'a>(
    reading: &Reading<'_>,
    func: Func,
    lexemes: &'a [Lexeme],
    depth: usize,
) -> Result<(ExprText, &'a [Lexeme]), Refusal>
    ensures { Gives result (bind (pair (by reading.now spec.expr_in depth)) (λ xs. pure (tree.Call func (xs.0 ∷ xs.1 ∷ []))) lexemes.now) }
{
    let rest = expect(lexemes, Sort::LeftParen)?;
    let (left, rest) = expression_in(reading, rest, depth)?;
    let mut args = list_of(reading.alloc, left)?;
    let rest = expect(rest, Sort::Comma)?;
    let (right, rest) = expression_in(reading, rest, depth)?;
    args.push(right)?;
    let rest = expect(rest, Sort::RightParen)?;
    Ok((ExprText::Call { func, args }, rest))
}

// A call with the expression in parentheses that comes.
#[cycle(expressions)]
fn call_of_one<'a>(
    reading: &Reading<'_>,
    func: Func,
    lexemes: &'a [Lexeme],
    depth: usize,
) -> Result<(ExprText, &'a [Lexeme]), Refusal>
    ensures { Gives result (bind (single (by reading.now spec.expr_in depth)) (λ x. pure (tree.Call func (x ∷ []))) lexemes.now) }
{
    let rest = expect(lexemes, Sort::LeftParen)?;
    let (only, rest) = expression_in(reading, rest, depth)?;
    let args = list_of(reading.alloc, only)?;
    let rest = expect(rest, Sort::RightParen)?;
    Ok((ExprText::Call { func, args }, rest))
}

// A column, by its name or by its table's name and its own.
#[tactic(auto, unfolding(crate::specs::Reader::column))]
fn column<'a>(
    reading: &Reading<'_>,
    lexemes: &'a [Lexeme],
) -> Result<(ExprText, &'a [Lexeme]), Refusal>
    ensures { Gives result (spec.column reading.now.script.now lexemes.now) }
{
    let (first, rest) = name(reading, lexemes)?;
    if same_sort(sort_at(rest), Sort::Dot) {
        let rest = expect(rest, Sort::Dot)?;
        let (second, rest) = name(reading, rest)?;
        return Ok((
            ExprText::Column {
                table: Some(first),
                name: second,
            },
            rest,
        ));
    }
    Ok((
        ExprText::Column {
            table: None,
            name: first,
        },
        rest,
    ))
}
