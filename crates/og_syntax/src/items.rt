//! What a SELECT gives.
ghost use Rattle.std.specs.Prelude.{◌≡◌, ◌∷◌, [], None, Some};
ghost use Rattle.og_syntax.specs.declared.lexeme.Sort.{Sort};
ghost use Rattle.og_syntax.specs.Lexemes.{is, sort_at};
ghost use Rattle.og_syntax.specs.Reading.{Gives, by, past, optional};
ghost use Rattle.og_syntax.specs.Reader as spec;

use crate::expressions::expression;
use crate::lexeme::{Lexeme, Sort};
use crate::parts::{Parts, more_parts};
use crate::reading::Reading;
use crate::refusal::Refusal;
use crate::spelling::name;
use crate::step::{expect, list_of, same_sort, sort_at};
use crate::tree::{ItemText, ItemsText};
use og_value::Name;

// All columns, or a list of items.
#[tactic(auto, unfolding(crate::specs::Reader::items, crate::specs::Reader::item_list))]
pub fn items<'a>(
    reading: &Reading<'_>,
    lexemes: &'a [Lexeme],
) -> Result<(ItemsText, &'a [Lexeme]), Refusal>
    ensures { Gives result (by reading.now spec.items lexemes.now) }
{
    if same_sort(sort_at(lexemes), Sort::Star) {
        let rest = expect(lexemes, Sort::Star)?;
        return Ok((ItemsText::Star, rest));
    }
    let (first, rest) = item(reading, lexemes)?;
    let parts = list_of(reading.alloc, first)?;
    let (parts, rest) = more_parts(reading, &FurtherItems, rest, parts)?;
    Ok((ItemsText::List(parts), rest))
}

// Further items, each after a comma.
#[derive(Clone, Copy)]
struct FurtherItems;

impl Parts for FurtherItems {
    type Part = ItemText;

    ghost begins = { λ _ ts. is Sort.Comma (sort_at ts) };

    ghost part = { λ _ script strict. past Sort.Comma (spec.item script strict) };

    fn begins(&self, lexemes: &[Lexeme]) -> bool {
        same_sort(sort_at(lexemes), Sort::Comma)
    }

    fn part<'a>(
        &self,
        reading: &Reading<'_>,
        lexemes: &'a [Lexeme],
    ) -> Result<(ItemText, &'a [Lexeme]), Refusal> {
        let rest = expect(lexemes, Sort::Comma)?;
        item(reading, rest)
    }
}

// An expression, with the name that AS gives it.
#[tactic(auto, unfolding(crate::specs::Reader::item))]
fn item<'a>(
    reading: &Reading<'_>,
    lexemes: &'a [Lexeme],
) -> Result<(ItemText, &'a [Lexeme]), Refusal>
    ensures { Gives result (by reading.now spec.item lexemes.now) }
{
    let (expr, rest) = expression(reading, lexemes)?;
    match given_name(reading, rest) {
        Ok((name, rest)) => Ok((ItemText { expr, name }, rest)),
        Err(refusal) => {
            drop(expr);
            Err(refusal)
        }
    }
}

// The name after AS, or none.
fn given_name<'a>(
    reading: &Reading<'_>,
    lexemes: &'a [Lexeme],
) -> Result<(Option<Name>, &'a [Lexeme]), Refusal>
    ensures { Gives result (optional (is Sort.As) (past Sort.As (spec.name reading.now.script.now)) lexemes.now) }
{
    if same_sort(sort_at(lexemes), Sort::As) {
        let rest = expect(lexemes, Sort::As)?;
        let (name, rest) = name(reading, rest)?;
        return Ok((Some(name), rest));
    }
    Ok((None, lexemes))
}
