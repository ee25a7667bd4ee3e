//! Names of tables with their aliases, and what stands after FROM.
ghost use Rattle.std.specs.Prelude.{◌≡◌, ◌&&◌, ◌||◌, ◌∷◌, [], drop, None, Some};
ghost use Rattle.og_syntax.specs.Lexemes.{sees, sort_at};
ghost use Rattle.og_syntax.specs.Reading.{Gives, by, bind, pure};
ghost use Rattle.og_syntax.specs.Clauses as clauses;
ghost use Rattle.og_syntax.specs.Reader as spec;

use crate::conditions::condition;
use crate::lexeme::{Lexeme, Sort};
use crate::parts::{Parts, more_parts};
use crate::reading::Reading;
use crate::refusal::Refusal;
use crate::spelling::name;
use crate::step::{after, expect, followed, list_of, same_sort, sees, sort_at};
use crate::tree::FromText;
use og_value::Name;
use sqlite_items::Items;

/// The name of a table and its alias, which may stand after AS, and the lexemes after them.
#[tactic(auto, unfolding(crate::specs::Reader::fitem))]
pub fn table_name<'a>(
    reading: &Reading<'_>,
    lexemes: &'a [Lexeme],
) -> Result<((Name, Option<Name>), &'a [Lexeme]), Refusal>
    ensures { Gives result (spec.fitem reading.now.script.now lexemes.now) }
{
    let (name, rest) = name(reading, lexemes)?;
    let (alias, rest) = alias(reading, rest)?;
    Ok(((name, alias), rest))
}

// An alias, after AS or not, or none.
#[tactic(auto, unfolding(crate::specs::Reader::alias, crate::specs::Reader::as_name))]
fn alias<'a>(
    reading: &Reading<'_>,
    lexemes: &'a [Lexeme],
) -> Result<(Option<Name>, &'a [Lexeme]), Refusal>
    ensures { Gives result (spec.alias reading.now.script.now lexemes.now) }
{
    if same_sort(sort_at(lexemes), Sort::Name) {
        return some_name(reading, lexemes);
    }
    if sees(lexemes, Sort::As) && sees(after(lexemes), Sort::Name) {
        let rest = expect(lexemes, Sort::As)?;
        return some_name(reading, rest);
    }
    Ok((None, lexemes))
}

// A name, which is there.
fn some_name<'a>(
    reading: &Reading<'_>,
    lexemes: &'a [Lexeme],
) -> Result<(Option<Name>, &'a [Lexeme]), Refusal>
    ensures { Gives result (bind (spec.name reading.now.script.now) (λ x. pure (Some x)) lexemes.now) }
{
    let (name, rest) = name(reading, lexemes)?;
    Ok((Some(name), rest))
}

// What stands after FROM.
#[tactic(auto, unfolding(crate::specs::Reader::tables))]
pub fn tables<'a>(
    reading: &Reading<'_>,
    lexemes: &'a [Lexeme],
) -> Result<(Items<FromText>, &'a [Lexeme]), Refusal>
    ensures { Gives result (by reading.now spec.tables lexemes.now) }
{
    let (first, rest) = first_table(reading, lexemes)?;
    let parts = list_of(reading.alloc, first)?;
    more_parts(reading, &FurtherTables, rest, parts)
}

// Further tables, each after a comma, or after JOIN with its condition.
#[derive(Clone, Copy)]
struct FurtherTables;

impl Parts for FurtherTables {
    type Part = FromText;

    ghost begins = { λ _ ts. spec.goes_on (sort_at ts) };

    ghost part = { λ _. spec.further_table };

    fn begins(&self, lexemes: &[Lexeme]) -> bool {
        same_sort(sort_at(lexemes), Sort::Comma) || same_sort(sort_at(lexemes), Sort::Join)
    }

    #[tactic(auto, unfolding(crate::specs::Reader::further_table))]
    fn part<'a>(
        &self,
        reading: &Reading<'_>,
        lexemes: &'a [Lexeme],
    ) -> Result<(FromText, &'a [Lexeme]), Refusal> {
        if same_sort(sort_at(lexemes), Sort::Comma) {
            let rest = expect(lexemes, Sort::Comma)?;
            return first_table(reading, rest);
        }
        joined_table(reading, lexemes)
    }
}

// The first table, or one after a comma.
#[tactic(auto, unfolding(crate::specs::Reader::first_table))]
fn first_table<'a>(
    reading: &Reading<'_>,
    lexemes: &'a [Lexeme],
) -> Result<(FromText, &'a [Lexeme]), Refusal>
    ensures { Gives result (spec.first_table reading.now.script.now lexemes.now) }
{
    let ((name, alias), rest) = table_name(reading, lexemes)?;
    Ok((
        FromText {
            name,
            alias,
            on: None,
        },
        rest,
    ))
}

// A table after JOIN, with its condition.
#[tactic(auto, unfolding(crate::specs::Reader::joined_table))]
fn joined_table<'a>(
    reading: &Reading<'_>,
    lexemes: &'a [Lexeme],
) -> Result<(FromText, &'a [Lexeme]), Refusal>
    ensures { Gives result (by reading.now spec.joined_table lexemes.now) }
{
    let rest = expect(lexemes, Sort::Join)?;
    let read = table_name(reading, rest)?;
    let ((name, alias), rest) = followed(read, Sort::On)?;
    let (on, rest) = condition(reading, rest)?;
    Ok((
        FromText {
            name,
            alias,
            on: Some(on),
        },
        rest,
    ))
}
