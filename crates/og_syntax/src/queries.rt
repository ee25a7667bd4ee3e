//! Queries.
ghost use Rattle.std.specs.Prelude.{◌≡◌, ◌∷◌, [], None, Some};
ghost use Rattle.og_syntax.specs.declared.lexeme.Sort.{Sort};
ghost use Rattle.og_syntax.specs.Lexemes.{is, sort_at};
ghost use Rattle.og_syntax.specs.Meanings.{set_op_of};
ghost use Rattle.og_syntax.specs.Reading.{Gives, by, has, optional, past};
ghost use Rattle.og_syntax.specs.Clauses as clauses;
ghost use Rattle.og_syntax.specs.Reader as spec;

use crate::items::items;
use crate::lexeme::{Lexeme, Sort};
use crate::meaning::set_op_of;
use crate::parts::{Parts, more_parts};
use crate::reading::Reading;
use crate::refusal::Refusal;
use crate::step::{after, expect, followed, same_sort, sort_at};
use crate::tables::tables;
use crate::tree::{CoreText, FromText, ItemsText, QueryText, RestText};
use crate::wheres::{Where, where_condition};
use og_value::SetOp;
use sqlite_items::Items;
use std::alloc::Global;

/// The query that the lexemes begin with, and the lexemes after it. A live query has no EXISTS, and
/// only UNION between its cores.
#[tactic(auto, unfolding(crate::specs::Reader::query))]
pub fn query<'a>(
    reading: &Reading<'_>,
    live: bool,
    lexemes: &'a [Lexeme],
) -> Result<(QueryText, &'a [Lexeme]), Refusal>
    ensures { Gives result (by reading.now spec.query live lexemes.now) }
{
    let (first, rest) = query_core(reading, live, lexemes)?;
    match more_parts(
        reading,
        &FurtherCores { live },
        rest,
        Items::new(reading.alloc),
    ) {
        Ok((others, rest)) => Ok((
            QueryText {
                first,
                rest: others,
            },
            rest,
        )),
        Err(refusal) => {
            drop(first);
            Err(refusal)
        }
    }
}

// Further cores, each after its operator.
#[derive(Clone, Copy)]
struct FurtherCores {
    live: bool,
}

impl Parts for FurtherCores {
    type Part = RestText;

    ghost begins = { λ kind ts. has (set_op_of kind.live) (sort_at ts) };

    ghost part = { λ kind script strict. spec.further_core script strict kind.live };

    fn begins(&self, lexemes: &[Lexeme]) -> bool {
        set_op_of(self.live, sort_at(lexemes)).is_some()
    }

    #[tactic(auto, unfolding(crate::specs::Reader::further_core, crate::specs::Reading::worded))]
    fn part<'a>(
        &self,
        reading: &Reading<'_>,
        lexemes: &'a [Lexeme],
    ) -> Result<(RestText, &'a [Lexeme]), Refusal> {
        let Some(op) = set_op_of(self.live, sort_at(lexemes)) else {
            return Err(Refusal::Syntax);
        };
        let (core, rest) = query_core(reading, self.live, after(lexemes))?;
        Ok((RestText { op, core }, rest))
    }
}

// A SELECT.
#[tactic(auto, unfolding(crate::specs::Reader::core))]
fn query_core<'a>(
    reading: &Reading<'_>,
    live: bool,
    lexemes: &'a [Lexeme],
) -> Result<(CoreText, &'a [Lexeme]), Refusal>
    ensures { Gives result (by reading.now spec.core live lexemes.now) }
{
    let rest = expect(lexemes, Sort::Select)?;
    let read = items(reading, rest)?;
    let (items, rest) = followed(read, Sort::From)?;
    let (tables, rest) = tables(reading, rest)?;
    let (found, rest) = where_part(reading, live, rest)?;
    Ok((core_of(reading.alloc, items, tables, found), rest))
}

// What stands after WHERE, or nothing.
fn where_part<'a>(
    reading: &Reading<'_>,
    live: bool,
    lexemes: &'a [Lexeme],
) -> Result<(Option<Where>, &'a [Lexeme]), Refusal>
    ensures { Gives result (optional (is Sort.Where) (past Sort.Where (by reading.now spec.wcond live)) lexemes.now) }
{
    if same_sort(sort_at(lexemes), Sort::Where) {
        let rest = expect(lexemes, Sort::Where)?;
        let (found, rest) = where_condition(reading, live, rest)?;
        return Ok((Some(found), rest));
    }
    Ok((None, lexemes))
}

// A SELECT, whose WHERE may be missing.
fn core_of(
    alloc: Global,
    items: ItemsText,
    tables: Items<FromText>,
    found: Option<Where>,
) -> CoreText
    ensures { result ≡ clauses.core_of items tables found }
{
    let (cond, semis) = match found {
        Some(found) => found,
        None => (None, Items::new(alloc)),
    };
    CoreText {
        items,
        tables,
        cond,
        semis,
    }
}
