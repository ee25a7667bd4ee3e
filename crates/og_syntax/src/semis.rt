//! Conditions of EXISTS and NOT EXISTS.
ghost use Rattle.std.specs.Prelude.{◌≡◌, ◌&&◌, ◌||◌, ◌∷◌, [], drop, None, Some, true, false};
ghost use Rattle.og_syntax.specs.declared.lexeme.Sort.{Sort};
ghost use Rattle.og_syntax.specs.Lexemes.{is, sees, sort_at};
ghost use Rattle.og_syntax.specs.Clauses.{semi_of};
ghost use Rattle.og_syntax.specs.Reading.{Gives, by, bind, past, pure, optional, single};
ghost use Rattle.og_syntax.specs.Reader as spec;

use crate::conditions::condition;
use crate::lexeme::{Lexeme, Sort};
use crate::parts::{Parts, more_parts};
use crate::reading::Reading;
use crate::refusal::Refusal;
use crate::step::{after, expect, followed, list_of, same_sort, sees, sort_at};
use crate::tables::table_name;
use crate::tree::{CondText, SemiText};
use sqlite_items::Items;

// Several of them, with AND between them.
#[tactic(auto, unfolding(crate::specs::Reader::semis))]
pub fn semis<'a>(
    reading: &Reading<'_>,
    lexemes: &'a [Lexeme],
) -> Result<(Items<SemiText>, &'a [Lexeme]), Refusal>
    ensures { Gives result (by reading.now spec.semis lexemes.now) }
{
    let (first, rest) = semi(reading, lexemes)?;
    let parts = list_of(reading.alloc, first)?;
    more_parts(reading, &FurtherSemis, rest, parts)
}

// Further ones, each after AND.
#[derive(Clone, Copy)]
struct FurtherSemis;

impl Parts for FurtherSemis {
    type Part = SemiText;

    ghost begins = { λ _ ts. is Sort.And (sort_at ts) };

    ghost part = { λ _ script strict. past Sort.And (spec.semi script strict) };

    fn begins(&self, lexemes: &[Lexeme]) -> bool {
        same_sort(sort_at(lexemes), Sort::And)
    }

    fn part<'a>(
        &self,
        reading: &Reading<'_>,
        lexemes: &'a [Lexeme],
    ) -> Result<(SemiText, &'a [Lexeme]), Refusal> {
        let rest = expect(lexemes, Sort::And)?;
        semi(reading, rest)
    }
}

// Whether EXISTS or NOT EXISTS comes.
#[tactic(auto, unfolding(crate::specs::Reader::begins_semi))]
pub fn begins_semi(lexemes: &[Lexeme]) -> bool
    ensures { result ≡ spec.begins_semi lexemes.now }
{
    sees(lexemes, Sort::Exists) || (sees(lexemes, Sort::Not) && sees(after(lexemes), Sort::Exists))
}

// EXISTS or NOT EXISTS, and a sub-select in parentheses.
#[tactic(auto, unfolding(crate::specs::Reader::semi))]
fn semi<'a>(
    reading: &Reading<'_>,
    lexemes: &'a [Lexeme],
) -> Result<(SemiText, &'a [Lexeme]), Refusal>
    ensures { Gives result (by reading.now spec.semi lexemes.now) }
{
    if same_sort(sort_at(lexemes), Sort::Exists) {
        let rest = expect(lexemes, Sort::Exists)?;
        return sub_in_parens(reading, true, rest);
    }
    let rest = expect(lexemes, Sort::Not)?;
    let rest = expect(rest, Sort::Exists)?;
    sub_in_parens(reading, false, rest)
}

// A sub-select in parentheses, after EXISTS or after NOT EXISTS.
fn sub_in_parens<'a>(
    reading: &Reading<'_>,
    positive: bool,
    lexemes: &'a [Lexeme],
) -> Result<(SemiText, &'a [Lexeme]), Refusal>
    ensures { Gives result (bind (single (by reading.now spec.sub)) (λ x. pure (semi_of positive x)) lexemes.now) }
{
    let rest = expect(lexemes, Sort::LeftParen)?;
    let read = sub(reading, positive, rest)?;
    followed(read, Sort::RightParen)
}

// A sub-select, after EXISTS or after NOT EXISTS.
#[tactic(auto, unfolding(crate::specs::Reader::sub))]
fn sub<'a>(
    reading: &Reading<'_>,
    positive: bool,
    lexemes: &'a [Lexeme],
) -> Result<(SemiText, &'a [Lexeme]), Refusal>
    ensures { Gives result (bind (by reading.now spec.sub) (λ x. pure (semi_of positive x)) lexemes.now) }
{
    let rest = expect(lexemes, Sort::Select)?;
    let rest = expect(rest, Sort::Star)?;
    let rest = expect(rest, Sort::From)?;
    let ((name, alias), rest) = table_name(reading, rest)?;
    let (cond, rest) = sub_condition(reading, rest)?;
    Ok((
        SemiText {
            positive,
            name,
            alias,
            cond,
        },
        rest,
    ))
}

// The condition after WHERE, or none.
fn sub_condition<'a>(
    reading: &Reading<'_>,
    lexemes: &'a [Lexeme],
) -> Result<(Option<CondText>, &'a [Lexeme]), Refusal>
    ensures { Gives result (optional (is Sort.Where) (past Sort.Where (by reading.now spec.cond)) lexemes.now) }
{
    if same_sort(sort_at(lexemes), Sort::Where) {
        let rest = expect(lexemes, Sort::Where)?;
        let (cond, rest) = condition(reading, rest)?;
        return Ok((Some(cond), rest));
    }
    Ok((None, lexemes))
}
