//! Statements that tell or keep something.
ghost use Rattle.og_syntax.specs.Reading.{Gives, by};
ghost use Rattle.og_parse.specs.StatementReader as spec;

use crate::endings::as_of;
use og_syntax::{Lexeme, Reading, Refusal, Sort, Stmt, expect, name, query, same_sort, sort_at};

// A statement that tells or keeps something.
#[tactic(auto, unfolding(crate::specs::StatementReader::answer))]
pub fn answer<'a>(
    reading: &Reading<'_>,
    lexemes: &'a [Lexeme],
) -> Result<(Stmt, &'a [Lexeme]), Refusal>
    ensures { Gives result (by reading.now spec.answer lexemes.now) }
{
    let sort = sort_at(lexemes);
    if same_sort(sort, Sort::Tables) {
        return tables_alone(lexemes);
    }
    if same_sort(sort, Sort::Keep) {
        return keep(reading, lexemes);
    }
    if same_sort(sort, Sort::Print) {
        return print(reading, lexemes);
    }
    if same_sort(sort, Sort::Explain) {
        return explain(reading, lexemes);
    }
    if same_sort(sort, Sort::Valid) {
        return valid(reading, lexemes);
    }
    live(reading, lexemes)
}

// TABLES.
#[tactic(auto, unfolding(crate::specs::StatementReader::tables_alone))]
fn tables_alone(lexemes: &[Lexeme]) -> Result<(Stmt, &[Lexeme]), Refusal>
    ensures { Gives result (spec.tables_alone lexemes.now) }
{
    let rest = expect(lexemes, Sort::Tables)?;
    Ok((Stmt::Tables, rest))
}

// KEEP.
#[tactic(auto, unfolding(crate::specs::StatementReader::keep))]
fn keep<'a>(reading: &Reading<'_>, lexemes: &'a [Lexeme]) -> Result<(Stmt, &'a [Lexeme]), Refusal>
    ensures { Gives result (by reading.now spec.keep lexemes.now) }
{
    let rest = expect(lexemes, Sort::Keep)?;
    let (name, rest) = name(reading, rest)?;
    let rest = expect(rest, Sort::As)?;
    let (query, rest) = query(reading, false, rest)?;
    Ok((Stmt::Keep { name, query }, rest))
}

// PRINT: a name or a query.
#[tactic(auto, unfolding(crate::specs::StatementReader::print))]
fn print<'a>(reading: &Reading<'_>, lexemes: &'a [Lexeme]) -> Result<(Stmt, &'a [Lexeme]), Refusal>
    ensures { Gives result (by reading.now spec.print lexemes.now) }
{
    let rest = expect(lexemes, Sort::Print)?;
    if same_sort(sort_at(rest), Sort::Name) {
        return name_as_of(reading, rest);
    }
    query_as_of(reading, rest)
}

// A name with its day, after PRINT.
#[tactic(auto, unfolding(crate::specs::StatementReader::name_as_of))]
fn name_as_of<'a>(
    reading: &Reading<'_>,
    lexemes: &'a [Lexeme],
) -> Result<(Stmt, &'a [Lexeme]), Refusal>
    ensures { Gives result (by reading.now spec.name_as_of lexemes.now) }
{
    let (name, rest) = name(reading, lexemes)?;
    match as_of(reading, rest) {
        Ok((day, rest)) => Ok((Stmt::PrintName { name, day }, rest)),
        Err(refusal) => Err(refusal),
    }
}

// A query with its day, after PRINT.
#[tactic(auto, unfolding(crate::specs::StatementReader::query_as_of))]
fn query_as_of<'a>(
    reading: &Reading<'_>,
    lexemes: &'a [Lexeme],
) -> Result<(Stmt, &'a [Lexeme]), Refusal>
    ensures { Gives result (by reading.now spec.query_as_of lexemes.now) }
{
    let (query, rest) = query(reading, false, lexemes)?;
    match as_of(reading, rest) {
        Ok((day, rest)) => Ok((Stmt::PrintQuery { query, day }, rest)),
        Err(refusal) => {
            drop(query);
            Err(refusal)
        }
    }
}

// EXPLAIN.
#[tactic(auto, unfolding(crate::specs::StatementReader::explain))]
fn explain<'a>(
    reading: &Reading<'_>,
    lexemes: &'a [Lexeme],
) -> Result<(Stmt, &'a [Lexeme]), Refusal>
    ensures { Gives result (by reading.now spec.explain lexemes.now) }
{
    let rest = expect(lexemes, Sort::Explain)?;
    let (query, rest) = query(reading, false, rest)?;
    Ok((Stmt::Explain { query }, rest))
}

// VALID.
#[tactic(auto, unfolding(crate::specs::StatementReader::valid))]
fn valid<'a>(reading: &Reading<'_>, lexemes: &'a [Lexeme]) -> Result<(Stmt, &'a [Lexeme]), Refusal>
    ensures { Gives result (by reading.now spec.valid lexemes.now) }
{
    let rest = expect(lexemes, Sort::Valid)?;
    let (name, rest) = name(reading, rest)?;
    match as_of(reading, rest) {
        Ok((day, rest)) => Ok((Stmt::Valid { name, day }, rest)),
        Err(refusal) => Err(refusal),
    }
}

// LIVE.
#[tactic(auto, unfolding(crate::specs::StatementReader::live))]
fn live<'a>(reading: &Reading<'_>, lexemes: &'a [Lexeme]) -> Result<(Stmt, &'a [Lexeme]), Refusal>
    ensures { Gives result (by reading.now spec.live lexemes.now) }
{
    let rest = expect(lexemes, Sort::Live)?;
    let (name, rest) = name(reading, rest)?;
    let rest = expect(rest, Sort::As)?;
    let (query, rest) = query(reading, true, rest)?;
    Ok((Stmt::Live { name, query }, rest))
}
