//! Statements that change tables.
ghost use Rattle.std.specs.Prelude.{◌≡◌};
ghost use Rattle.og_syntax.specs.Reading.{Gives, by};
ghost use Rattle.og_parse.specs.StatementReader as spec;

use crate::assignments::sets;
use crate::columns::coldefs;
use crate::endings::where_cond;
use crate::tuples::tuples;
use og_syntax::{Lexeme, Reading, Refusal, Sort, Stmt, expect, name, same_sort, sort_at};

// Whether a statement that changes tables begins so.
pub fn begins_change(sort: Sort) -> bool
    ensures { result ≡ spec.begins_change sort }
{
    same_sort(sort, Sort::Create)
        || same_sort(sort, Sort::Insert)
        || same_sort(sort, Sort::Delete)
        || same_sort(sort, Sort::Update)
        || same_sort(sort, Sort::Drop)
}

// A statement that changes tables.
#[tactic(auto, unfolding(crate::specs::StatementReader::change))]
pub fn change<'a>(
    reading: &Reading<'_>,
    lexemes: &'a [Lexeme],
) -> Result<(Stmt, &'a [Lexeme]), Refusal>
    ensures { Gives result (by reading.now spec.change lexemes.now) }
{
    let sort = sort_at(lexemes);
    if same_sort(sort, Sort::Create) {
        return create(reading, lexemes);
    }
    if same_sort(sort, Sort::Insert) {
        return insert(reading, lexemes);
    }
    if same_sort(sort, Sort::Delete) {
        return delete(reading, lexemes);
    }
    if same_sort(sort, Sort::Update) {
        return update(reading, lexemes);
    }
    drop_name(reading, lexemes)
}

// CREATE TABLE.
#[tactic(auto, unfolding(crate::specs::StatementReader::create))]
fn create<'a>(reading: &Reading<'_>, lexemes: &'a [Lexeme]) -> Result<(Stmt, &'a [Lexeme]), Refusal>
    ensures { Gives result (spec.create reading.now.script.now lexemes.now) }
{
    let rest = expect(lexemes, Sort::Create)?;
    let rest = expect(rest, Sort::Table)?;
    let (name, rest) = name(reading, rest)?;
    let rest = expect(rest, Sort::LeftParen)?;
    let (columns, rest) = coldefs(reading, rest)?;
    let rest = expect(rest, Sort::RightParen)?;
    Ok((Stmt::Create { name, columns }, rest))
}

// INSERT.
#[tactic(auto, unfolding(crate::specs::StatementReader::insert))]
fn insert<'a>(reading: &Reading<'_>, lexemes: &'a [Lexeme]) -> Result<(Stmt, &'a [Lexeme]), Refusal>
    ensures { Gives result (by reading.now spec.insert lexemes.now) }
{
    let rest = expect(lexemes, Sort::Insert)?;
    let rest = expect(rest, Sort::Into)?;
    let (name, rest) = name(reading, rest)?;
    let rest = expect(rest, Sort::Values)?;
    let (rows, rest) = tuples(reading, rest)?;
    Ok((Stmt::Insert { name, rows }, rest))
}

// DELETE.
#[tactic(auto, unfolding(crate::specs::StatementReader::delete))]
fn delete<'a>(reading: &Reading<'_>, lexemes: &'a [Lexeme]) -> Result<(Stmt, &'a [Lexeme]), Refusal>
    ensures { Gives result (by reading.now spec.delete lexemes.now) }
{
    let rest = expect(lexemes, Sort::Delete)?;
    let rest = expect(rest, Sort::From)?;
    let (name, rest) = name(reading, rest)?;
    let (cond, rest) = where_cond(reading, rest)?;
    Ok((Stmt::Delete { name, cond }, rest))
}

// UPDATE.
#[tactic(auto, unfolding(crate::specs::StatementReader::update))]
fn update<'a>(reading: &Reading<'_>, lexemes: &'a [Lexeme]) -> Result<(Stmt, &'a [Lexeme]), Refusal>
    ensures { Gives result (by reading.now spec.update lexemes.now) }
{
    let rest = expect(lexemes, Sort::Update)?;
    let (name, rest) = name(reading, rest)?;
    let rest = expect(rest, Sort::Set)?;
    let (sets, rest) = sets(reading, rest)?;
    let (cond, rest) = where_cond(reading, rest)?;
    Ok((Stmt::Update { name, sets, cond }, rest))
}

// DROP.
#[tactic(auto, unfolding(crate::specs::StatementReader::drop_name))]
fn drop_name<'a>(
    reading: &Reading<'_>,
    lexemes: &'a [Lexeme],
) -> Result<(Stmt, &'a [Lexeme]), Refusal>
    ensures { Gives result (spec.drop_name reading.now.script.now lexemes.now) }
{
    let rest = expect(lexemes, Sort::Drop)?;
    let (name, rest) = name(reading, rest)?;
    Ok((Stmt::Drop { name }, rest))
}
