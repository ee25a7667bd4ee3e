//! Statements.
ghost use Rattle.og_syntax.specs.Reading.{Gives, by};
ghost use Rattle.og_parse.specs.StatementReader as spec;

use crate::answers::answer;
use crate::changes::{begins_change, change};
use crate::files::{begins_file_statement, file_statement};
use og_syntax::{Lexeme, Reading, Refusal, Sort, Stmt, after, sees, sort_at};

// A statement with its semicolon.
#[tactic(auto, unfolding(crate::specs::StatementReader::statement, og_syntax::specs::Reading::tok))]
pub fn statement<'a>(
    reading: &Reading<'_>,
    lexemes: &'a [Lexeme],
) -> Result<(Stmt, &'a [Lexeme]), Refusal>
    ensures { Gives result (by reading.now spec.statement lexemes.now) }
{
    let (stmt, rest) = body(reading, lexemes)?;
    if sees(rest, Sort::Semicolon) {
        return Ok((stmt, after(rest)));
    }
    drop(stmt);
    Err(Refusal::Syntax)
}

// A statement without its semicolon.
#[tactic(auto, unfolding(crate::specs::StatementReader::body))]
fn body<'a>(reading: &Reading<'_>, lexemes: &'a [Lexeme]) -> Result<(Stmt, &'a [Lexeme]), Refusal>
    ensures { Gives result (by reading.now spec.body lexemes.now) }
{
    let sort = sort_at(lexemes);
    if begins_change(sort) {
        return change(reading, lexemes);
    }
    if begins_file_statement(sort) {
        return file_statement(reading, lexemes);
    }
    answer(reading, lexemes)
}
