//! Statements of files.
ghost use Rattle.std.specs.Prelude.{◌≡◌};
ghost use Rattle.og_syntax.specs.Reading.{Gives};
ghost use Rattle.og_parse.specs.StatementReader as spec;

use og_syntax::{Lexeme, Reading, Refusal, Sort, Stmt, expect, name, same_sort, sort_at, text};

// Whether a statement of files begins so.
pub fn begins_file_statement(sort: Sort) -> bool
    ensures { result ≡ spec.begins_file_statement sort }
{
    same_sort(sort, Sort::Save) || same_sort(sort, Sort::Open) || same_sort(sort, Sort::Import)
}

// A statement of files.
#[tactic(auto, unfolding(crate::specs::StatementReader::file_statement))]
pub fn file_statement<'a>(
    reading: &Reading<'_>,
    lexemes: &'a [Lexeme],
) -> Result<(Stmt, &'a [Lexeme]), Refusal>
    ensures { Gives result (spec.file_statement reading.now.script.now lexemes.now) }
{
    let sort = sort_at(lexemes);
    if same_sort(sort, Sort::Save) {
        return save(reading, lexemes);
    }
    if same_sort(sort, Sort::Open) {
        return open_file(reading, lexemes);
    }
    import_into(reading, lexemes)
}

// SAVE.
#[tactic(auto, unfolding(crate::specs::StatementReader::save))]
fn save<'a>(reading: &Reading<'_>, lexemes: &'a [Lexeme]) -> Result<(Stmt, &'a [Lexeme]), Refusal>
    ensures { Gives result (spec.save reading.now.script.now lexemes.now) }
{
    let rest = expect(lexemes, Sort::Save)?;
    let (name, rest) = name(reading, rest)?;
    let rest = expect(rest, Sort::To)?;
    let (file, rest) = text(reading, rest)?;
    Ok((Stmt::Save { name, file }, rest))
}

// OPEN.
#[tactic(auto, unfolding(crate::specs::StatementReader::open_file))]
fn open_file<'a>(
    reading: &Reading<'_>,
    lexemes: &'a [Lexeme],
) -> Result<(Stmt, &'a [Lexeme]), Refusal>
    ensures { Gives result (spec.open_file reading.now.script.now lexemes.now) }
{
    let rest = expect(lexemes, Sort::Open)?;
    let (name, rest) = name(reading, rest)?;
    let rest = expect(rest, Sort::From)?;
    let (file, rest) = text(reading, rest)?;
    Ok((Stmt::OpenFile { name, file }, rest))
}

// IMPORT.
#[tactic(auto, unfolding(crate::specs::StatementReader::import_into))]
fn import_into<'a>(
    reading: &Reading<'_>,
    lexemes: &'a [Lexeme],
) -> Result<(Stmt, &'a [Lexeme]), Refusal>
    ensures { Gives result (spec.import_into reading.now.script.now lexemes.now) }
{
    let rest = expect(lexemes, Sort::Import)?;
    let rest = expect(rest, Sort::Into)?;
    let (name, rest) = name(reading, rest)?;
    let rest = expect(rest, Sort::From)?;
    let (file, rest) = text(reading, rest)?;
    Ok((Stmt::ImportFile { name, file }, rest))
}
