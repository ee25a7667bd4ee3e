//! The SQL of one statement.
ghost use Rattle.std.specs.Prelude.{◌≡◌, ℕ, List, None, Option, Ok};
ghost use Rattle.og_faults.specs.Counts.{IsFaultCount, is_file_fault};
ghost use Rattle.og_io.specs.Folders.{Folder};
ghost use Rattle.og_db.specs.Effects.{Effect, on_names};
ghost use Rattle.og_db.specs.Held.{known_of};
ghost use Rattle.og_db.specs.Statements.{IsOfNames};
ghost use Rattle.og_query.specs.Fits.{IsFit};
ghost use Rattle.og_session.specs.Contents.{Contents, effect_of, outcome, taken};
ghost use Rattle.og_sql.specs.Ends.{run_end};
ghost use Rattle.og_sql.specs.Translations.{AreAtStart, IsHeldAt, IsMade, IsStatementEnd, StepEnds};
ghost use Rattle.og_sql_outside.specs.Outside.{outside_statement};

use crate::files::{put_import, put_open, put_save_of};
use crate::reads::FilesRead;
use crate::statements::put_statement;
use crate::stop::SqlStop;
use og_check::{check_owned, checked_fits};
use og_faults::Stop;
use og_io::Files;
use og_outline::{Outline, known_outline, one_statement_in_outline};
use og_query::Typed;
use og_sql_outside::outside_of;
use og_sql_text::Sql;
use og_sql_words::Target;
use og_syntax::Stmt;
use std::alloc::Global;

/// What the SQL of a statement depends on beside the names and the files.
#[derive(Clone, Copy)]
pub struct Context<'a> {
    /// What SQL is asked for.
    pub target: &'a Target,
    /// The files that statements of the script read.
    pub read: &'a FilesRead,
    /// The number of the statement, counted from 1.
    pub number: usize,
}

/// The SQL of a statement, and the outline after it. Nothing is made of a statement with
/// a fault, or with a value that PostgreSQL cannot hold.
pub fn sql_of<F: Files>(
    alloc: Global,
    context: Context<'_>,
    stmt: Stmt,
    files: &mut F,
    outline: &mut Outline,
) -> Result<Sql, SqlStop>
    ensures ends { (start : Folder) (contents : Contents) (before : List Effect) → IsHeldAt start contents before outline.old (F.folder files.old) →
        StepEnds context.entry.number before (outcome contents before stmt) outline.new result }
    ensures stops { IsStatementEnd result }
    ensures folder { (start : Folder) → AreAtStart start (F.folder files.old) → AreAtStart start (F.folder files.new) }
    ensures files { IsFaultCount (is_file_fault (run_end result)) (F.faults files.old) (F.faults files.new) }
{
    checked_fits();
    known_outline();
    match check_owned(alloc, stmt, &*outline) {
        Ok(typed) => sql_of_typed(alloc, context, typed, files, outline),
        Err(refusal) => Err(SqlStop::Run(Stop::of_check(context.number, refusal))),
    }
}

// The SQL of a checked statement, where PostgreSQL can hold its values.
fn sql_of_typed<F: Files>(
    alloc: Global,
    context: Context<'_>,
    typed: Typed,
    files: &mut F,
    outline: &mut Outline,
) -> Result<Sql, SqlStop>
    requires fits { IsFit (known_of outline.old.names) typed }
    ensures ends { (start : Folder) (contents : Contents) (before : List Effect) → IsHeldAt start contents before outline.old (F.folder files.old) →
        StepEnds context.entry.number before (taken (effect_of contents before typed)) outline.new result }
    ensures stops { IsStatementEnd result }
    ensures folder { (start : Folder) → AreAtStart start (F.folder files.old) → AreAtStart start (F.folder files.new) }
    ensures files { IsFaultCount (is_file_fault (run_end result)) (F.faults files.old) (F.faults files.new) }
{
    match outside_of(&typed) {
        Some(what) => {
            drop(typed);
            Err(SqlStop::Outside {
                statement: context.number,
                what,
            })
        }
        None => {
            let mut out = Sql::new(alloc);
            let done = put_typed(context, &typed, files, outline, &mut out);
            drop(typed);
            done?;
            Ok(out)
        }
    }
}

// Appends the SQL of a checked statement, and makes the outline that after it.
fn put_typed<F: Files>(
    context: Context<'_>,
    typed: &Typed,
    files: &mut F,
    outline: &mut Outline,
    out: &mut Sql,
) -> Result<(), SqlStop>
    requires fits { IsFit (known_of outline.old.names) typed.now }
    requires inside { outside_statement typed.now ≡ None }
    ensures ends { (start : Folder) (contents : Contents) (before : List Effect) → IsHeldAt start contents before outline.old (F.folder files.old) →
        StepEnds context.entry.number before (taken (effect_of contents before typed.now)) outline.new result }
    ensures stops { IsStatementEnd result }
    ensures folder { (start : Folder) → AreAtStart start (F.folder files.old) → AreAtStart start (F.folder files.new) }
    ensures files { IsFaultCount (is_file_fault (run_end result)) (F.faults files.old) (F.faults files.new) }
{
    match typed {
        Typed::Save { name, file } => put_save_of(context, name, file, outline, out),
        Typed::OpenFile { name, file } => put_open(context, name, file, files, outline, out),
        Typed::ImportFile { name, file } => put_import(context, name, file, files, outline, out),
        other => put_named(context.target, other, outline, out),
    }
}

// Appends the SQL of a checked statement that acts on names alone, and makes the outline that after it.
fn put_named(
    target: &Target,
    typed: &Typed,
    outline: &mut Outline,
    out: &mut Sql,
) -> Result<(), SqlStop>
    requires fits { IsFit (known_of outline.old.names) typed.now }
    requires inside { outside_statement typed.now ≡ None }
    requires of { IsOfNames typed.now }
    ensures ends { (of : IsOfNames typed.now) (number : ℕ) (start : Folder) (contents : Contents) (before : List Effect) (folder : Option Folder) → IsHeldAt start contents before outline.old folder →
        StepEnds number before (Ok (on_names (typed.now, of))) outline.new result }
    ensures stops { IsMade result }
{
    one_statement_in_outline();
    outline.names_differ();
    put_statement(target, typed, &*outline, out);
    outline.apply(typed)?;
    Ok(())
}
