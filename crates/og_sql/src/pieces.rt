//! The SQL of the statements of a script, one after the other.
ghost use Rattle.std.specs.Prelude.{◌≡◌, ◌++◌, ◌∷◌, [], ℕ, List, Some, IfOk, OnOk, OnErr, reverse};
ghost use Rattle.og_faults.specs.Counts.{IsFaultCount, is_file_fault};
ghost use Rattle.og_io.specs.Folders.{Folder};
ghost use Rattle.og_syntax.specs.declared.tree.Stmt.{Stmt};
ghost use Rattle.og_db.specs.Effects.{Effect};
ghost use Rattle.og_session.specs.Contents.{AreContents, Contents, outcome};
ghost use Rattle.og_session.specs.Runs.{run_from};
ghost use Rattle.og_sql.specs.Comments.{comment_above};
ghost use Rattle.og_sql.specs.Ends.{run_end};
ghost use Rattle.og_sql.specs.Translations.{AreAtStart, IsCarried, IsHeldAt, IsStatementEnd, IsUnder, StepEnds};

use crate::reads::FilesRead;
use crate::step::{Context, sql_of};
use crate::stop::SqlStop;
use og_base::NoMemory;
use og_io::Files;
use og_outline::{Outline, no_outline};
use og_print::write_stmt;
use og_script::turned;
use og_sql_text::write_comment;
use og_sql_words::Target;
use og_syntax::Stmt;
use sqlite_items::Items;
use std::alloc::Global;

/// Appends a piece for each statement, up to the first with a fault or with a value that PostgreSQL cannot hold.
pub fn put_pieces<F: Files>(
    alloc: Global,
    target: &Target,
    stmts: Items<Stmt>,
    files: &mut F,
    outline: &mut Outline,
    text: &mut Vec<u8>,
) -> Result<(), SqlStop>
    requires no_text { text.old.items ≡ [] }
    requires no_names { outline.old ≡ record { names = []; files = [] } }
    ensures carried { (start : Folder) (contents : Contents) → F.folder files.old ≡ Some start → AreContents start contents → IsCarried stmts (run_from contents 1 [] stmts) result text.new.items }
    ensures stops { IsStatementEnd result }
    ensures files { IsFaultCount (is_file_fault (run_end result)) (F.faults files.old) (F.faults files.new) }
{
    no_outline();
    let read = FilesRead::of(alloc, stmts.as_slice())?;
    let mut left = turned(alloc, stmts)?;
    'stmts: for place in 0..left.len() {
        let context = Context {
            target,
            read: &read,
            number: place + 1,
        };
        put_piece(alloc, context, &mut left, files, outline, text)?;
    }
    Ok(())
}

// Takes the last of the statements that are left, in turned order, and appends its SQL under its text.
fn put_piece<F: Files>(
    alloc: Global,
    context: Context<'_>,
    left: &mut Vec<Stmt>,
    files: &mut F,
    outline: &mut Outline,
    text: &mut Vec<u8>,
) -> Result<(), SqlStop>
    requires next { (stmt : Stmt) × (rest : List Stmt) × (reverse left.old.items ≡ stmt ∷ rest) }
    ensures ends { (stmt : Stmt) (rest : List Stmt) → reverse left.old.items ≡ stmt ∷ rest → (start : Folder) (contents : Contents) (before : List Effect) →
        IsHeldAt start contents before outline.old (F.folder files.old) → StepEnds context.entry.number before (outcome contents before stmt) outline.new result }
    ensures under { (stmt : Stmt) (rest : List Stmt) → reverse left.old.items ≡ stmt ∷ rest → OnOk result ((piece : List ℕ) × IsUnder stmt piece × (text.new.items ≡ text.old.items ++ piece)) }
    ensures kept { OnErr result (text.new.items ≡ text.old.items) }
    ensures left { (stmt : Stmt) (rest : List Stmt) → reverse left.old.items ≡ stmt ∷ rest → reverse left.new.items ≡ rest }
    ensures stops { IsStatementEnd result }
    ensures folder { (start : Folder) → AreAtStart start (F.folder files.old) → AreAtStart start (F.folder files.new) }
    ensures files { IsFaultCount (is_file_fault (run_end result)) (F.faults files.old) (F.faults files.new) }
{
    let Some(stmt) = left.pop() else {
        unreachable!();
    };
    let piece = piece_of(alloc, context, stmt, files, outline)?;
    append(piece.as_slice(), text)?;
    Ok(())
}

// The SQL of a statement under its text.
fn piece_of<F: Files>(
    alloc: Global,
    context: Context<'_>,
    stmt: Stmt,
    files: &mut F,
    outline: &mut Outline,
) -> Result<Vec<u8>, SqlStop>
    ensures ends { (start : Folder) (contents : Contents) (before : List Effect) → IsHeldAt start contents before outline.old (F.folder files.old) →
        StepEnds context.entry.number before (outcome contents before stmt) outline.new result }
    ensures under { IfOk result (λ piece. IsUnder stmt piece.items) }
    ensures stops { IsStatementEnd result }
    ensures folder { (start : Folder) → AreAtStart start (F.folder files.old) → AreAtStart start (F.folder files.new) }
    ensures files { IsFaultCount (is_file_fault (run_end result)) (F.faults files.old) (F.faults files.new) }
{
    let mut piece = commented(alloc, &stmt)?;
    let sql = sql_of(alloc, context, stmt, files, outline)?;
    append(sql.end()?, &mut piece)?;
    Ok(piece)
}

// Appends bytes. Refused only for want of memory, and then the text is as it was.
fn append(bytes: &[u8], text: &mut Vec<u8>) -> Result<(), NoMemory>
    ensures appended { OnOk result (text.new.items ≡ text.old.items ++ bytes.now) }
    ensures refused { OnErr result (text.new.items ≡ text.old.items) }
{
    text.extend_from_slice(bytes)?;
    Ok(())
}

// The text of a statement as a comment.
fn commented(alloc: Global, stmt: &Stmt) -> Result<Vec<u8>, NoMemory>
    ensures { IfOk result (λ text. text.items ≡ comment_above stmt.now) }
{
    let mut line = Vec::new(alloc);
    write_stmt(alloc, stmt, &mut line)?;
    let (words, _) = line.as_slice().split_at(line.len().saturating_sub(1));
    let mut text = Vec::new(alloc);
    text.push(b'\n')?;
    write_comment(words, &mut text)?;
    Ok(text)
}
