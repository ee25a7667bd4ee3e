//! The top call: a script and files in, SQL out.
ghost use Rattle.std.specs.Prelude.{◌≡◌, ◌++◌, ◌+◌, false, [], ◌∷◌, ℕ, List, Some, IfOk, OnOk};
ghost use Rattle.og_faults.specs.Counts.{IsFaultCount, is_file_fault, is_read_fault, is_write_fault};
ghost use Rattle.og_io.specs.Folders.{Folder};
ghost use Rattle.og_io.specs.Sources.{TakesAtMost, max_part};
ghost use Rattle.og_script.specs.Scripts.{max_source};
ghost use Rattle.og_syntax.specs.declared.tree.Stmt.{Stmt};
ghost use Rattle.og_session.specs.Runs.{IsDefinedRun, Run};
ghost use Rattle.og_sql.specs.Comments.{told};
ghost use Rattle.og_sql.specs.Ends as ends;
ghost use Rattle.og_sql.specs.Head.{head};
ghost use Rattle.og_sql.specs.Translations.{AreStatementsOf, IsCarried, IsWritten, run_words};

use crate::pieces::put_pieces;
use crate::stop::{SqlStop, is_cut, line_of, status_of};
use og_base::NoMemory;
use og_io::{Files, Sink, Source};
use og_lex::{one_list_a_script, tokens_or_a_fault};
use og_outline::Outline;
use og_parse::{one_tree, tree_or_fault};
use og_script::script_of;
use og_sql_text::write_quoted;
use og_sql_words::Target;
use og_words::{Command, one_command};
use std::alloc::Global;

// What stands before the statements: psql is told to write what it is asked and nothing else. As of an encoding of which it
// knows nothing, it writes all bytes of texts: in UTF-8 it leaves out U+10FFFF and others.
const HEAD: &str = "\\set ON_ERROR_STOP on
\\set QUIET on
\\pset format unaligned
\\pset tuples_only on
SET client_encoding = 'SQL_ASCII'; SET standard_conforming_strings = on; SET datestyle = iso; SET client_min_messages = warning;
SET search_path = public, ongoing; SET jit = off;
";

/// How a translation ended.
#[derive(Drop)]
pub struct Ended {
    /// The exit status.
    pub status: u8,
    /// What stopped it, if it did not come to its end.
    pub end: Result<(), SqlStop>,
    /// The bytes of the source.
    pub script: Vec<u8>,
    /// The names of the script as it left them, without rows.
    pub outline: Outline,
}

/// Reads the source to its end as a script, and writes for each of its statements, in order, its text as a comment and
/// the SQL that does the same in PostgreSQL. Where a statement has a fault, the status and the last line are those of
/// a run of the script, and nothing of that statement or a later one is written; the line is what psql writes last. Where
/// the source or the files fail nothing is written. A statement with a value that PostgreSQL cannot hold ends it with status 12. Statements that read
/// files read them; a file that the script saves before is not read, and none is written.
///
/// Gives the exit status: that of a run (docs/LANGUAGE.md, "Faults"), or 12.
pub fn translate<S: Source, K: Sink, F: Files>(
    alloc: Global,
    target: &Target,
    src: &mut S,
    out: &mut K,
    files: &mut F,
) -> Ended
    requires not_ended { S.ended src.old ≡ false }
    ensures written { (source : List ℕ) (start : Folder) (run : Run) (stmts : List Stmt) → S.left src.old ≡ Some source → F.folder files.old ≡ Some start → IsDefinedRun run_words source start run → AreStatementsOf source stmts →
        IsWritten stmts run result.end (K.written out.old) (K.written out.new) }
    ensures status { result.status ≡ ends.status_of result.end }
    ensures reads { IsFaultCount (is_read_fault (ends.run_end result.end)) (S.faults src.old) (S.faults src.new) }
    ensures files { IsFaultCount (is_file_fault (ends.run_end result.end)) (F.faults files.old) (F.faults files.new) }
    ensures writes { IsFaultCount (is_write_fault (ends.run_end result.end)) (K.faults out.old) (K.faults out.new) }
    ensures taken { TakesAtMost (max_source + max_part) (S.left src.old) (S.left src.new) }
{
    let mut script = Vec::new(alloc);
    let mut outline = Outline::new(alloc);
    let mut text = Vec::new(alloc);
    let done = put_script(target, src, files, &mut outline, &mut script, &mut text);
    let end = write_text(alloc, done, text.as_slice(), out);
    let status = status_of(&end);
    Ended {
        status,
        end,
        script,
        outline,
    }
}

// Reads the source, and appends the pieces of its statements up to the first with a fault.
fn put_script<S: Source, F: Files>(
    target: &Target,
    src: &mut S,
    files: &mut F,
    outline: &mut Outline,
    script: &mut Vec<u8>,
    text: &mut Vec<u8>,
) -> Result<(), SqlStop>
    requires not_ended { S.ended src.old ≡ false }
    requires no_text { text.old.items ≡ [] }
    requires no_names { outline.old ≡ record { names = []; files = [] } }
    ensures carried { (source : List ℕ) (start : Folder) (run : Run) (stmts : List Stmt) → S.left src.old ≡ Some source → F.folder files.old ≡ Some start → IsDefinedRun run_words source start run → AreStatementsOf source stmts →
        IsCarried stmts run result text.new.items }
    ensures reads { IsFaultCount (is_read_fault (ends.run_end result)) (S.faults src.old) (S.faults src.new) }
    ensures files { IsFaultCount (is_file_fault (ends.run_end result)) (F.faults files.old) (F.faults files.new) }
    ensures writes { is_write_fault (ends.run_end result) ≡ false }
    ensures taken { TakesAtMost (max_source + max_part) (S.left src.old) (S.left src.new) }
{
    one_list_a_script();
    tokens_or_a_fault();
    one_tree();
    tree_or_fault();
    one_command();
    let alloc = *text.allocator();
    let stmts = script_of(alloc, Command::Run { workers: 1 }, src, script)?;
    put_pieces(alloc, target, stmts, files, outline, text)
}

// Writes the head, the pieces and the line of the fault, if there is one; nothing where a device failed or memory ran out.
fn write_text<K: Sink>(
    alloc: Global,
    end: Result<(), SqlStop>,
    pieces: &[u8],
    out: &mut K,
) -> Result<(), SqlStop>
    requires { is_write_fault (ends.run_end end) ≡ false }
    ensures written { (stmts : List Stmt) (run : Run) → IsCarried stmts run end pieces.now → IsWritten stmts run result (K.written out.old) (K.written out.new) }
    ensures reads { (old new : ℕ) → IsFaultCount (is_read_fault (ends.run_end end)) old new → IsFaultCount (is_read_fault (ends.run_end result)) old new }
    ensures files { (old new : ℕ) → IsFaultCount (is_file_fault (ends.run_end end)) old new → IsFaultCount (is_file_fault (ends.run_end result)) old new }
    ensures writes { IsFaultCount (is_write_fault (ends.run_end result)) (K.faults out.old) (K.faults out.new) }
{
    if is_cut(&end) {
        return end;
    }
    let text = match text_of(alloc, &end, pieces) {
        Ok(text) => text,
        Err(NoMemory) => {
            drop(end);
            return Err(SqlStop::from(NoMemory));
        }
    };
    if let Err(refusal) = out.put(text.as_slice()) {
        drop(end);
        return Err(SqlStop::from(refusal));
    }
    end
}

// The head, the pieces, and what asks psql for the line of the end.
fn text_of(alloc: Global, end: &Result<(), SqlStop>, pieces: &[u8]) -> Result<Vec<u8>, NoMemory>
    ensures { IfOk result (λ text. text.items ≡ head ++ pieces.now ++ told (ends.line_of end.now)) }
{
    let line = line_of(alloc, end)?;
    let mut text = Vec::from_slice(alloc, HEAD.as_bytes())?;
    text.extend_from_slice(pieces)?;
    put_told(line.as_slice(), &mut text)?;
    Ok(text)
}

// Appends what asks psql for a line, without the line feed at its end, where there is one.
fn put_told(line: &[u8], text: &mut Vec<u8>) -> Result<(), NoMemory>
    ensures { OnOk result (text.new.items ≡ text.old.items ++ told line.now) }
{
    if line.is_empty() {
        return Ok(());
    }
    let (words, _) = line.split_at(line.len() - 1);
    text.extend_from_slice(b"\nSELECT ")?;
    write_quoted(words, text)?;
    text.extend_from_slice(b";\n")?;
    Ok(())
}
