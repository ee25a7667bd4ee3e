//! Carries out a command, up to its fault's line.
ghost use Rattle.std.specs.Prelude.{◌≡◌, ◌+◌, false, [], ◌∷◌, ℕ, List, Some, OnOk, IfErr};
ghost use Rattle.std.specs.List.{All};
ghost use Rattle.std.specs.Io.KnownBytes.{Appends};
ghost use Rattle.og_io.specs.Folders.{Folder};
ghost use Rattle.og_io.specs.Sources.{TakesAtMost, max_part};
ghost use Rattle.og_db.specs.Runs.{stored};
ghost use Rattle.og_faults.specs.Counts.{IsAbsenceCount, IsFaultCount, is_file_fault, is_read_fault, is_write_fault};
ghost use Rattle.og_script.specs.LiveTexts.{IsLiveStmt};
ghost use Rattle.og_script.specs.Kept.{IsKeptAt};
ghost use Rattle.og_script.specs.Scripts.{max_source};
ghost use Rattle.og_session.specs.Contents.{AreContents, Contents};
ghost use Rattle.og_session.specs.Ends.{EndsUnreported, EndsWith, IsEndOf, RunAsks, RunEnds};
ghost use Rattle.og_session.specs.Headline.{HasGrown};
ghost use Rattle.og_session.specs.Runs.{IsDefinedRun, IsRun, Run, run_from};

use crate::law::defined_runs;
use crate::names::Names;
use crate::step::step;
use og_base::Words;
use og_db::{Db, no_statements};
use og_faults::Stop;
use og_io::{Files, Sink, Source};
use og_par::{Crew, Gate};
use og_progress::Progress;
use og_script::{script_of, turned, workers_of};
use og_syntax::Stmt;
use og_words::read_words;
use sqlite_items::Items;
use std::alloc::Global;
use std::thread::Threads;

/// Runs the command that the words are over a database without names, and writes what it prints, up to
/// the line of a fault. The bytes of the source are kept in `script`.
pub fn carry_out<H: Threads + Sync, S: Source, K: Sink, F: Files, G: Gate + Progress + Sync>(
    rt: &H,
    alloc: Global,
    words: &Words,
    src: &mut S,
    out: &mut K,
    files: &mut F,
    db: &mut Db,
    gate: &G,
    script: &mut Vec<u8>,
) -> Result<(), Stop>
    requires empty { db.old ≡ [] }
    requires not_ended { IsRun words.now → S.ended src.old ≡ false }
    ensures told { (source : List ℕ) (start : Folder) (run : Run) → (IsRun words.now → S.left src.old ≡ Some source) → F.folder files.old ≡ Some start → IsDefinedRun words.now source start run →
        (text : List ℕ) × Appends (K.written out.old) (K.written out.new) text × EndsUnreported run start db.new (F.folder files.new) text result }
    ensures drained { (source : List ℕ) → IsRun words.now → S.left src.old ≡ Some source → OnOk result (S.left src.new ≡ Some []) }
    ensures untouched { ¬ IsRun words.now → src.new ≡ src.old }
    ensures ended { IsEndOf words.now (S.left src.old) result }
    ensures before { EndsWith (2 ∷ 3 ∷ 6 ∷ []) result → (db.new ≡ []) × (files.new ≡ files.old) }
    ensures reads { IsFaultCount (is_read_fault result) (S.faults src.old) (S.faults src.new) }
    ensures files { IsFaultCount (is_file_fault result) (F.faults files.old) (F.faults files.new) }
    ensures writes { IsFaultCount (is_write_fault result) (K.faults out.old) (K.faults out.new) }
    ensures grown { HasGrown (K.written out.old) (K.written out.new) }
    ensures absences { IsAbsenceCount result (F.absences files.old) (F.absences files.new) }
    ensures asked { (source : List ℕ) (start : Folder) (run : Run) → (IsRun words.now → S.left src.old ≡ Some source) → F.folder files.old ≡ Some start → IsDefinedRun words.now source start run →
        RunAsks run start db.new (F.folder files.new) (F.calls files.old) (F.calls files.new) result }
    ensures taken { TakesAtMost (max_source + max_part) (S.left src.old) (S.left src.new) }
    ensures kept { (source : List ℕ) → IsRun words.now → S.left src.old ≡ Some source → IfErr result (IsKeptAt source script.new.items) }
    ensures none_kept { ¬ IsRun words.now → script.new.items ≡ script.old.items }
{
    defined_runs();
    no_statements();
    let command = read_words(alloc, words)?;
    let crew = Crew::new(rt, alloc, workers_of(&command), gate);
    let stmts = script_of(alloc, command, src, script)?;
    run_statements(&crew, stmts, out, files, db)
}

// Runs the statements in order, up to the first with a fault. Each is gone once it is
// carried out.
fn run_statements<H: Threads + Sync, K: Sink, F: Files, G: Gate + Progress + Sync>(
    crew: &Crew<'_, H, G>,
    stmts: Items<Stmt>,
    out: &mut K,
    files: &mut F,
    db: &mut Db,
) -> Result<(), Stop>
    requires live { All IsLiveStmt stmts }
    requires empty { db.old ≡ [] }
    ensures ends { (start : Folder) (contents : Contents) → F.folder files.old ≡ Some start → AreContents start contents →
        (text : List ℕ) × Appends (K.written out.old) (K.written out.new) text × RunEnds (run_from contents 1 [] stmts) start db.new (F.folder files.new) text result }
    ensures late { EndsWith (2 ∷ 3 ∷ 6 ∷ []) result → ⊥ }
    ensures files { IsFaultCount (is_file_fault result) (F.faults files.old) (F.faults files.new) }
    ensures writes { IsFaultCount (is_write_fault result) (K.faults out.old) (K.faults out.new) }
    ensures grown { HasGrown (K.written out.old) (K.written out.new) }
    ensures absences { IsAbsenceCount result (F.absences files.old) (F.absences files.new) }
    ensures asked { (start : Folder) (contents : Contents) → F.folder files.old ≡ Some start → AreContents start contents →
        RunAsks (run_from contents 1 [] stmts) start db.new (F.folder files.new) (F.calls files.old) (F.calls files.new) result }
{
    let alloc = crew.alloc();
    no_statements();
    let mut names = Names::new(alloc);
    let end = run_all(crew, stmts, out, files, &mut names);
    *db = names.into_stored();
    end
}

// The same, over the names that they leave.
fn run_all<H: Threads + Sync, K: Sink, F: Files, G: Gate + Progress + Sync>(
    crew: &Crew<'_, H, G>,
    stmts: Items<Stmt>,
    out: &mut K,
    files: &mut F,
    names: &mut Names,
) -> Result<(), Stop>
    requires live { All IsLiveStmt stmts }
    requires empty { (names.old.names ≡ []) × (names.old.views ≡ []) }
    ensures ends { (start : Folder) (contents : Contents) → F.folder files.old ≡ Some start → AreContents start contents →
        (text : List ℕ) × Appends (K.written out.old) (K.written out.new) text × RunEnds (run_from contents 1 [] stmts) start (stored names.new.names) (F.folder files.new) text result }
    ensures late { EndsWith (2 ∷ 3 ∷ 6 ∷ []) result → ⊥ }
    ensures files { IsFaultCount (is_file_fault result) (F.faults files.old) (F.faults files.new) }
    ensures writes { IsFaultCount (is_write_fault result) (K.faults out.old) (K.faults out.new) }
    ensures grown { HasGrown (K.written out.old) (K.written out.new) }
    ensures absences { IsAbsenceCount result (F.absences files.old) (F.absences files.new) }
    ensures asked { (start : Folder) (contents : Contents) → F.folder files.old ≡ Some start → AreContents start contents →
        RunAsks (run_from contents 1 [] stmts) start (stored names.new.names) (F.folder files.new) (F.calls files.old) (F.calls files.new) result }
{
    let alloc = crew.alloc();
    no_statements();
    let mut left = turned(alloc, stmts)?;
    let count = left.len();
    'stmts: for place in 0..left.len() {
        crew.gate().begin(place + 1, count);
        step(crew, place + 1, &mut left, out, files, names)?;
    }
    Ok(())
}
