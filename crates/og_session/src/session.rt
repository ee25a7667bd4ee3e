//! The top call: the words, the source and the files in, the output, the files, the database and the exit
//! status out.
ghost use Rattle.std.specs.Prelude.{◌≡◌, ◌+◌, false, [], ◌∷◌, ℕ, List, Some, OnOk, IfErr};
ghost use Rattle.std.specs.Io.KnownBytes.{Appends};
ghost use Rattle.og_io.specs.Folders.{Folder};
ghost use Rattle.og_io.specs.Sources.{TakesAtMost, max_part};
ghost use Rattle.og_faults.specs.Counts.{IsAbsenceCount, IsFaultCount, is_file_fault, is_read_fault, is_unput, is_write_fault};
ghost use Rattle.og_faults.specs.Faults.{status_of};
ghost use Rattle.og_faults.specs.declared.fault.Fault.{Fault};
ghost use Rattle.og_faults.specs.declared.stop.Stop.{Stop};
ghost use Rattle.og_output.specs.Puts.{IsPut};
ghost use Rattle.og_script.specs.Kept.{IsKeptAt};
ghost use Rattle.og_script.specs.Scripts.{max_source};
ghost use Rattle.og_session.specs.Ended.{IsEndedBy};
ghost use Rattle.og_session.specs.Ends.{Ends, EndsWith, IsEndOf, RunAsks};
ghost use Rattle.og_session.specs.Headline.{HasGrown, Headline};
ghost use Rattle.og_session.specs.Runs.{IsDefinedRun, IsRun, Run};

use crate::carry::carry_out;
use crate::law::one_defined_run;
use og_base::Words;
use og_db::Db;
use og_faults::{Stop, fault_of, status_of};
use og_io::{Files, Sink, Source};
use og_output::put_fault;
use og_par::{Gate, OpenGate};
use og_progress::{Progress, Unwatched};
use std::alloc::Global;
use std::thread::Threads;

/// How a run ended.
#[derive(Debug, Drop)]
pub struct Ended {
    /// The exit status.
    pub status: u8,
    /// What stopped the run, if it did not come to its end.
    pub end: Result<(), Stop>,
    /// The bytes of the source, where the command is `run` and they were read.
    pub script: Vec<u8>,
}

/// Runs the command that the words are over a database without names: `run` reads the source to its
/// end as a script, `at` and `load` have a script of their own (docs/LANGUAGE.md, "Words"). The statements
/// are carried out in order, and what they print is written, each PRINT as of its own day. The work of a
/// statement is shared out among as many workers as the words ask for.
///
/// Gives the exit status: 0 all statements ran; 2 the words are no command; 3 the script is too long, has
/// no tokens, or a statement of it is none of the grammar; 4 the names, kinds or counts of a statement do not
/// fit; 5 a file is not there or has a fault; 6 the source failed; 7 the files failed; 8 the sink failed;
/// 9 memory ran out. On 2, 3, 4 and 5 the last line of the output names the fault (docs/LANGUAGE.md,
/// "Faults"); on 4 and 5 the statements before it were carried out.
pub fn run<H: Threads + Sync, S: Source, K: Sink, F: Files>(
    rt: &H,
    alloc: Global,
    words: &Words,
    src: &mut S,
    out: &mut K,
    files: &mut F,
    db: &mut Db,
) -> u8
    requires empty { db.old ≡ [] }
    requires not_ended { IsRun words.now → S.ended src.old ≡ false }
    ensures headline { Headline (record {
      words = words.now;
      left = S.left src.old;
      left_after = S.left src.new;
      read_faults = S.faults src.old;
      read_faults_after = S.faults src.new;
      written = K.written out.old;
      written_after = K.written out.new;
      write_faults = K.faults out.old;
      write_faults_after = K.faults out.new;
      folder = F.folder files.old;
      folder_after = F.folder files.new;
      file_faults = F.faults files.old;
      file_faults_after = F.faults files.new;
      absences = F.absences files.old;
      absences_after = F.absences files.new;
      file_calls = F.calls files.old;
      file_calls_after = F.calls files.new;
      db = db.new;
      status = result;
    }) }
    ensures untouched { ¬ IsRun words.now → src.new ≡ src.old }
{
    run_gated(rt, alloc, words, src, out, files, db, &OpenGate)
}

/// The same, where each worker enters the gate at each of its parts.
pub fn run_gated<H: Threads + Sync, S: Source, K: Sink, F: Files, G: Gate + Sync>(
    rt: &H,
    alloc: Global,
    words: &Words,
    src: &mut S,
    out: &mut K,
    files: &mut F,
    db: &mut Db,
    gate: &G,
) -> u8
    requires empty { db.old ≡ [] }
    requires not_ended { IsRun words.now → S.ended src.old ≡ false }
    ensures headline { Headline (record {
      words = words.now;
      left = S.left src.old;
      left_after = S.left src.new;
      read_faults = S.faults src.old;
      read_faults_after = S.faults src.new;
      written = K.written out.old;
      written_after = K.written out.new;
      write_faults = K.faults out.old;
      write_faults_after = K.faults out.new;
      folder = F.folder files.old;
      folder_after = F.folder files.new;
      file_faults = F.faults files.old;
      file_faults_after = F.faults files.new;
      absences = F.absences files.old;
      absences_after = F.absences files.new;
      file_calls = F.calls files.old;
      file_calls_after = F.calls files.new;
      db = db.new;
      status = result;
    }) }
    ensures untouched { ¬ IsRun words.now → src.new ≡ src.old }
{
    let gate = Unwatched::new(gate);
    run_located(rt, alloc, words, src, out, files, db, &gate).status
}

/// The same, with what stopped the run and the bytes of its script. The gate is also told how far the run is.
pub fn run_located<H: Threads + Sync, S: Source, K: Sink, F: Files, G: Gate + Progress + Sync>(
    rt: &H,
    alloc: Global,
    words: &Words,
    src: &mut S,
    out: &mut K,
    files: &mut F,
    db: &mut Db,
    gate: &G,
) -> Ended
    requires empty { db.old ≡ [] }
    requires not_ended { IsRun words.now → S.ended src.old ≡ false }
    ensures headline { Headline (record {
      words = words.now;
      left = S.left src.old;
      left_after = S.left src.new;
      read_faults = S.faults src.old;
      read_faults_after = S.faults src.new;
      written = K.written out.old;
      written_after = K.written out.new;
      write_faults = K.faults out.old;
      write_faults_after = K.faults out.new;
      folder = F.folder files.old;
      folder_after = F.folder files.new;
      file_faults = F.faults files.old;
      file_faults_after = F.faults files.new;
      absences = F.absences files.old;
      absences_after = F.absences files.new;
      file_calls = F.calls files.old;
      file_calls_after = F.calls files.new;
      db = db.new;
      status = result.status;
    }) }
    ensures untouched { ¬ IsRun words.now → src.new ≡ src.old }
    ensures end { result.status ≡ status_of result.end }
    ensures fault { (source : List ℕ) (start : Folder) (run : Run) → IsRun words.now → S.left src.old ≡ Some source → F.folder files.old ≡ Some start → IsDefinedRun words.now source start run →
        IsEndedBy source run result }
    ensures no_script { ¬ IsRun words.now → result.script.items ≡ [] }
{
    one_defined_run();
    let mut script = Vec::new(alloc);
    let end = run_to_end(rt, alloc, words, src, out, files, db, gate, &mut script);
    let status = status_of(&end);
    Ended {
        status,
        end,
        script,
    }
}

// Carries out the command, and writes the line of its fault, if it has one.
fn run_to_end<H: Threads + Sync, S: Source, K: Sink, F: Files, G: Gate + Progress + Sync>(
    rt: &H,
    alloc: Global,
    words: &Words,
    src: &mut S,
    out: &mut K,
    files: &mut F,
    db: &mut Db,
    gate: &G,
    script: &mut Vec<u8>,
) -> Result<(), Stop>
    requires empty { db.old ≡ [] }
    requires not_ended { IsRun words.now → S.ended src.old ≡ false }
    ensures told { (source : List ℕ) (start : Folder) (run : Run) → (IsRun words.now → S.left src.old ≡ Some source) → F.folder files.old ≡ Some start → IsDefinedRun words.now source start run →
        (text : List ℕ) × Appends (K.written out.old) (K.written out.new) text × Ends run start db.new (F.folder files.new) text result }
    ensures drained { (source : List ℕ) → IsRun words.now → S.left src.old ≡ Some source → OnOk result (S.left src.new ≡ Some []) }
    ensures untouched { ¬ IsRun words.now → src.new ≡ src.old }
    ensures ended { IsEndOf words.now (S.left src.old) result }
    ensures before { EndsWith (2 ∷ 3 ∷ 6 ∷ []) result → (db.new ≡ []) × (files.new ≡ files.old) }
    ensures reads { IsFaultCount (is_read_fault result) (S.faults src.old) (S.faults src.new) }
    ensures files { IsFaultCount (is_file_fault result) (F.faults files.old) (F.faults files.new) }
    ensures writes { IsFaultCount (is_write_fault result) (K.faults out.old) (K.faults out.new) }
    ensures grown { HasGrown (K.written out.old) (K.written out.new) }
    ensures absences { IsAbsenceCount result (F.absences files.old) (F.absences files.new) }
    ensures asked { (source : List ℕ) (start : Folder) (run : Run) → (IsRun words.now → S.left src.old ≡ Some source) → F.folder files.old ≡ Some start → IsDefinedRun words.now source start run →
        RunAsks run start db.new (F.folder files.new) (F.calls files.old) (F.calls files.new) result }
    ensures taken { TakesAtMost (max_source + max_part) (S.left src.old) (S.left src.new) }
    ensures kept { (source : List ℕ) → IsRun words.now → S.left src.old ≡ Some source → IfErr result (IsKeptAt source script.new.items) }
    ensures none_kept { ¬ IsRun words.now → script.new.items ≡ script.old.items }
{
    let end = carry_out(rt, alloc, words, src, out, files, db, gate, script);
    let Some(fault) = fault_of(&end) else {
        return end;
    };
    if let Err(refusal) = put_fault(alloc, fault, out) {
        drop(end);
        return Err(Stop::from(refusal));
    }
    end
}
