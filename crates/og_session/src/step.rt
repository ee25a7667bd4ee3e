//! One statement of a run.
ghost use Rattle.std.specs.Prelude.{◌≡◌, ◌∷◌, ℕ, List, Option, Ok, reverse};
ghost use Rattle.std.specs.Io.KnownBytes.{Appends};
ghost use Rattle.og_io.specs.Folders.{Folder};
ghost use Rattle.og_syntax.specs.declared.tree.Stmt.{Stmt};
ghost use Rattle.og_query.specs.Fits.{IsFit};
ghost use Rattle.og_db.specs.Effects.{Effect, on_names};
ghost use Rattle.og_db.specs.Held.{known_of};
ghost use Rattle.og_db.specs.Statements.{IsOfNames};
ghost use Rattle.og_faults.specs.Counts.{IsAbsenceCount, IsFaultCount, is_file_fault, is_write_fault};
ghost use Rattle.og_script.specs.LiveTexts.{IsLiveStmt};
ghost use Rattle.og_session.specs.Asked.{StepAsks};
ghost use Rattle.og_session.specs.Contents.{AreContents, Contents, effect_of, outcome, taken};
ghost use Rattle.og_session.specs.Ends.{IsHeldState, IsPutStop, IsStepStop, StepEnds};
ghost use Rattle.og_session.specs.Headline.{HasGrown};
ghost use Rattle.og_session.specs.Lives.{IsLiveTyped};

use crate::execute::execute;
use crate::files::{import, open, save};
use crate::names::Names;
use crate::pieces::put_piece;
use og_check::{check_owned, checked_fits};
use og_db::known_names;
use og_faults::Stop;
use og_io::{Files, Sink};
use og_par::{Crew, Gate};
use og_progress::Progress;
use og_query::Typed;
use og_syntax::Stmt;
use std::thread::Threads;

/// Takes the last of the statements that are left, in turned order, which has that number, counted from 1;
/// checks it, writes what it prints, and carries it out. Where it is stopped the tables, the kept
/// results and the files are as they were, but for a file that was to be written where the files failed, and a front of
/// what it prints was written.
pub fn step<H: Threads + Sync, K: Sink, F: Files, G: Gate + Progress + Sync>(
    crew: &Crew<'_, H, G>,
    number: usize,
    left: &mut Vec<Stmt>,
    out: &mut K,
    files: &mut F,
    names: &mut Names,
) -> Result<(), Stop>
    requires next { (stmt : Stmt) × (rest : List Stmt) × (reverse left.old.items ≡ stmt ∷ rest) × IsLiveStmt stmt }
    ensures ends { (stmt : Stmt) (rest : List Stmt) → reverse left.old.items ≡ stmt ∷ rest → (start : Folder) (contents : Contents) → AreContents start contents →
        (before : List Effect) → IsHeldState start before names.old (F.folder files.old) →
        (text : List ℕ) × Appends (K.written out.old) (K.written out.new) text × StepEnds start number before (outcome contents before stmt) names.new (F.folder files.new) text result }
    ensures left { (stmt : Stmt) (rest : List Stmt) → reverse left.old.items ≡ stmt ∷ rest → reverse left.new.items ≡ rest }
    ensures late { IsStepStop result }
    ensures files { IsFaultCount (is_file_fault result) (F.faults files.old) (F.faults files.new) }
    ensures writes { IsFaultCount (is_write_fault result) (K.faults out.old) (K.faults out.new) }
    ensures grown { HasGrown (K.written out.old) (K.written out.new) }
    ensures absences { IsAbsenceCount result (F.absences files.old) (F.absences files.new) }
    ensures asked { (stmt : Stmt) (rest : List Stmt) → reverse left.old.items ≡ stmt ∷ rest → (start : Folder) (contents : Contents) → AreContents start contents →
        (before : List Effect) → IsHeldState start before names.old (F.folder files.old) → StepAsks (outcome contents before stmt) result (F.calls files.old) (F.calls files.new) }
{
    let Some(stmt) = left.pop() else {
        unreachable!();
    };
    carried(crew, number, stmt, out, files, names)
}

// The same of a statement that was taken.
fn carried<H: Threads + Sync, K: Sink, F: Files, G: Gate + Progress + Sync>(
    crew: &Crew<'_, H, G>,
    number: usize,
    stmt: Stmt,
    out: &mut K,
    files: &mut F,
    names: &mut Names,
) -> Result<(), Stop>
    requires live { IsLiveStmt stmt }
    ensures ends { (start : Folder) (contents : Contents) → AreContents start contents → (before : List Effect) → IsHeldState start before names.old (F.folder files.old) →
        (text : List ℕ) × Appends (K.written out.old) (K.written out.new) text × StepEnds start number before (outcome contents before stmt) names.new (F.folder files.new) text result }
    ensures late { IsStepStop result }
    ensures files { IsFaultCount (is_file_fault result) (F.faults files.old) (F.faults files.new) }
    ensures writes { IsFaultCount (is_write_fault result) (K.faults out.old) (K.faults out.new) }
    ensures grown { HasGrown (K.written out.old) (K.written out.new) }
    ensures absences { IsAbsenceCount result (F.absences files.old) (F.absences files.new) }
    ensures asked { (start : Folder) (contents : Contents) → AreContents start contents → (before : List Effect) → IsHeldState start before names.old (F.folder files.old) →
        StepAsks (outcome contents before stmt) result (F.calls files.old) (F.calls files.new) }
{
    let alloc = crew.alloc();
    known_names();
    checked_fits();
    match check_owned(alloc, stmt, &*names) {
        Ok(typed) => done(crew, number, typed, out, files, names),
        Err(refusal) => Err(Stop::of_check(number, refusal)),
    }
}

// Carries out a statement that passed its checks, and writes what it prints.
fn done<H: Threads + Sync, K: Sink, F: Files, G: Gate + Progress + Sync>(
    crew: &Crew<'_, H, G>,
    number: usize,
    typed: Typed,
    out: &mut K,
    files: &mut F,
    names: &mut Names,
) -> Result<(), Stop>
    requires live { IsLiveTyped typed }
    requires fits { IsFit (known_of names.old.names) typed }
    ensures ends { (start : Folder) (contents : Contents) → AreContents start contents → (before : List Effect) → IsHeldState start before names.old (F.folder files.old) →
        (text : List ℕ) × Appends (K.written out.old) (K.written out.new) text × StepEnds start number before (taken (effect_of contents before typed)) names.new (F.folder files.new) text result }
    ensures late { IsStepStop result }
    ensures files { IsFaultCount (is_file_fault result) (F.faults files.old) (F.faults files.new) }
    ensures writes { IsFaultCount (is_write_fault result) (K.faults out.old) (K.faults out.new) }
    ensures grown { HasGrown (K.written out.old) (K.written out.new) }
    ensures absences { IsAbsenceCount result (F.absences files.old) (F.absences files.new) }
    ensures asked { (contents : Contents) (before : List Effect) → StepAsks (taken (effect_of contents before typed)) result (F.calls files.old) (F.calls files.new) }
{
    let alloc = crew.alloc();
    match typed {
        Typed::Save { name, file } => save(alloc, &name, &file, files, names, crew.gate()),
        Typed::OpenFile { name, file } => open(
            alloc,
            number,
            name,
            file,
            files,
            names,
            crew.gate(),
        ),
        Typed::ImportFile { name, file } => import(crew, number, &name, file, files, names),
        other => on_names(crew, other, out, names),
    }
}

// Writes what a statement prints that acts on names alone, and carries it out.
fn on_names<H: Threads + Sync, K: Sink, G: Gate + Sync>(
    crew: &Crew<'_, H, G>,
    typed: Typed,
    out: &mut K,
    names: &mut Names,
) -> Result<(), Stop>
    requires live { IsLiveTyped typed }
    requires fits { IsFit (known_of names.old.names) typed }
    ensures ends { (of : IsOfNames typed) (start : Folder) (n : ℕ) (before : List Effect) (folder : Option Folder) → IsHeldState start before names.old folder →
        (text : List ℕ) × Appends (K.written out.old) (K.written out.new) text × StepEnds start n before (Ok (on_names (typed, of))) names.new folder text result }
    ensures stops { IsPutStop result }
    ensures writes { IsFaultCount (is_write_fault result) (K.faults out.old) (K.faults out.new) }
    ensures grown { HasGrown (K.written out.old) (K.written out.new) }
{
    if let Err(refusal) = put_piece(crew, &typed, names, out) {
        drop(typed);
        return Err(Stop::from(refusal));
    }
    execute(crew, typed, names)?;
    Ok(())
}
