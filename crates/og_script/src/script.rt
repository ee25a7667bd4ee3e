//! The script of a command.
ghost use Rattle.std.specs.Prelude.{◌≡◌, ◌≤◌, ◌+◌, [], ℕ, List, false, Some, IfOk, IfErr, length};
ghost use Rattle.std.specs.List.{All};
ghost use Rattle.og_par.specs.Limits.{max_workers};
ghost use Rattle.og_words.specs.Grammar.{IsCommand};
ghost use Rattle.og_words.specs.declared.command.Command.TheVariants as commands;
ghost use Rattle.og_faults.specs.Counts.{IsFaultCount, is_read_fault};
ghost use Rattle.og_io.specs.Sources.{max_part, TakesAtMost};
ghost use Rattle.og_script.specs.Commands.{asked};
ghost use Rattle.og_script.specs.Stops.{IsRunCommand, IsScriptStop, IsSourceOf, IsStopBefore};
ghost use Rattle.og_script.specs.LiveTexts.{IsLiveStmt};
ghost use Rattle.og_script.specs.Kept.{IsKeptAt};
ghost use Rattle.og_script.specs.Scripts.{IsScript, IsScriptOf, max_source};

use crate::commands::{at_statements, load_statements};
use crate::source::read_source;
use og_faults::Stop;
use og_io::Source;
use og_parse::{ScriptRefusal, parse_bytes};
use og_syntax::Stmt;
use og_words::Command;
use sqlite_items::Items;
use std::alloc::Global;

/// How many workers the command asks for.
pub fn workers_of(command: &Command) -> usize
    requires { (words : List (List ℕ)) × IsCommand words command.now }
    ensures asked { result ≡ asked command.now }
    ensures least { 1 ≤ result }
    ensures most { result ≤ max_workers }
{
    match command {
        Command::Run { workers } => usize::from(*workers),
        Command::At { .. } => 1,
        Command::Load { workers, .. } => usize::from(*workers),
    }
}

/// The statements that the command runs: for `run` those of the source, which is read to its end, and whose bytes
/// are kept.
pub fn script_of<S: Source>(
    alloc: Global,
    command: Command,
    src: &mut S,
    kept: &mut Vec<u8>,
) -> Result<Items<Stmt>, Stop>
    requires command { (words : List (List ℕ)) × IsCommand words command }
    requires not_ended { IsRunCommand command → S.ended src.old ≡ false }
    ensures script { (source : List ℕ) → IsSourceOf command (S.left src.old) source → IfOk result (IsScriptOf command source) }
    ensures live { IfOk result (All IsLiveStmt) }
    ensures stopped { (source : List ℕ) → IsSourceOf command (S.left src.old) source → IfErr result (IsScriptStop source) }
    ensures stops { IfErr result (IsStopBefore command) }
    ensures drained { (source : List ℕ) → IsRunCommand command → S.left src.old ≡ Some source → IfOk result (λ _. S.left src.new ≡ Some []) }
    ensures untouched { ¬ IsRunCommand command → src.new ≡ src.old }
    ensures taken { TakesAtMost (max_source + max_part) (S.left src.old) (S.left src.new) }
    ensures kept { (source : List ℕ) → IsRunCommand command → S.left src.old ≡ Some source → IfOk result (λ _. kept.new.items ≡ source) }
    ensures kept_at { (source : List ℕ) → IsRunCommand command → S.left src.old ≡ Some source → IfErr result (IsKeptAt source kept.new.items) }
    ensures none_kept { ¬ IsRunCommand command → kept.new ≡ kept.old }
    ensures reads { IsFaultCount (is_read_fault result) (S.faults src.old) (S.faults src.new) }
{
    match command {
        Command::Run { .. } => read_script(alloc, src, kept),
        Command::At { file, day } => Ok(at_statements(alloc, file, day)?),
        Command::Load { rows, .. } => Ok(load_statements(alloc, rows)?),
    }
}

// The statements of the source, which is read to its end.
#[tactic(auto, using(crate::proofs::KeptLemmas::kept_unread, crate::proofs::KeptLemmas::kept_whole))]
fn read_script<S: Source>(
    alloc: Global,
    src: &mut S,
    kept: &mut Vec<u8>,
) -> Result<Items<Stmt>, Stop>
    requires not_ended { S.ended src.old ≡ false }
    ensures script { (source : List ℕ) → S.left src.old ≡ Some source → IfOk result (IsScript source) }
    ensures live { IfOk result (All IsLiveStmt) }
    ensures stopped { (source : List ℕ) → S.left src.old ≡ Some source → IfErr result (IsScriptStop source) }
    ensures stops { (workers : ℕ) → IfErr result (IsStopBefore (commands.Run workers)) }
    ensures drained { (source : List ℕ) → S.left src.old ≡ Some source → IfOk result (λ _. S.left src.new ≡ Some []) }
    ensures taken { TakesAtMost (max_source + max_part) (S.left src.old) (S.left src.new) }
    ensures kept { (source : List ℕ) → S.left src.old ≡ Some source → IfOk result (λ _. kept.new.items ≡ source) }
    ensures kept_at { (source : List ℕ) → S.left src.old ≡ Some source → IfErr result (IsKeptAt source kept.new.items) }
    ensures reads { IsFaultCount (is_read_fault result) (S.faults src.old) (S.faults src.new) }
{
    *kept = read_source(alloc, src)?;
    tree_of(alloc, kept.as_slice())
}

// The statements of the bytes.
fn tree_of(alloc: Global, bytes: &[u8]) -> Result<Items<Stmt>, Stop>
    requires { length bytes.now ≤ max_source }
    ensures script { IfOk result (IsScript bytes.now) }
    ensures live { IfOk result (All IsLiveStmt) }
    ensures stopped { IfErr result (IsScriptStop bytes.now) }
    ensures stops { (workers : ℕ) → IfErr result (IsStopBefore (commands.Run workers)) }
    ensures read { is_read_fault result ≡ false }
{
    match parse_bytes(alloc, bytes) {
        Ok(script) => Ok(script.stmts),
        Err(ScriptRefusal::Tokens { refusal }) => Err(Stop::from(refusal)),
        Err(ScriptRefusal::Statement { refusal }) => Err(Stop::from(refusal)),
        Err(ScriptRefusal::NoMemory) => Err(Stop::NoMemory),
    }
}
