//! The command that clap's matches are.
ghost use Rattle.std.specs.Prelude.{◌≡◌, ℕ, Err, IfOk, IfSome, IfNone, Some, codes};
ghost use Rattle.clap.specs.Words.{first_of, found_of, rows_of, subcommand_rows_of};
ghost use Rattle.og_words.specs.Said.{IsAsked, IsSaid, Said, said, said_of};
ghost use Rattle.og_words.specs.declared.command.Command as commands;
ghost use Rattle.og_words.specs.declared.command.WordsRefusal.{WordsRefusal};

use crate::command::{Command, WordsRefusal};
use crate::number::number_of;
use clap::ArgMatches;
use og_base::read_ref_day;
use og_value::{Text, TextRefusal};
use std::alloc::Global;

/// The command that clap says the words are. `NoCommand` exactly where a value of it is none of the
/// grammar's.
pub fn command_of(alloc: Global, matches: &ArgMatches<'_>) -> Result<Command, WordsRefusal>
    ensures command { (s : Said) → said_of (subcommand_rows_of matches.now) ≡ Some s → IfOk result (IsSaid s) }
    ensures no_command { (s : Said) → said_of (subcommand_rows_of matches.now) ≡ Some s
        → result ≡ Err WordsRefusal.NoCommand → (c : commands.Command) → ¬ IsSaid s c }
{
    let Some((name, found)) = matches.subcommand() else {
        return Err(WordsRefusal::NoCommand);
    };
    match name {
        "run" => run_of(found).ok_or(WordsRefusal::NoCommand),
        "at" => at_of(alloc, found),
        "load" => load_of(found).ok_or(WordsRefusal::NoCommand),
        _ => Err(WordsRefusal::NoCommand),
    }
}

// The command by the values of `run`.
fn run_of(found: &ArgMatches<'_>) -> Option<Command>
    ensures command { IfSome result (IsSaid (said (codes "run") (rows_of (found_of found.now)))) }
    ensures lacking { IfNone result ((c : commands.Command) → ¬ IsSaid (said (codes "run") (rows_of (found_of found.now))) c) }
{
    let workers = workers_of(found)?;
    Some(Command::Run { workers })
}

// The command by the values of `at`.
fn at_of(alloc: Global, found: &ArgMatches<'_>) -> Result<Command, WordsRefusal>
    ensures command { IfOk result (IsSaid (said (codes "at") (rows_of (found_of found.now)))) }
    ensures no_command { result ≡ Err WordsRefusal.NoCommand → (c : commands.Command) → ¬ IsSaid (said (codes "at") (rows_of (found_of found.now))) c }
{
    let Some(file) = found.get_str("file") else {
        return Err(WordsRefusal::NoCommand);
    };
    let Some(day) = found.get_str("day") else {
        return Err(WordsRefusal::NoCommand);
    };
    let Ok(day) = read_ref_day(day.as_bytes()) else {
        return Err(WordsRefusal::NoCommand);
    };
    match Text::of(alloc, file.as_bytes()) {
        Ok(file) => Ok(Command::At { file, day }),
        Err(TextRefusal::NotText) => Err(WordsRefusal::NoCommand),
        Err(TextRefusal::NoMemory) => Err(WordsRefusal::NoMemory),
    }
}

// The command by the values of `load`.
fn load_of(found: &ArgMatches<'_>) -> Option<Command>
    ensures command { IfSome result (IsSaid (said (codes "load") (rows_of (found_of found.now)))) }
    ensures lacking { IfNone result ((c : commands.Command) → ¬ IsSaid (said (codes "load") (rows_of (found_of found.now))) c) }
{
    let rows = number_of(found.get_str("rows")?, 6, 200_000)?;
    let workers = workers_of(found)?;
    Some(Command::Load { rows, workers })
}

// The workers that the option asks for, or 1 where it is not given.
fn workers_of(found: &ArgMatches<'_>) -> Option<u8>
    ensures workers { IfSome result (IsAsked (first_of (codes "workers") (rows_of (found_of found.now)))) }
    ensures lacking { IfNone result ((n : ℕ) → ¬ IsAsked (first_of (codes "workers") (rows_of (found_of found.now))) n) }
{
    let Some(value) = found.get_str("workers") else {
        return Some(1);
    };
    let workers = number_of(value, 2, 64)?;
    Some(workers as u8)
}
