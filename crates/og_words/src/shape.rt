//! The command line as clap sees it.
ghost use Rattle.std.specs.Prelude.{◌≡◌, IfOk, false};
ghost use Rattle.clap.specs.Words.{App, app_of, with_subcommand as added};
ghost use Rattle.clap.specs.declared.builder.command.Command.{out-Command};
ghost use Rattle.og_words.specs.Shape.{ongq, run, at, load};

use clap::{Arg, Command};
use std::alloc::{AllocError, Global};

/// The command line: one of `run`, `at` and `load`. All values are strings.
pub fn ongq_command<'a>(alloc: Global) -> Result<Command<'a>, AllocError>
    ensures { IfOk result (λ c. app_of c ≡ ongq) }
{
    let plain = Command::new(alloc, "ongq")
        .no_binary_name(true)
        .subcommand_required(true);
    let one = with_subcommand(plain, run_command(alloc))?;
    let two = with_subcommand(one, at_command(alloc))?;
    with_subcommand(two, load_command(alloc))
}

// The command with one more below it, where that was made.
fn with_subcommand<'a>(
    command: Command<'a>,
    made: Result<Command<'a>, AllocError>,
) -> Result<Command<'a>, AllocError>
    ensures { (app : App) → IfOk made.entry (λ c. app_of c ≡ app) → IfOk made.entry (λ c. (out-Command c).has_globals ≡ false)
        → IfOk result (λ c. app_of c ≡ added (app_of command.entry) app.top) }
{
    let made = made?;
    command.subcommand(made)
}

// `run`, with the option.
fn run_command<'a>(alloc: Global) -> Result<Command<'a>, AllocError>
    ensures shape { IfOk result (λ c. app_of c ≡ run) }
    ensures local { IfOk result (λ c. (out-Command c).has_globals ≡ false) }
{
    let workers = Arg::new(alloc, "workers").long("workers");
    Command::new(alloc, "run").arg(workers)
}

// `at`, with a file and a day.
fn at_command<'a>(alloc: Global) -> Result<Command<'a>, AllocError>
    ensures shape { IfOk result (λ c. app_of c ≡ at) }
    ensures local { IfOk result (λ c. (out-Command c).has_globals ≡ false) }
{
    let file = Arg::new(alloc, "file").required(true);
    let one = Command::new(alloc, "at").arg(file)?;
    let day = Arg::new(alloc, "day").required(true);
    one.arg(day)
}

// `load`, with a number of rows and the option.
fn load_command<'a>(alloc: Global) -> Result<Command<'a>, AllocError>
    ensures shape { IfOk result (λ c. app_of c ≡ load) }
    ensures local { IfOk result (λ c. (out-Command c).has_globals ≡ false) }
{
    let rows = Arg::new(alloc, "rows").required(true);
    let one = Command::new(alloc, "load").arg(rows)?;
    let workers = Arg::new(alloc, "workers").long("workers");
    one.arg(workers)
}
