//! The command line as clap sees it.
ghost use Rattle.std.specs.Prelude.{◌≡◌, IfOk, codes};
ghost use Rattle.clap.specs.Words.{app_of, new_app, with_rule};
ghost use Rattle.og_sql_words.specs.Shape.{explain, ongq_sql, option, plain};

use clap::{Arg, ArgAction, Command};
use std::alloc::{AllocError, Global};

/// The command line: a flag and three options. All values are strings.
pub fn sql_command<'a>(alloc: Global) -> Result<Command<'a>, AllocError>
    ensures { IfOk result (λ c. app_of c ≡ ongq_sql) }
{
    let one = with_explain(alloc)?;
    let two = with_option(alloc, one, "live")?;
    let three = with_option(alloc, two, "shard-by")?;
    with_option(alloc, three, "citus")
}

// A command line without the program's name, with the flag.
fn with_explain<'a>(alloc: Global) -> Result<Command<'a>, AllocError>
    ensures { IfOk result (λ c. app_of c ≡ with_rule (plain (new_app (codes "ongq-sql"))) explain) }
{
    let flag = Arg::new(alloc, "explain")
        .long("explain")
        .action(ArgAction::SetTrue);
    Command::new(alloc, "ongq-sql")
        .no_binary_name(true)
        .arg(flag)
}

// The command line with an option of that name more.
fn with_option<'a>(
    alloc: Global,
    command: Command<'a>,
    name: &'a str,
) -> Result<Command<'a>, AllocError>
    ensures { IfOk result (λ c. app_of c ≡ with_rule (app_of command.entry) (option name.now)) }
{
    let arg = Arg::new(alloc, name).long(name);
    command.arg(arg)
}
