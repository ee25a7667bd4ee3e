//! The scripts of the commands `at` and `load`, as trees.
ghost use Rattle.std.specs.Prelude.{◌≡◌, ◌≤◌, IfOk};
ghost use Rattle.og_script.specs.Commands.{at_script, load_script};

use crate::load::{Side, answers, table, word};
use og_base::{NoMemory, RefDay};
use og_syntax::Stmt;
use og_value::Text;
use sqlite_items::Items;
use std::alloc::Global;

/// The statements of `at FILE DAY`: one opens the file, the other prints it as of the day.
#[tactic(auto, unfolding(crate::specs::Commands::at_script))]
pub fn at_statements(alloc: Global, file: Text, day: RefDay) -> Result<Items<Stmt>, NoMemory>
    ensures { IfOk result (λ stmts. stmts ≡ at_script file day) }
{
    let mut stmts = Items::new(alloc);
    let name = word(alloc, "r")?;
    stmts.push(Stmt::OpenFile { name, file })?;
    let name = word(alloc, "r")?;
    stmts.push(Stmt::PrintName { name, day })?;
    Ok(stmts)
}

/// The statements of `load N`: two tables of so many rows each, their join, and what it gives.
#[tactic(auto, unfolding(crate::specs::Commands::load_script))]
pub fn load_statements(alloc: Global, rows: u32) -> Result<Items<Stmt>, NoMemory>
    requires least { 1 ≤ rows }
    requires most { rows ≤ 200_000 }
    ensures { IfOk result (λ stmts. stmts ≡ load_script rows) }
{
    let mut stmts = table(alloc, Side::Lefts, rows)?;
    stmts.append(table(alloc, Side::Rights, rows)?)?;
    stmts.append(answers(alloc, rows)?)?;
    Ok(stmts)
}
