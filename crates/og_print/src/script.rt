//! Whole scripts.
ghost use Rattle.std.specs.Prelude.{◌≡◌, OnOk, IfOk, List, ℕ};
ghost use Rattle.og_lex.specs.Grammar.{IsLexed};
ghost use Rattle.og_lex.specs.declared.token.Token.{Token};
ghost use Rattle.og_parse.specs.Script.{IsScript};
ghost use Rattle.og_print.specs.Printed.{IsPrintable, IsPrinted};
ghost use Rattle.og_print.specs.Statements as spec;

use crate::statements::write_stmt;
use og_base::NoMemory;
use og_parse::{Script, Stmt};
use sqlite_items::Items;
use std::alloc::Global;

/// Bytes that lex and parse to an equal script, in the one form of its trees: each reserved word in
/// upper case, each name in lower case and each number in decimal, with a line feed after each
/// semicolon, a space after each other token, and nothing else. Refused where memory runs out.
pub fn print_script(alloc: Global, script: &Script) -> Result<Vec<u8>, NoMemory>
    requires printable { IsPrintable script.now.stmts }
    ensures text { IfOk result (λ text. text.items ≡ spec.script_text script.now.stmts) }
    ensures form { IfOk result (λ text. IsPrinted text.items) }
    ensures again { IfOk result (λ text. (tokens : List Token) × IsLexed text.items tokens × IsScript text.items tokens script.now.stmts) }
{
    write_stmts(alloc, &script.stmts)
}

// The bytes of statements.
fn write_stmts(alloc: Global, stmts: &Items<Stmt>) -> Result<Vec<u8>, NoMemory>
    ensures { IfOk result (λ text. text.items ≡ spec.script_text stmts.now) }
{
    let mut out = Vec::new(alloc);
    'parts: for part in stmts.as_slice() {
        write_stmt(alloc, part, &mut out)?;
    }
    Ok(out)
}
