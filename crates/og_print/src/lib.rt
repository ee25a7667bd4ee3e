//! Scripts written as bytes that are read as the same statements.
//!
//! `print_script` takes the statements that some bytes have (`IsPrintable` in specs/Printed.antt)
//! and gives bytes that lex and parse to the same statements, or is refused for want of memory. The
//! bytes have one form (`IsPrinted`), and are those of the words that the other definitions give the
//! statements (`script_text`), in specs/Words.antt and the files that are named for the trees.
//!
//! No tests here: each case that has statements is run once more as `print_script` prints it, and
//! the cases of printed.cases have the exact bytes (docs/CASES.md).
#![tactic(auto, using(crate::proofs::Texts::with_words_append))]

mod conditions;
mod expressions;
mod queries;
mod script;
mod statements;
mod words;

pub use script::print_script;
pub use statements::write_stmt;
