//! Scripts: the tree of each, or the first statement that has none.
//!
//! `parse` gives exactly the statements that the statement grammar gives the tokens of a script
//! (`IsScript` in specs/Script.antt, over specs/Statements.antt), or refuses with exactly the first
//! fault and the number of its statement (`IsFirstFault`): too deep (specs/Depth.antt), else no
//! statement, else one with a literal that is not of its form; or for want of memory. `parse_bytes`
//! gives the same of the bytes of a script (`IsScriptRefusal` in specs/Bytes.antt), of which it takes the
//! tokens of some statements at a time. `next_piece` gives the lexemes of one statement, `is_statement` says whether
//! lexemes are one, and `is_too_deep` whether they are too deep. The laws say that tokens have one list of statements or one first fault, not both (`one_tree`,
//! `tree_or_fault`), and that a strict statement is a lenient one (`strict_is_lenient`).
//!
//! No tests here: scripts reach it, so the cases test it (docs/CASES.md).
#![tactic(auto)]

mod answers;
mod assignments;
mod changes;
mod columns;
mod depth;
mod endings;
mod files;
mod laws;
mod lexemes;
mod parser;
mod piece;
mod refusal;
mod statement;
mod tuples;

pub use depth::{MAX_DEPTH, is_too_deep};
pub use laws::{one_tree, strict_is_lenient, tree_or_fault};
pub use lexemes::next_piece;
pub use og_syntax::{
    CondText, CoreText, ExprText, FromText, ItemText, ItemsText, QueryText, RestText, Script,
    SemiText, SetText, Stmt,
};
pub use parser::{parse, parse_bytes};
pub use piece::is_statement;
pub use refusal::{ParseRefusal, ScriptRefusal};
