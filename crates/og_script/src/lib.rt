//! The script of a command, as trees: that of the source for `run`, and for `at` and `load` one of their own.
//!
//! `script_of` gives the statements that a command runs, or why there are none: of the source, read to its end,
//! those that the two grammars give its bytes (specs/Scripts.antt), and else those of specs/Commands.antt. Each
//! LIVE among them has the query of a live result (specs/LiveTexts.antt). `workers_of` gives the number of workers
//! that the command asks for. What is kept of a source says where a fault of it stands (specs/Kept.antt). `turned` and
//! `into_vec` move the items of a tree out of it.
//!
//! No tests here: the cases run commands and scripts of each kind (docs/CASES.md).
#![tactic(auto)]

mod commands;
mod load;
mod moves;
mod script;
mod source;

pub use moves::{into_vec, turned};
pub use script::{script_of, workers_of};
pub use source::MAX_SOURCE;
