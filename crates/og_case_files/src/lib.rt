//! Files of cases: scripts with what a run of each must write, as texts (docs/CASES.md).
//!
//! A `Book` takes the text of one file after the other, line by line, and has the cases and the setups with which
//! cases may begin. A line that is none of such a file is refused with its number. The crate promises no more than
//! that it is safe and ends.
#![tactic(auto)]

mod case;
mod case_file;
mod file;
mod line;
mod piece;
mod reckoning;
mod refusal;

pub use case::{Case, Setup};
pub use case_file::{After, CaseFile, is_named};
pub use file::{Book, Refused};
pub use refusal::Refusal;
