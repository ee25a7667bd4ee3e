//! Cases tried: each script is run, and what it writes is compared with what its case says (docs/CASES.md).
//!
//! The crate promises no more than that it is safe and ends. What it finds of a run is a test, and no
//! proof. `carry_out` reads the files of cases that the words of a program name and runs them through the
//! top call, `run` of og_session, once or in many ways: over devices in memory, of which the files note what
//! is written to them. In many ways it also compares what `print_script` prints, and has the queries answered
//! by plans with several workers and by the plain evaluator. A large `load` is also run by two workers that have to be at
//! work at once. The program og_cases is this call and its files.
#![tactic(auto)]

mod answers;
mod ends;
mod failing;
mod meeting;
mod noted;
mod program;
mod queries;
mod report;
mod told;
mod trial;
mod ways;

pub use program::carry_out;
