//! Runs of commands: the words, the source, the files and the database of a run in, the output, the
//! files and an exit status out.
//!
//! `run` carries the sentence of the README as its contract, `Headline` in specs/Headline.antt: its seven
//! clauses say that the status, the output, the database and the files are those of the defined run
//! (`IsDefinedRun` in specs/Runs.antt), or that a device failed or memory ran out after some first
//! statements. What a statement does after those before it, or why it is refused, is `outcome` in
//! specs/Contents.antt; what it writes stands in specs/Output.antt, where the range of VALID is the longest
//! (`valid_ranges`), its text in Records.antt of og_output, the lines of faults in Faults.antt of og_faults,
//! the scripts of `at` and `load` in Commands.antt of og_script. Of a source or of files that do not tell their
//! bytes it says far less (docs/PROOFS.md, "The headline").
//!
//! `run_located` is `run` with what stopped it and the bytes of the script (`IsEndedBy` in specs/Ended.antt).
//!
//! No tests here: the cases run it, each in many ways, and the gate runs the program over examples/ and
//! .ci/runs/.
#![tactic(auto)]

mod answer;
mod carry;
mod changes;
mod execute;
mod files;
mod follow;
mod law;
mod names;
mod pieces;
mod session;
mod settle;
mod step;
mod valid;

pub use law::{live_results, one_catalog, one_defined_run, valid_ranges};
pub use og_script::MAX_SOURCE;
pub use session::{Ended, run, run_gated, run_located};
