//! What stops a run: its faults, each with its line and its status, and the failures of devices and of memory.
//!
//! A `Fault` is of the words, of the script or of a statement. `Fault::line` gives the line that says so and
//! `Fault::status` the exit status; which these are stands in specs/Faults.antt. A `Stop` is a fault, a device that
//! failed, or want of memory: specs/Stops.antt has what each refusal of the crates below makes of a run, and
//! `status_of` the status with which it ends.
//!
//! No tests here: scripts reach all of it, so the cases test it (docs/CASES.md).
#![tactic(auto)]

mod fault;
mod lines;
mod stop;

pub use fault::Fault;
pub use lines::kind_word;
pub use stop::{Stop, fault_of, status_of};
