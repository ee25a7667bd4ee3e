//! How far a run is: who is told of it.
//!
//! No tests here: what is told changes nothing of a run, and the program shows it on terminals alone.
#![tactic(auto)]

mod progress;

pub use progress::{Progress, Unwatched};
