//! How long the list of a relation's rows stays as it is on a day.
//!
//! `same_days` gives exactly the days on which `at` of `Rel` has the list that it has on the day, and
//! `valid_range` the longest range of such days around it (`IsLongest` in specs/Same.antt), for any rows
//! that have the laws of og_base. A `Freezer` makes of a row the one that is on every day what that row is
//! on the day.
//!
//! No tests here: scripts reach it, so the cases test it (docs/CASES.md).
#![tactic(auto)]

mod around;
mod days;
mod freezer;
mod range;
mod same;
mod steady;

pub use freezer::Freezer;
pub use range::valid_range;
pub use same::same_days;
