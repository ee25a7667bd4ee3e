//! The execution of plans: the answer of a plan on all days at once.
//!
//! `exec` takes a plan that is made well (`is_sound` of og_plan) and tables that are there
//! (`AreThere` in specs/Tables.antt). On every day, and for 1 to 64 workers, its relation has
//! exactly the rows that the plan means over the tables of that day (`plan_rows` of og_plan), and
//! it has at most as many rows as the size of the plan says. Which rows a join tries, and that the
//! items of a projection on it are evaluated on its pairs of rows, is no part of the contract.
//!
//! No tests here: scripts reach it, so the cases test it; their queries are answered by 1, 2 and 64
//! workers too (docs/CASES.md).
#![tactic(auto)]

mod answer;
mod combine;
mod images;
mod key_rest;
mod keys;
mod nodes;
mod overlaps;
mod run;
mod semi_keys;
mod semis;
mod spans;
mod widths;

pub use run::exec;
