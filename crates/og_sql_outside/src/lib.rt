//! Values that PostgreSQL cannot hold.
//!
//! PostgreSQL has no day before -004713-11-24 and no text with a byte 0. `outside_of` gives the first
//! such value of a statement, `rows_outside` that of the rows of a table file, and `rel_outside` that
//! of a relation and its days (specs/Outside.antt).
//!
//! No tests here: the contracts say each result.
#![tactic(auto)]

mod statements;
mod trees;
mod values;

pub use statements::outside_of;
pub use values::{Outside, rel_outside, rows_outside};
