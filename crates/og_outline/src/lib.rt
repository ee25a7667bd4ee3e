//! What is known of the names and the saved files of a script before each of its statements, without rows.
//!
//! An `Outline` has the names in the order of creation, each with what it is and its columns, a live result also with its
//! query, and the columns of each file that was saved. `apply`, `save` and `open` make of it what a statement makes of
//! these (`outlined_after` and the others in specs/Outlines.antt). The laws say that it then is the outline of the
//! statements and of that one more (`IsOutlineOf`), as og_db defines what statements do. An `Outline` is a `Catalog` of
//! og_value, so statements are checked over it as over a database.
#![tactic(auto)]

mod known;
mod laws;
mod outline;

pub use laws::{known_outline, no_outline, one_file_in_outline, one_statement_in_outline};
pub use outline::{Outline, SavedFile};
