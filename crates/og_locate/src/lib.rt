//! Where in a script a fault stands: the statement, the token, the line and the column.
//!
//! All of it is a walk after the fault: no reader and no refusal depends on it. `piece_at` gives the lexemes of a
//! statement by its number (specs/Pieces.antt). `spot_of` finds how far the lexemes are a front of some statement, and
//! what can follow them there: a walk over a table of the grammar looks for it, and the reader of og_parse has to agree
//! (specs/Fronts.antt). `first_bad` finds the first literal that is no text of its kind (specs/BadTexts.antt), `first_named`
//! the first lexeme that is a name (specs/Named.antt), and `deep_at` the one from which on a statement is too deep
//! (specs/Deep.antt). `position_of` gives the line and the column of a place (specs/Positions.antt).
//!
//! No tests here: scripts reach it, so the cases test it (docs/CASES.md).
#![tactic(auto)]

mod bad;
mod deep;
mod grammar;
mod named;
mod numbered;
mod position;
mod spot;
mod walk;

pub use bad::first_bad;
pub use deep::deep_at;
pub use named::first_named;
pub use numbered::piece_at;
pub use position::{Position, line_start, position_of};
pub use spot::{Spot, spot_of};
