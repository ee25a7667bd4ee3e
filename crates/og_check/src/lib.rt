//! The checks of statements: names, kinds and counts.
//!
//! `check` gives exactly the typed statement, or exactly the first fault in the order of the
//! checks, as `checked` says (specs/Statements.antt, over Cores.antt, Expressions.antt and
//! Sight.antt, a line for each check), or is refused for want of memory. `check_owned` gives the
//! same of a statement that is not used again, and copies no row. Both look at what a `Catalog`
//! tells of names and columns, and at no row of a table. `checked_fits` says that a statement
//! without a fault fits the names and kinds that it names (`IsFit` of og_query), which og_db asks
//! for, `found_columns` which column a name in an expression stands for (specs/Columns.antt), and
//! `faults_are_told` that want of memory is no fault of a statement.
//!
//! No tests here: scripts reach it, so the cases test it (docs/CASES.md).
#![tactic(auto)]

mod changes;
mod checker;
mod columns;
mod conditions;
mod cores;
mod expressions;
mod hits;
mod kinds;
mod laws;
mod limits;
mod names;
mod queries;
mod refusal;
mod sight;
mod tables;

pub use checker::{check, check_owned};
pub use laws::{checked_fits, faults_are_told, found_columns};
pub use limits::MAX_TABLES;
pub use refusal::CheckRefusal;
