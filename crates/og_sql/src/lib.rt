//! Scripts as SQL for PostgreSQL 15 with the extension `ongoing`.
//!
//! `translate` reads a script and writes for each statement, under its text as a comment, the SQL that does the same. A
//! table has a column `days` with the days on which each row is there; a query is its plan, as og_sql_query writes it.
//! What psql writes for the SQL is what a run of the script writes: that is tested against PostgreSQL, and not proved.
#![tactic(auto)]

mod files;
mod indexes;
mod outside;
mod pieces;
mod reads;
mod spread;
mod statements;
mod step;
mod stop;
mod translation;

pub use outside::outside_report;
pub use stop::{OUTSIDE, SqlStop};
pub use translation::{Ended, translate};
