//! Named relations: tables that statements change, results that were kept, and the names of live results.
//!
//! A `Db` is its names in the order of creation, each with what it is, its columns and a relation
//! whose rows fit them. What INSERT, DELETE, UPDATE and IMPORT make of a table is a `Delta` (specs/Deltas.antt), found in
//! one pass over its rows: which rows it touches, what is left of these, what is gone of them, and what is new.
//! `apply` puts it into the table, which then is on every day what the ordinary statement makes of the rows of that
//! day, with no more rows than its size (specs/Statements.antt); so are `create`, `keep` and `drop_name`. Where they
//! are refused nothing has changed. `keep` is given its rows: `Db` asks no query. So a live result has a name here
//! and no rows: `live` adds it, `settle` makes it a kept result, and `drop_live` takes all of them out; what becomes
//! of live results at a statement stands in specs/Live.antt. What statements on files make of a database and
//! of the files that are saved stands in specs/Effects.antt; the laws say what a list of statements comes
//! to (`IsWorldOf` in specs/Runs.antt). `Db` is a `Catalog` of og_value and a `Tables` of og_rel.
//!
//! No tests here: scripts reach it, so the cases test it (docs/CASES.md).
#![tactic(auto)]

mod assignments;
mod changes;
mod database;
mod delta;
mod deltas;
mod holding;
mod insertion;
mod laws;
mod sought;
mod touched;

pub use database::Db;
pub use delta::Delta;
pub use deltas::{delta_of_delete, delta_of_insert, delta_of_update};
pub use laws::{
    fitting_rows, found_names, known_names, no_statements, one_file_more, one_statement_more,
};
pub use sought::Sought;
