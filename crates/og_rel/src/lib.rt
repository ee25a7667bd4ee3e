//! Relations: rows that are present on sets of days.
//!
//! A `Rel` is the list of its rows with their days, of which none has no day. On a day it is the
//! rising list of the rows that are present, each once (`relation_at` in specs/Relations.antt), which `at`
//! makes. `of` takes a list of rows, each with its days (`Pair`), as it lies in memory. `push` and `append`
//! add their rows or change nothing. `swap` and `rotate_left` move rows, `truncate` and `remove_at` take
//! rows out, all without memory. `pairs` lends them as they lie; who lists the rows of a day by several workers
//! takes `blocks_of`, `some_of`, `cuts_among`, `parts_of` and `put_together`. `passing` gives the rows that
//! pass a `RowTest` once more, and `copy` equals its source. specs/Algebra.antt has UNION, EXCEPT and
//! INTERSECT of sets of rows of one day. The trait `Tables` tells the relation of each name.
//!
//! No tests here: what is listed by several workers stands in og_samples, and what scripts reach is
//! tested by the cases.
#![tactic(auto)]

mod blocks;
mod cuts;
mod ordered;
mod pair;
mod places;
mod relation;
mod row_test;
mod shares;
mod tables;

pub use blocks::{LEAST, blocks_of};
pub use cuts::{cuts_among, parts_of, some_of};
pub use pair::Pair;
pub use places::remove_at;
pub use relation::Rel;
pub use row_test::RowTest;
pub use shares::put_together;
pub use tables::Tables;
