//! What few rows have in their columns, so that the other rows of tables and results are told from these at once.
//!
//! A `Sieve` is what stands in the columns of some rows (`Keys`), as tests that a row passes where what it has
//! in each tested column is among these (specs/Sieves.antt). `shared` asks of a column what is asked of those
//! that a condition says are equal to it. A `Stored` is a relation, and beside it the numbers that its rows have
//! in columns, by which a test (`NumberTest`) tells most rows without a look at them: `places` and `found` look rows
//! up, `others` copies rows but for some places, and `take_out` takes rows out by their places and lets new ones
//! come there. `keep_columns` has more columns beside the rows than the first.
//! Nothing here knows of views or of joins.
//!
//! No tests here: scripts reach it, so the cases test it (docs/CASES.md).
#![tactic(auto)]

mod columns;
mod number_test;
mod numbers;
mod range_test;
mod same;
mod sieve;
mod stored;

pub use number_test::{EachRow, NumberTest};
pub use same::shared;
pub use sieve::{Keys, Sieve, Test, add_test, keys_of};
pub use stored::{Found, Stored};
