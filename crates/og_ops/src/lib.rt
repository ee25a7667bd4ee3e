//! Operators on relations: on every day the plain operator on the rows of that day.
//!
//! `apply` of the traits `UnaryOp` and `BinaryOp` has as its law what an operator is on the set of
//! the rows of one day, and gives no more rows than it says: `Select`, `Restrict`, `Project`,
//! `Split`, `Product`, `Union`, `Difference` and `Intersection` (specs/Plain.antt). `apply_by_workers` of those
//! that queries take gives the same, made by several workers. `semijoin`
//! keeps a row of the left on exactly those of its days on which it meets some row of the right, or
//! none, by a `Matching` (specs/Wanted.antt). `test_pair` glues two rows on
//! exactly the days on which both are present and a condition holds of the glued row (specs/Days.antt);
//! `test_pair_with` makes of them what a `PairMap` says. All of it holds for every type of rows that has
//! the laws of og_base.
//!
//! No tests here: scripts reach it, so the cases test it (docs/CASES.md).
#![tactic(auto)]

mod each_row;
mod matching;
mod operator;
mod pair;
mod product;
mod project;
mod puts;
mod semijoins;
mod sets;
mod sift;
mod split;

pub use matching::{Equality, Glued, Matching};
pub use operator::{BinaryOp, UnaryOp};
pub use pair::{Hit, PairMap, Whole, test_pair, test_pair_with};
pub use product::Product;
pub use project::Project;
pub use semijoins::{KeyedRow, semijoin, semijoin_by_workers, with_key};
pub use sets::{Difference, Intersection, Union};
pub use sift::{Restrict, Select};
pub use split::Split;
