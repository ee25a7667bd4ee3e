//! EXISTS and NOT EXISTS as operators: the rows of a relation that meet some row of another, or
//! none.
//!
//! Both are a `BinaryOp` of og_ops. `Semi` keeps, on every day, exactly the rows of the left for
//! which a condition holds of the row glued to some row of the right, or, where it is not positive,
//! those for which it holds of it glued to none (`is_wanted` of og_ops). `KeyedSemi` does so with a
//! `Matching`, which finds the right rows by their groups, and by several workers too. Each gives at most as many rows as the
//! left has.
//!
//! No tests here: scripts reach it, so the cases test it (docs/CASES.md).
#![tactic(auto)]

mod semi;

pub use semi::{KeyedSemi, Semi};
