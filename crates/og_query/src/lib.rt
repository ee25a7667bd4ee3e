//! Typed statements, and what a query means on one day.
//!
//! `meaning`, `truth` and `ordinary_query` (specs/Expressions.antt, Conditions.antt, Queries.antt)
//! say what expressions, conditions and queries are over plain rows of one day, and `query_size`
//! (specs/Sizes.antt) how many rows an answer has at most. `ordinary` computes the rows of a query
//! whose literals are the same on all days. `IsFit` (specs/Fits.antt) says what a checked statement
//! promises. The laws: `answers_are_sets`, `answers_keep_the_size`, `fitting_values`,
//! `one_condition_after_the_other` and `tables_in_either_order`. `copy` of a tree equals its
//! source.
//!
//! No tests here: scripts reach the trees, so the cases test them; `ordinary` answers the queries of
//! the cases beside their plans (docs/CASES.md).
#![tactic(auto)]

mod algebra;
mod condition;
mod evaluator;
mod expression;
mod kept;
mod laws;
mod named;
mod query;
mod steady;
mod truths;
mod typed;
mod values;
mod walk;

pub use condition::Cond;
pub use evaluator::ordinary;
pub use expression::{Expr, copy_expressions};
pub use laws::{
    answers_are_sets, answers_keep_the_size, fitting_values, one_condition_after_the_other,
    tables_in_either_order,
};
pub use query::{Core, From1, Query, Rest, Semi};
pub use truths::allows;
pub use typed::{Assign, Typed};
