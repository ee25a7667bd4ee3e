//! Conditions and items of queries, on rows that depend on the day.
//!
//! `CondDays` and `PartDays` give exactly the days on which a condition, or all of some conditions,
//! are true of the row of that day (`truth` of og_query), and those of two rows glued, without
//! gluing them; a pair of which a condition may not hold has no such day. `RowBounds` tells of a row
//! alone whether a condition may hold of it (`may_hold`, specs/Bounds.antt), of most rows by the number in
//! one column, and `bounds_hold` says that it holds on no day where it may not. `value_on` and `ItemMap`
//! give the value and the row that are on every day those of the expressions on the row of that day
//! (`meaning` and `image` of og_query), and `row_of_pair` the latter of two rows glued. All of it holds also
//! where a tree does not fit the row. The laws of days are those of `DayCond` and `RowMap` of og_base.
//!
//! No tests here: scripts reach it, so the cases test it (docs/CASES.md).
#![tactic(auto)]

mod bounds;
mod column_test;
mod columns;
mod comparisons;
mod conditions;
mod items;
mod row_bounds;
mod values;

pub use conditions::{CondDays, PartDays};
pub use items::{ItemMap, row_of_pair};
pub use row_bounds::{RowBounds, bounds_hold};
pub use values::value_on;
