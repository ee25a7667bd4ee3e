//! Live results as tables that triggers keep in step with the tables of their queries.
//!
//! A live table has the rows of its query with their days, equal rows as one. After each statement that changes a table of
//! FROM its trigger asks each SELECT of the query for what it has by the changed rows alone, in the place of that table.
//! What it has by new rows is added. What it had by lost rows gives way to what the SELECTs still have of it, asked over the
//! rows of the tables alone that it can be made of.
#![tactic(auto)]

mod changes;
mod function;
mod indexes;
mod live;
mod near;
mod places;
mod rows;

pub use live::{put_live_end, put_live_table};
