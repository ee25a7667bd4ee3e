//! Texts of SQL: names, columns, values, expressions and conditions.
//!
//! `Sql` is a text as it is written. `Columns` are those of a row, each under a name of its own in SQL, and `Sight` those
//! before an expression. A condition on numbers and texts is a truth in
//! SQL, and any other the days on which it holds, in the functions of the extension `ongoing`.
#![tactic(auto)]

mod columns;
mod conditions;
mod dollars;
mod expressions;
mod identifiers;
mod parts;
mod quotes;
mod sight;
mod sql;

pub use columns::Columns;
pub use dollars::put_dollars;
pub use expressions::{put_expr, put_value};
pub use identifiers::{put_beside, put_table};
pub use parts::{has_days, has_key, outer_place, parts_in, put_outer, put_products, put_tests};
pub use quotes::{write_comment, write_quoted};
pub use sight::{Sight, is_steady_kind};
pub use sql::Sql;
