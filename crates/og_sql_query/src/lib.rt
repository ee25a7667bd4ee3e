//! Queries as SQL: the nodes of their plans as the parts of a WITH.
//!
//! Each node gives rows with their days in the column `days`, and leaves out rows without days. `put_query` appends a query
//! with these, `put_print_query` and `put_print_name` the records that a PRINT writes of a day. `put_select` appends the parts
//! of one SELECT, in which other rows may stand for its tables.
#![tactic(auto)]

mod combines;
mod joins;
mod node;
mod plans;
mod queries;
mod selects;
mod semis;
mod sides;

pub use node::{Count, Node, Source};
pub use queries::{
    put_fields, put_ordered_query, put_print_asked, put_print_name, put_print_query, put_query,
    put_values_at,
};
pub use selects::{plan_of_select, put_select, select_at};
pub use sides::{put_sides, put_sides_end};
