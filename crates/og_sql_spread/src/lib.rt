//! Tables over many servers: where the rows of a plan are made, and the SQL that asks the nodes.
//!
//! A table that has the column by which tables are spread stands on the nodes, a part on each; what has no such column, and
//! each live result, stands on the coordinator. `part_of` says where the rows of a plan are made, and `put_why` in words what the
//! nodes send. The others append calls of the procedures that interop/postgres/shards sets up, and those of Citus.
#![tactic(auto)]

mod asked;
mod calls;
mod citus;
mod parts;
mod texts;
mod why;

pub use asked::{Asked, put_ask, put_forget, put_merged};
pub use calls::{put_count, put_gone, put_keep, put_make, put_run};
pub use citus::put_distribute;
pub use parts::{At, Part, key_of, part_of};
pub use why::{Why, put_why};
