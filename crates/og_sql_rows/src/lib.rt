//! SQL of the rows of tables: what puts them in, changes them, takes them out, saves them, and asks how long they stay.
//!
//! A `Way` says where the rows of a table stand, by which column they are spread over servers. `put_insert`, `put_copy`
//! and `put_copy_of_days` put rows in, `put_update` and `put_delete` change them on some of their days, `put_save` writes
//! them to a file, and `put_valid` asks around which days a list of them stays the same. Nothing is promised of the SQL
//! but that it is made without a fault, or cut for want of memory: it is tested against PostgreSQL.
#![tactic(auto)]

mod changes;
mod copies;
mod saves;
mod valid;
mod ways;

pub use changes::{put_delete, put_insert, put_update};
pub use copies::{put_copy, put_copy_of_days};
pub use saves::put_save;
pub use valid::put_valid;
pub use ways::Way;
