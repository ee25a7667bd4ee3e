//! Values, rows and schemas, their cells, and what a crate above must know of named tables.
//!
//! `Row` has the laws of the traits of og_base: it is on each day the list of its values on that day
//! (`row_at` in specs/Values.antt). Rows of one day, `FixedRow`, are in the order of
//! specs/Order.antt, which ties only rows that are the same (`order_of_rows`). A row of at most two
//! values takes no memory of its own (specs/Places.antt), and the number that stands first in a row
//! is told without a look at the others (`number`; specs/Heads.antt). Cells are read exactly where
//! they are such, with their value, and written as the one text of it (`read_cell`, `write_cell`,
//! `write_fixed`; specs/Cells.antt). A `Text` is UTF-8, a `Name` is a word in lower case, a `Schema`
//! has 1 to `MAX_COLUMNS` columns. The trait `Catalog` tells what each name stands for.
//!
//! No tests here: those of single cells and of rows stand in og_samples, and what scripts reach is
//! tested by the cases.
#![tactic(auto)]

mod catalog;
mod cell;
mod digests;
mod headed;
mod height;
mod kind;
mod listed;
mod measured;
mod name;
mod row;
mod schema;
mod short;
mod sight;
mod spelling;
mod term;
mod text;
mod value;

pub use catalog::Catalog;
pub use cell::{CellRefusal, one_text_a_cell, read_cell, write_cell, write_fixed};
pub use kind::{Kind, What};
pub use name::{Name, NameRefusal};
pub use row::{FixedRow, Row, order_of_rows};
pub use schema::{Column, MAX_COLUMNS, Schema};
pub use sight::{Sight, order_of_sights};
pub use term::{Cmp, Func, Pred, SetOp};
pub use text::{Text, TextRefusal};
pub use value::{FixedValue, Value};
