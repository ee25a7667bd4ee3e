//! What statements write: records as csv writes them, how they are put into a sink, and how long they stay the same.
//!
//! `put_relation` puts the columns' names and the rows of a relation on a day as records (`layout` in
//! specs/Records.antt), by workers, block by block; `put_plan` puts the text of a query's plan and `put_fault` the
//! line of a fault; `names_text` and `range_text` make the records of TABLES and of VALID, which `put` takes as it
//! takes any bytes. Each puts all of its text, or a front of it where it is refused (specs/Puts.antt).
//! `layout_range` gives the longest range of days around a day on all of which the layout is that of the day.
//!
//! No tests here: the cases hold the bytes of each kind of statement (docs/CASES.md).
#![tactic(auto)]

mod blocks;
mod calendar;
mod fields;
mod freeze;
mod ordered;
mod puts;
mod range;
mod records;
mod rows;
mod sights;

pub use puts::{put, put_fault, put_plan, put_relation};
pub use range::layout_range;
pub use records::{names_text, range_text};
