//! Days, sets of days and their texts, and the words that every crate above speaks in.
//!
//! A set of days, `RtSet`, holds a day after each of its operations exactly as that operation on
//! sets says (`holds_day` in specs/Ranges.antt), and is in one normal form. Texts of days and of
//! sets are read exactly where they are such, with their value, and written as the one text of it
//! (`read_day`, `write_day`, `read_rt`, `write_rt`; specs/Calendar.antt, specs/SetTexts.antt).
//! `rising` gives the members of a list in order, each once (`set_of` in specs/Set.antt). The
//! traits `Instant`, `OngoingRow`, `Grouped`, `Glue`, `DayCond`, `RowMap` and `Envelope` have as
//! laws what a crate above asks of rows, conditions, maps and spans.
//!
//! No tests here: those of single texts stand in og_samples, and what scripts reach is tested by
//! the cases.
#![tactic(auto)]

mod bytes;
mod comparison;
mod day;
mod memory;
mod range;
mod row;
mod rt_set;
mod set;
mod set_text;
mod text;
mod text_laws;
mod words;

pub use bytes::cut_at;
pub use comparison::{Envelope, Outer, Steps};
pub use day::{ExtDay, RefDay};
pub use memory::NoMemory;
pub use range::{Cut, DayRange, FixedPeriod};
pub use row::{DayCond, Glue, Grouped, Groups, Instant, OngoingRow, RowMap};
pub use rt_set::{RtSet, meet_cuts};
pub use set::rising;
pub use set_text::{RtRefusal, read_rt, write_rt};
pub use text::{NotADay, one_text_a_day, read_day, read_ref_day, write_day};
pub use text_laws::{a_day_text_or_none, form_of_day_texts, old_texts, one_text_a_set};
pub use words::Words;
