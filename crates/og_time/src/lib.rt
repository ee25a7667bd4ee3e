//! Ongoing points and periods: days that are not fixed until a day is given.
//!
//! On each day a point `a+b` has the value `point_at` (specs/Point.antt), and a period the pair of
//! its ends, `period_at` (specs/Period.antt). On every day `least`, `greatest`, `common`, `start`
//! and `end` are the operations on fixed values (specs/FixedOperations.antt). `lt_days`, `le_days`
//! and `eq_days` are the days on which two points compare so; `contains` and the seven predicates
//! of `OngoingPeriod` give an `OngoingBool`, which is true on exactly the days on which they hold.
//! Texts are read exactly where they are such, with their value, and written as the one text of it
//! (`read_point`, `write_point`, `read_period`, `write_period`).
//!
//! No tests here: those of single texts stand in og_samples, and what scripts reach is tested by
//! the cases.
#![tactic(auto)]

mod cuts;
mod ends;
mod ongoing_bool;
mod period;
mod period_text;
mod point;
mod predicates;
mod text;
mod text_laws;

pub use ongoing_bool::OngoingBool;
pub use period::OngoingPeriod;
pub use period_text::{NotAPeriod, one_text_a_period, read_period, write_period};
pub use point::OngoingPoint;
pub use text::{NotAPoint, one_text_a_point, read_point, write_point};
pub use text_laws::old_texts;
