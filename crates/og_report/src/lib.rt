//! What standard error says of a run that did not come to its end.
//!
//! `report` gives the message for what stopped a run: of a fault its line and column, what is wrong in words, and the
//! line of the script with a mark below it; of any other end one line (docs/LANGUAGE.md, "Faults"). Where in the script a
//! fault stands is defined in specs/Marks.antt over og_locate, and how its message begins in specs/Reports.antt. The words and
//! the drawn line are in no clause. It is a walk after the fault, over the script, the names of the run and the bytes
//! that were read last (`Scene`): no device is asked.
//!
//! No tests here: the cases have the messages (docs/CASES.md).
#![tactic(auto)]

mod checks;
mod contents;
mod drawing;
mod expected;
mod finding;
mod message;
mod scene;
mod shown;
mod statement;

pub use message::report;
pub use scene::Scene;
