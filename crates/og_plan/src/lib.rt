//! Plans of queries: how an answer is made, by the text of the query alone.
//!
//! `plan_of` gives exactly the plan of specs/PlanOf.antt. Over rows that fit their columns the plan
//! has on every day the rows of the query (`plan_rows` in specs/Meaning.antt); it has the size of
//! the query (specs/Sizes.antt), is made as og_exec asks (`is_sound` in specs/Shapes.antt), and
//! names the tables of the query. What it asks of a query, each query that fits has
//! (`fitting_queries`). `explain` gives exactly the text of a plan (specs/Text.antt), and `plan_lines`
//! its lines, each without the room that its level takes.
//!
//! No tests here: the cases test it, and have the texts of plans (docs/CASES.md).
#![tactic(auto)]

mod cores;
mod homes;
mod joins;
mod laws;
mod parts;
mod places;
mod plan;
mod text;
mod words;

pub use cores::plan_of;
pub use joins::across;
pub use laws::fitting_queries;
pub use plan::{ColPair, Plan, PlanSemi};
pub use text::{PlanLine, explain, plan_lines};
