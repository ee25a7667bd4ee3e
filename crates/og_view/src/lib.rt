//! Views: queries that are kept answered while the tables that they name change.
//!
//! A `View` is seen as its query, its result, and what this is to be next (`Seen` in specs/Views.antt). It holds no
//! tables: these are lent to its calls, and over them the result is the answer of the query (`IsAnswerOver`): on every
//! day it has the rows of the query over the tables of that day, and no more than its size. `follow` makes what the
//! result is to be once a delta of og_db is in its table, and leaves the result as it is; `put` puts it without taking
//! memory. So a statement lets all views follow before it changes its table, and where one is refused all `undo`.
//!
//! `follow` asks each core for the rows that it has by new rows, at one place of FROM after the other
//! (specs/Placed.antt), over the other tables, which are narrowed first to what can stand beside these rows. For rows
//! that are gone it asks so for the rows that the cores had by them. Such a row may have come from others too: so the
//! rows of the result that may be like one of them (`Sieve` of og_reduce) go, and those come again that the cores still
//! have, derived over the rows of the tables alone that they can be made of (specs/Again.antt). The query is asked anew
//! only where the rows would be more than its size.
//!
//! No tests here: scripts reach it, so the cases test it (docs/CASES.md).
#![tactic(auto)]

mod asked;
mod change;
mod delta_rows;
mod narrowed;
mod part;
mod placed;
mod put;
mod rederived;
mod sizes;
mod table_delta;
mod used;
mod view;

pub use used::uses;
pub use view::View;
