//! Work on the items of a slice by several workers.
//!
//! `par_rows` gives for each item one list that its `Piece` allows for it, these lists one after
//! the other in the items' order, for every number of workers from 1 to `MAX_WORKERS` and every
//! `Gate` (`MadeOfEach` in specs/Phase.antt). Where a piece allows one list for each item, the whole
//! is one list for all workers and gates (`one_list_for_all_workers`). A gate is told of each chunk
//! of items and proves nothing. `par_handed` hands each item over to a worker, which may take it apart.
//!
//! No tests here: three of og_samples show the order of the items, and what no clause says: that a phase runs
//! in more than one thread, and that its gate is told of each chunk once, and of no more chunks.
#![tactic(auto)]

mod crew;
mod gate;
mod handed;
mod phase;
mod piece;

pub use crew::{Crew, MAX_WORKERS};
pub use gate::{Gate, OpenGate};
pub use handed::par_handed;
pub use phase::{followed, one_list_for_all_workers, par_rows};
pub use piece::Piece;
