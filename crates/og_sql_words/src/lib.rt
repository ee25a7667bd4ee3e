//! The words of `ongq-sql`, and what SQL they ask for.
//!
//! `read_words` gives what is asked for: the SQL for a target, or help. What the words are is clap's answer about the
//! command line of specs/Shape.antt, and the target is that of its matches (specs/Asked.antt). Words are refused only
//! where clap refuses them, or where a value of theirs is none.
//!
//! No tests here: interop/test tries the program's words.
#![tactic(auto)]

mod asked;
mod matches;
mod read;
mod shape;
mod target;
mod usage;

pub use asked::{Asked, WordsRefusal};
pub use read::read_words;
pub use target::{ExplainForm, LiveForm, Spread, Target};
pub use usage::{HELP, USAGE};
