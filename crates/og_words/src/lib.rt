//! The words of a command line, and the command that they are.
//!
//! `words_of` takes the words from the arguments that std gives a program, or says with which status
//! it ends. `read_words` gives exactly the command that the words are by the grammar of words
//! (`IsCommand` in specs/Grammar.antt), refuses them exactly where they are none, or runs out of
//! memory. It looks by itself at how many words there are, at the first, and for an empty one and
//! a `-` at the front (`are_asked` in specs/Shape.antt). The others are read by clap, and the command
//! comes from its matches, whose values have to be those of the grammar (specs/Said.antt).
//! `one_command` says that words are at most one command, and `command_or_none` that they are one or
//! none.
//!
//! No tests here: the cases test the call (docs/CASES.md).
#![tactic(auto)]

mod arguments;
mod asked;
mod command;
mod laws;
mod matches;
mod number;
mod read;
mod shape;

pub use arguments::{NO_MEMORY, NO_WORDS, words_of};
pub use command::{Command, WordsRefusal};
pub use laws::{command_or_none, one_command};
pub use read::read_words;
