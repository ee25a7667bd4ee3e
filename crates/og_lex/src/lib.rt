//! The tokens of a script, and the places of its lexical faults.
//!
//! `lex` gives exactly the tokens that the token grammar gives the bytes (`IsLexed` in
//! specs/Grammar.antt), or refuses with exactly their first fault and its place (`IsFirstFault` in
//! specs/Faults.antt), or for want of memory; `lex_part` gives those of some statements, from any place
//! on (`Reads`). `text_of` gives the content of a text (`IsTextAt`), and `has_text` says where there is
//! one. The laws say that a script has one list of tokens or one first fault, not both (`one_list_a_script`,
//! `tokens_or_a_fault`), that each token is the longest at its place (`longest_token`), and where
//! tokens lie (`tokens_of_a_script`).
//!
//! No tests here: scripts reach it, so the cases test it (docs/CASES.md).
#![tactic(auto)]

mod front;
mod laws;
mod lexer;
mod numeral;
mod quote;
mod refusal;
mod run;
mod symbol;
mod token;

pub use laws::{longest_token, one_list_a_script, tokens_of_a_script, tokens_or_a_fault};
pub use lexer::{lex, lex_part};
pub use quote::{Unquoted, has_text, text_of};
pub use refusal::LexRefusal;
pub use symbol::Symbol;
pub use token::{Token, TokenKind};
