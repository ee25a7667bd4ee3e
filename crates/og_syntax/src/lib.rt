//! What a script says: its trees, and the grammar of expressions, conditions and queries.
//!
//! `literal`, `expression`, `condition` and `query` read the front of a list of lexemes by a
//! `Reading` of the script; each is a function of specs/Reader.antt. `readers_are_rules` says that
//! these functions are the rules of specs/Grammar.antt: what is read is by its rule, and what is by
//! a rule is read, as one tree, where no lexeme follows that goes on with it (specs/Follow.antt).
//! Strictly, the text after DATE, ONGOING and PERIOD has to be of its form; leniently, a number
//! stands for any text there (`Literals`). `copy` of a tree equals its source. What stands between
//! quotes is the content of the lexeme's bytes as og_lex has it (`IsContent` in specs/Spans.antt).
//! `more_parts` reads the parts of a list, of which a type of `Parts` says where one begins and how
//! it is read. `sort_of_word` and `word_of` go by the one list of the reserved words (`reserved` in
//! specs/Words.antt).
//!
//! No tests here: scripts reach it, so the cases test it (docs/CASES.md).
#![tactic(auto)]

mod conditions;
mod expressions;
mod items;
mod laws;
mod lexeme;
mod literals;
mod meaning;
mod parts;
mod queries;
mod reading;
mod refusal;
mod semis;
mod spelling;
mod step;
mod tables;
mod tree;
mod wheres;
mod words;

pub use conditions::condition;
pub use expressions::expression;
pub use laws::readers_are_rules;
pub use lexeme::{Lexeme, Sort};
pub use literals::literal;
pub use parts::{Parts, more_parts};
pub use queries::query;
pub use reading::{Literals, Reading};
pub use refusal::Refusal;
pub use spelling::{bytes_of, name, quoted, text};
pub use step::{after, expect, one, same_sort, sees, sort_at};
pub use tables::table_name;
pub use tree::{
    CondText, CoreText, ExprText, FromText, ItemText, ItemsText, QueryText, RestText, Script,
    SemiText, SetText, Stmt,
};
pub use words::{sort_of_word, word_of};
