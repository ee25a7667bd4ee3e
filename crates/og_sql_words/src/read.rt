//! Reading the words.
ghost use Rattle.std.specs.Prelude.{◌≡◌, ◌≢◌, Err, IfOk, map};
ghost use Rattle.clap.specs.Words.{kind_of};
ghost use Rattle.og_sql_words.specs.Asked.{IsAsked, IsWrong};
ghost use Rattle.og_sql_words.specs.declared.asked.WordsRefusal.{WordsRefusal};

use crate::asked::{Asked, WordsRefusal};
use crate::matches::asked_of;
use crate::shape::sql_command;
use clap::Error;
use clap::error::ErrorKind;
use og_base::Words;
use std::alloc::{AllocError, Global};

/// What the words ask for: the SQL for a target, or help. `WrongWords` only where they are none of the program's.
pub fn read_words(alloc: Global, words: &Words) -> Result<Asked, WordsRefusal>
    ensures asked { IfOk result (IsAsked words.now) }
    ensures wrong { result ≡ Err WordsRefusal.WrongWords → IsWrong words.now }
{
    let list = listed(alloc, words)?;
    ask_clap(alloc, list.as_slice())
}

// The words as texts.
fn listed<'a>(alloc: Global, words: &'a Words) -> Result<Vec<&'a str>, AllocError>
    ensures { IfOk result (λ list. map (λ w. w.now) list.items ≡ words.now) }
{
    let mut list = Vec::new(alloc);
    'words: for i in 0..words.len() {
        list.push(words.word(i))?;
    }
    Ok(list)
}

// What the words ask for, by clap's matches.
fn ask_clap<'a>(alloc: Global, words: &'a [&'a str]) -> Result<Asked, WordsRefusal>
    ensures asked { IfOk result (IsAsked (map (λ w. w.now) words.now)) }
    ensures wrong { result ≡ Err WordsRefusal.WrongWords → IsWrong (map (λ w. w.now) words.now) }
{
    let command = sql_command(alloc)?;
    match command.try_get_matches_from(words) {
        Ok(matches) => asked_of(alloc, &matches),
        Err(error) => asked_by(&error),
    }
}

// What clap says of words of which it gives no matches.
fn asked_by(error: &Error) -> Result<Asked, WordsRefusal>
    ensures asked { IfOk result (λ a. (a ≡ Asked.Help) × (kind_of error.now ≡ ErrorKind.DisplayHelp)) }
    ensures wrong { result ≡ Err WordsRefusal.WrongWords → (kind_of error.now ≢ ErrorKind.DisplayHelp) × (kind_of error.now ≢ ErrorKind.OutOfMemory) }
{
    match error.kind() {
        ErrorKind::DisplayHelp => Ok(Asked::Help),
        ErrorKind::OutOfMemory => Err(WordsRefusal::NoMemory),
        _ => Err(WordsRefusal::WrongWords),
    }
}
