//! Reading the words.
ghost use Rattle.std.specs.Prelude.{◌≡◌, ◌≢◌, Err, IfOk, map, true};
ghost use Rattle.clap.specs.Words.{kind_of};
ghost use Rattle.og_words.specs.Grammar.{IsCommand};
ghost use Rattle.og_words.specs.Shape.{are_asked};
ghost use Rattle.og_words.specs.declared.command.Command as commands;
ghost use Rattle.og_words.specs.declared.command.WordsRefusal.{WordsRefusal};

use crate::asked::are_asked;
use crate::command::{Command, WordsRefusal};
use crate::matches::command_of;
use crate::shape::ongq_command;
use clap::Error;
use clap::error::ErrorKind;
use og_base::Words;
use std::alloc::{AllocError, Global};

/// The command that the words are by the grammar of words: `run`, `at` or `load` with what belongs
/// to it (specs/Grammar.antt). `NoCommand` exactly where they are none.
pub fn read_words(alloc: Global, words: &Words) -> Result<Command, WordsRefusal>
    ensures command { IfOk result (IsCommand words.now) }
    ensures no_command { result ≡ Err WordsRefusal.NoCommand → (c : commands.Command) → ¬ IsCommand words.now c }
{
    let list = listed(alloc, words)?;
    if !are_asked(list.as_slice()) {
        return Err(WordsRefusal::NoCommand);
    }
    ask_clap(alloc, list.as_slice())
}

// The words as texts.
fn listed<'a>(alloc: Global, words: &'a Words) -> Result<Vec<&'a str>, AllocError>
    ensures { IfOk result (λ list. map (λ w. w.now) list.items ≡ words.now) }
{
    let mut list = Vec::new(alloc);
    'words: for i in 0..words.len() {
        list.push(words.word(i))?;
    }
    Ok(list)
}

// The command that the words are, by clap's matches.
fn ask_clap<'a>(alloc: Global, words: &'a [&'a str]) -> Result<Command, WordsRefusal>
    requires { are_asked (map (λ w. w.now) words.now) ≡ true }
    ensures command { IfOk result (IsCommand (map (λ w. w.now) words.now)) }
    ensures no_command { result ≡ Err WordsRefusal.NoCommand → (c : commands.Command) → ¬ IsCommand (map (λ w. w.now) words.now) c }
{
    let command = ongq_command(alloc)?;
    match command.try_get_matches_from(words) {
        Ok(matches) => command_of(alloc, &matches),
        Err(error) => Err(refusal_of(&error)),
    }
}

// What an error of clap says of the words.
fn refusal_of(error: &Error) -> WordsRefusal
    ensures { result ≡ WordsRefusal.NoCommand → kind_of error.now ≢ ErrorKind.OutOfMemory }
{
    match error.kind() {
        ErrorKind::OutOfMemory => WordsRefusal::NoMemory,
        _ => WordsRefusal::NoCommand,
    }
}
