//! The words of a program's arguments.
ghost use Rattle.std.specs.Prelude.{◌≡◌, ◌≢◌, ◌↔◌, ◌++◌, Err, IfOk, OnOk, OnErr, IsErr, IsErrAnd, drop, map, string_bytes};
ghost use Rattle.std.specs.IoError.{error_kind};

use og_base::{NoMemory, Words};
use std::env::Args;
use std::io;
use std::io::ErrorKind;

/// The exit status where memory ran out for the words.
pub const NO_MEMORY: u8 = 9;

/// The exit status where the words could not be read for another cause.
pub const NO_WORDS: u8 = 10;

/// Adds the arguments after the first, which is the program's name, all of them, in order. Where that
/// cannot be done it gives the exit status: `NO_WORDS` exactly where the arguments could not be read
/// for another cause than want of memory, and else `NO_MEMORY`.
pub fn words_of(args: io::Result<Args>, words: &mut Words) -> Result<(), u8>
    ensures all { IfOk args (λ args. OnOk result (words.new ≡ words.old ++ map string_bytes (drop 1 args.rest.items))) }
    ensures refused { OnErr args (IsErr result) }
    ensures no_words { (result ≡ Err 10) ↔ IsErrAnd args (λ e. error_kind e ≢ ErrorKind.OutOfMemory) }
    ensures no_memory { ¬ (result ≡ Err 10) → OnErr result (result ≡ Err 9) }
{
    match args {
        Ok(args) => match add_words(args, words) {
            Ok(()) => Ok(()),
            Err(_) => Err(NO_MEMORY),
        },
        Err(error) if error.kind() == ErrorKind::OutOfMemory => Err(NO_MEMORY),
        Err(_) => Err(NO_WORDS),
    }
}

// Adds the arguments after the first, all of them, in order.
fn add_words(args: Args, words: &mut Words) -> Result<(), NoMemory>
    ensures { OnOk result (words.new ≡ words.old ++ map string_bytes (drop 1 args.rest.items)) }
{
    let mut args = args;
    args.next();
    'words: while let Some(word) = args.next() {
        words.add(word.as_str())?;
    }
    Ok(())
}
