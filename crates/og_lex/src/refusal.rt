//! Why a script has no tokens.
ghost use Rattle.std.specs.Prelude.{◌≡◌};
ghost use Rattle.og_lex.specs.Front as spec;

use crate::front::Fault;
use std::alloc::{AllocError, AllocFailed};
use thiserror::Error;

/// Why a script has no tokens: its first lexical fault, with its place in bytes from 0, or want of
/// memory.
#[derive(Clone, Copy, Debug, PartialEq, Eq, Error)]
pub enum LexRefusal {
    /// No token begins here: the byte begins none, `-` stands before neither a digit nor `-`, or
    /// the content of a text is not UTF-8.
    #[error("no token at {offset}")]
    BadByte { offset: usize },
    /// The text that begins here does not close.
    #[error("open text at {offset}")]
    OpenText { offset: usize },
    /// The number that begins here is below -9223372036854775808 or above 9223372036854775807.
    #[error("number out of range at {offset}")]
    NumberRange { offset: usize },
    /// Memory ran out.
    #[error("want of memory")]
    NoMemory,
}

impl From<AllocError> for LexRefusal {
    ghost use Rattle.og_lex.specs.declared.refusal.LexRefusal.{LexRefusal};

    ghost from_gives = { λ _ e. e ≡ LexRefusal.NoMemory };

    fn from(_: AllocError) -> LexRefusal {
        LexRefusal::NoMemory
    }
}

impl<T: Drop> From<AllocFailed<T>> for LexRefusal {
    ghost use Rattle.og_lex.specs.declared.refusal.LexRefusal.{LexRefusal};

    ghost from_gives = { λ _ e. e ≡ LexRefusal.NoMemory };

    fn from(_: AllocFailed<T>) -> LexRefusal {
        LexRefusal::NoMemory
    }
}

/// The refusal of a fault at a place.
pub fn refusal_at(fault: Fault, offset: usize) -> LexRefusal
    ensures { result ≡ spec.refusal_at fault offset }
{
    match fault {
        Fault::BadByte => LexRefusal::BadByte { offset },
        Fault::OpenText => LexRefusal::OpenText { offset },
        Fault::NumberRange => LexRefusal::NumberRange { offset },
    }
}
