//! Why lexemes are not read.
ghost use Rattle.std.specs.Prelude.{◌≡◌};

use og_base::NoMemory;
use std::alloc::{AllocError, AllocFailed};
use thiserror::Error;

/// Why no value was read.
#[derive(Clone, Copy, Debug, Error)]
pub enum Refusal {
    /// The lexemes do not begin with one.
    #[error("the lexemes are not of the grammar")]
    Syntax,
    /// Memory ran out.
    #[error("want of memory")]
    NoMemory,
}

impl From<AllocError> for Refusal {
    ghost use Rattle.og_syntax.specs.declared.refusal.Refusal.{Refusal};

    ghost from_gives = { λ _ e. e ≡ Refusal.NoMemory };

    fn from(_: AllocError) -> Refusal {
        Refusal::NoMemory
    }
}

impl<T: Drop> From<AllocFailed<T>> for Refusal {
    ghost use Rattle.og_syntax.specs.declared.refusal.Refusal.{Refusal};

    ghost from_gives = { λ _ e. e ≡ Refusal.NoMemory };

    fn from(_: AllocFailed<T>) -> Refusal {
        Refusal::NoMemory
    }
}

impl From<NoMemory> for Refusal {
    ghost use Rattle.og_syntax.specs.declared.refusal.Refusal.{Refusal};

    ghost from_gives = { λ _ e. e ≡ Refusal.NoMemory };

    fn from(_: NoMemory) -> Refusal {
        Refusal::NoMemory
    }
}
