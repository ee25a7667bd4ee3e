//! What words ask for, and why they ask for nothing.
ghost use Rattle.std.specs.Prelude.{◌≡◌};

use crate::target::Target;
use std::alloc::AllocError;
use thiserror::Error;

/// What the program is asked to do.
#[derive(Drop)]
pub enum Asked {
    /// Say which words there are.
    Help,
    /// Write the script of the source as SQL for the target.
    Sql(Target),
}

/// Why words ask for nothing.
#[derive(Clone, Copy, Debug, PartialEq, Eq, Error)]
pub enum WordsRefusal {
    /// The words are none of the program's.
    #[error("the words are none of the program's")]
    WrongWords,
    /// Memory ran out.
    #[error("want of memory")]
    NoMemory,
}

impl From<AllocError> for WordsRefusal {
    ghost use Rattle.og_sql_words.specs.declared.asked.WordsRefusal.{WordsRefusal};

    ghost from_gives = { λ _ e. e ≡ WordsRefusal.NoMemory };

    fn from(_: AllocError) -> WordsRefusal {
        WordsRefusal::NoMemory
    }
}
