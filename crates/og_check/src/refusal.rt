//! Why a statement is refused.
ghost use Rattle.std.specs.Prelude.{◌≡◌};

use og_base::NoMemory;
use og_value::{Kind, Name, Text};
use std::alloc::{AllocError, AllocFailed};
use thiserror::Error;

/// Why a statement is refused (docs/LANGUAGE.md, "Checks"), or want of memory.
#[derive(Debug, Drop, Error)]
pub enum CheckRefusal {
    /// Nothing has this name, or nothing of the kind that the statement asks for.
    #[error("no such name")]
    NoSuchName { name: Name },
    /// The name is taken: by a table or a result, by a column, or by an item of FROM.
    #[error("the name is taken")]
    NameTaken { name: Name },
    /// No column in sight has this name.
    #[error("no such column")]
    NoSuchColumn { name: Text },
    /// Several columns in sight have this name.
    #[error("the column is ambiguous")]
    AmbiguousColumn { name: Text },
    /// A value of this kind stands where another kind is wanted.
    #[error("the kinds differ")]
    KindsDiffer { found: Kind, wanted: Kind },
    /// So many stand where another number is wanted.
    #[error("the counts differ")]
    CountsDiffer { found: usize, wanted: usize },
    /// More stand than may stand.
    #[error("too many")]
    TooMany { found: usize, limit: usize },
    /// Memory ran out.
    #[error("want of memory")]
    NoMemory,
}

impl From<AllocError> for CheckRefusal {
    ghost use Rattle.og_check.specs.declared.refusal.CheckRefusal.{CheckRefusal};

    ghost from_gives = { λ _ e. e ≡ CheckRefusal.NoMemory };

    fn from(_: AllocError) -> CheckRefusal {
        CheckRefusal::NoMemory
    }
}

impl<T: Drop> From<AllocFailed<T>> for CheckRefusal {
    ghost use Rattle.og_check.specs.declared.refusal.CheckRefusal.{CheckRefusal};

    ghost from_gives = { λ _ e. e ≡ CheckRefusal.NoMemory };

    fn from(_: AllocFailed<T>) -> CheckRefusal {
        CheckRefusal::NoMemory
    }
}

impl From<NoMemory> for CheckRefusal {
    ghost use Rattle.og_check.specs.declared.refusal.CheckRefusal.{CheckRefusal};

    ghost from_gives = { λ _ e. e ≡ CheckRefusal.NoMemory };

    fn from(_: NoMemory) -> CheckRefusal {
        CheckRefusal::NoMemory
    }
}
