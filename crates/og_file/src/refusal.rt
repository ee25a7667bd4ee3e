//! Why a file is not read.
ghost use Rattle.std.specs.Prelude.{◌≡◌};

use og_base::NoMemory;
use std::alloc::{AllocError, AllocFailed};
use thiserror::Error;

/// Why a file is not read.
#[derive(Clone, Copy, Debug, PartialEq, Eq, Error)]
pub enum FileRefusal {
    /// The first record is missing, or is not of its form.
    #[error("the file has no header of this form")]
    Header,
    /// The record with this number, counted from 1, is the first that is no row.
    #[error("record {number} is no row")]
    Cell { number: u64 },
    /// The file has another number of rows than it says.
    #[error("the file says {said} rows and has {found}")]
    RowCount { said: u64, found: u64 },
    /// Memory ran out.
    #[error("want of memory")]
    NoMemory,
}

impl From<AllocError> for FileRefusal {
    ghost use Rattle.og_file.specs.declared.refusal.FileRefusal.{FileRefusal};

    ghost from_gives = { λ _ e. e ≡ FileRefusal.NoMemory };

    fn from(_: AllocError) -> FileRefusal {
        FileRefusal::NoMemory
    }
}

impl<T: Drop> From<AllocFailed<T>> for FileRefusal {
    ghost use Rattle.og_file.specs.declared.refusal.FileRefusal.{FileRefusal};

    ghost from_gives = { λ _ e. e ≡ FileRefusal.NoMemory };

    fn from(_: AllocFailed<T>) -> FileRefusal {
        FileRefusal::NoMemory
    }
}

impl From<NoMemory> for FileRefusal {
    ghost use Rattle.og_file.specs.declared.refusal.FileRefusal.{FileRefusal};

    ghost from_gives = { λ _ e. e ≡ FileRefusal.NoMemory };

    fn from(_: NoMemory) -> FileRefusal {
        FileRefusal::NoMemory
    }
}
