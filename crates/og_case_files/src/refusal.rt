//! Why a file of cases was not carried out.
use og_base::NoMemory;
use og_io::PutRefusal;
use std::alloc::{AllocError, AllocFailed};
use std::fmt;
use thiserror::Error;

/// Why a file of cases was not carried out.
#[derive(Debug, Drop, Error)]
pub enum Refusal {
    #[error("this line is none of a file of cases")]
    NotALine,
    #[error("no setup has this name")]
    NoSetup,
    #[error("this file cannot be read")]
    NoFile,
    #[error("the output failed")]
    NoOutput,
    #[error("memory ran out")]
    NoMemory,
}

impl From<NoMemory> for Refusal {
    fn from(_: NoMemory) -> Refusal {
        Refusal::NoMemory
    }
}

impl From<AllocError> for Refusal {
    fn from(_: AllocError) -> Refusal {
        Refusal::NoMemory
    }
}

impl<T: Drop> From<AllocFailed<T>> for Refusal {
    fn from(_: AllocFailed<T>) -> Refusal {
        Refusal::NoMemory
    }
}

impl From<fmt::Error> for Refusal {
    fn from(_: fmt::Error) -> Refusal {
        Refusal::NoMemory
    }
}

impl From<PutRefusal> for Refusal {
    fn from(refusal: PutRefusal) -> Refusal {
        match refusal {
            PutRefusal::Failed => Refusal::NoOutput,
            PutRefusal::NoMemory => Refusal::NoMemory,
        }
    }
}
