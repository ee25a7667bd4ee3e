//! What stops a run, and the status that it ends with.
ghost use Rattle.std.specs.Prelude.{◌≡◌, Err, IfSome, IfNone};
ghost use Rattle.og_faults.specs.Faults.{status_of};
ghost use Rattle.og_faults.specs.declared.fault.Fault as declared;
ghost use Rattle.og_faults.specs.declared.stop.Stop.TheVariants as stops;

use crate::fault::Fault;
use og_base::NoMemory;
use og_check::CheckRefusal;
use og_file::FileRefusal;
use og_io::{FilesRefusal, PutRefusal};
use og_lex::LexRefusal;
use og_parse::ParseRefusal;
use og_words::WordsRefusal;
use thiserror::Error;

/// What stops a run.
#[derive(Debug, Drop, Error)]
pub enum Stop {
    /// A fault of the words, of the script or of a statement.
    #[error("{0}")]
    Fault(Fault),
    /// The source failed.
    #[error("the source failed")]
    ReadFault,
    /// The files failed.
    #[error("the files failed")]
    FileFault,
    /// The sink failed.
    #[error("the sink failed")]
    WriteFault,
    /// Memory ran out.
    #[error("want of memory")]
    NoMemory,
}

impl From<NoMemory> for Stop {
    ghost use Rattle.og_faults.specs.declared.stop.Stop.{Stop};

    ghost from_gives = { λ _ stop. stop ≡ Stop.NoMemory };

    fn from(_: NoMemory) -> Stop {
        Stop::NoMemory
    }
}

impl From<PutRefusal> for Stop {
    ghost use Rattle.og_faults.specs.Stops.{stop_of_put};

    ghost from_gives = { λ refusal stop. stop ≡ stop_of_put refusal };

    fn from(refusal: PutRefusal) -> Stop {
        match refusal {
            PutRefusal::Failed => Stop::WriteFault,
            PutRefusal::NoMemory => Stop::NoMemory,
        }
    }
}

impl From<LexRefusal> for Stop {
    ghost use Rattle.og_faults.specs.Stops.{stop_of_lex};

    ghost from_gives = { λ refusal stop. stop ≡ stop_of_lex refusal };

    fn from(refusal: LexRefusal) -> Stop {
        match refusal {
            LexRefusal::BadByte { offset } => Stop::Fault(Fault::BadByte { offset }),
            LexRefusal::OpenText { offset } => Stop::Fault(Fault::OpenText { offset }),
            LexRefusal::NumberRange { offset } => Stop::Fault(Fault::NumberRange { offset }),
            LexRefusal::NoMemory => Stop::NoMemory,
        }
    }
}

impl From<ParseRefusal> for Stop {
    ghost use Rattle.og_faults.specs.Stops.{stop_of_parse};

    ghost from_gives = { λ refusal stop. stop ≡ stop_of_parse refusal };

    fn from(refusal: ParseRefusal) -> Stop {
        match refusal {
            ParseRefusal::Syntax { statement } => Stop::Fault(Fault::Syntax { statement }),
            ParseRefusal::TooDeep { statement } => Stop::Fault(Fault::TooDeep { statement }),
            ParseRefusal::Literal { statement } => Stop::Fault(Fault::Literal { statement }),
            ParseRefusal::NoMemory => Stop::NoMemory,
        }
    }
}

impl From<WordsRefusal> for Stop {
    ghost use Rattle.og_faults.specs.Stops.{stop_of_words};

    ghost from_gives = { λ refusal stop. stop ≡ stop_of_words refusal };

    fn from(refusal: WordsRefusal) -> Stop {
        match refusal {
            WordsRefusal::NoCommand => Stop::Fault(Fault::Words),
            WordsRefusal::NoMemory => Stop::NoMemory,
        }
    }
}

impl From<FilesRefusal> for Stop {
    ghost use Rattle.og_faults.specs.Stops.{stop_of_files};

    ghost from_gives = { λ refusal stop. stop ≡ stop_of_files refusal };

    fn from(refusal: FilesRefusal) -> Stop {
        match refusal {
            FilesRefusal::Failed => Stop::FileFault,
            FilesRefusal::NoMemory => Stop::NoMemory,
        }
    }
}

impl Stop {
    ghost use Rattle.og_faults.specs.Stops.{stop_of_bytes, stop_of_check};

    /// What a fault of the bytes of a file makes of a run, at the statement with that number, counted from 1.
    pub fn of_bytes(statement: usize, refusal: FileRefusal) -> Stop
        ensures { result ≡ stop_of_bytes statement refusal }
    {
        match refusal {
            FileRefusal::Header => Stop::Fault(Fault::Header { statement }),
            FileRefusal::Cell { number } => Stop::Fault(Fault::Record { statement, number }),
            FileRefusal::RowCount { said, found } => {
                Stop::Fault(Fault::RowCount {
                    statement,
                    said,
                    found,
                })
            }
            FileRefusal::NoMemory => Stop::NoMemory,
        }
    }

    /// What a refusal of the checks of the statement with that number, counted from 1, makes of a run.
    pub fn of_check(statement: usize, refusal: CheckRefusal) -> Stop
        ensures { result ≡ stop_of_check statement refusal }
    {
        match refusal {
            CheckRefusal::NoMemory => Stop::NoMemory,
            refusal => Stop::Fault(Fault::Check { statement, refusal }),
        }
    }
}

/// The fault that ended a run, if it was one.
pub fn fault_of(end: &Result<(), Stop>) -> Option<&Fault>
    ensures fault { IfSome result (λ fault. end.now ≡ Err (stops.Fault fault.now)) }
    ensures none { IfNone result ((fault : declared.Fault) → end.now ≡ Err (stops.Fault fault) → ⊥) }
{
    match end {
        Err(Stop::Fault(fault)) => Some(fault),
        _ => None,
    }
}

/// The exit status of a run's end.
pub fn status_of(end: &Result<(), Stop>) -> u8
    ensures { result ≡ status_of end.now }
{
    match end {
        Ok(()) => 0,
        Err(Stop::Fault(fault)) => fault.status(),
        Err(Stop::ReadFault) => 6,
        Err(Stop::FileFault) => 7,
        Err(Stop::WriteFault) => 8,
        Err(Stop::NoMemory) => 9,
    }
}
