//! Faults, with their lines and statuses.
ghost use Rattle.std.specs.Prelude.{◌≡◌, IfOk, string_bytes};
ghost use Rattle.og_faults.specs.Faults.{fault_line, fault_status};

use crate::lines::{check_line, line_with, numbered, record_line, rows_line};
use og_base::NoMemory;
use og_check::CheckRefusal;
use og_value::Text;
use std::alloc::Global;
use thiserror::Error;

/// What is wrong with the words, with the script or with a statement (docs/LANGUAGE.md, "Faults").
#[derive(Debug, Drop, Error)]
pub enum Fault {
    /// The words are no command.
    #[error("the words are no command")]
    Words,
    /// The source has more bytes than a script may have.
    #[error("the source is too long")]
    SourceTooLong,
    /// No token begins at that place, counted in bytes from 0.
    #[error("no token at {offset}")]
    BadByte {
        offset: usize,
    },
    /// The text that begins at that place does not close.
    #[error("open text at {offset}")]
    OpenText {
        offset: usize,
    },
    /// The number that begins at that place is outside 64 bits.
    #[error("number out of range at {offset}")]
    NumberRange {
        offset: usize,
    },
    /// The statement with that number, counted from 1, is none of the grammar.
    #[error("statement {statement} is no statement")]
    Syntax {
        statement: usize,
    },
    /// The statement with that number is nested too deep.
    #[error("statement {statement} is too deep")]
    TooDeep {
        statement: usize,
    },
    /// A quoted text of the statement with that number is not of its form.
    #[error("a literal of statement {statement} is not of its form")]
    Literal {
        statement: usize,
    },
    /// The names, kinds or counts of the statement with that number do not fit.
    #[error("statement {statement}: {refusal}")]
    Check {
        statement: usize,
        refusal: CheckRefusal,
    },
    /// The name that the statement with that number asks for has no file.
    #[error("statement {statement}: no file {file:?}")]
    NoFile {
        statement: usize,
        file: Text,
    },
    /// The file of the statement with that number does not begin as such a file does.
    #[error("statement {statement}: no header")]
    Header {
        statement: usize,
    },
    /// The record with that number, counted from 1, of the file of the statement is not of its form.
    #[error("statement {statement}: record {number}")]
    Record {
        statement: usize,
        number: u64,
    },
    /// The file of the statement says another number of rows than it has.
    #[error("statement {statement}: said {said}, found {found}")]
    RowCount {
        statement: usize,
        said: u64,
        found: u64,
    },
}

impl Fault {
    /// The line that the run writes last (docs/LANGUAGE.md, "Faults").
    pub fn line(&self, alloc: Global) -> Result<String, NoMemory>
        ensures { IfOk result (λ line. string_bytes line ≡ fault_line self.now) }
    {
        match self {
            Fault::Words => Ok(String::from_str(alloc, "fault words\n")?),
            Fault::SourceTooLong => Ok(String::from_str(alloc, "fault source too long\n")?),
            Fault::BadByte { offset } => numbered(alloc, "fault byte at ", *offset),
            Fault::OpenText { offset } => numbered(alloc, "fault open text at ", *offset),
            Fault::NumberRange { offset } => numbered(alloc, "fault number range at ", *offset),
            Fault::Syntax { statement } => numbered(alloc, "fault syntax statement ", *statement),
            Fault::TooDeep { statement } => {
                numbered(alloc, "fault too deep statement ", *statement)
            }
            Fault::Literal { statement } => numbered(alloc, "fault literal statement ", *statement),
            Fault::Check { statement, refusal } => check_line(alloc, *statement, refusal),
            Fault::NoFile { statement, file } => {
                line_with(alloc, "fault no file statement ", *statement, file.as_str())
            }
            Fault::Header { statement } => numbered(alloc, "fault header statement ", *statement),
            Fault::Record { statement, number } => record_line(alloc, *statement, *number),
            Fault::RowCount {
                statement,
                said,
                found,
            } => rows_line(alloc, *statement, *said, *found),
        }
    }

    /// The exit status.
    pub fn status(&self) -> u8
        ensures { result ≡ fault_status self.now }
    {
        match self {
            Fault::Words => 2,
            Fault::Check { .. } => 4,
            Fault::NoFile { .. }
            | Fault::Header { .. }
            | Fault::Record { .. }
            | Fault::RowCount { .. } => 5,
            _ => 3,
        }
    }
}
