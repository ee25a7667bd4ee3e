//! What stops a translation.
ghost use Rattle.std.specs.Prelude.{◌≡◌, ◌++◌, IfOk, OnOk, codes};
ghost use Rattle.std.specs.Fmt.{decimal};
ghost use Rattle.og_sql.specs.Ends as spec;

use og_base::{NoMemory, write_day};
use og_faults::{Fault, Stop};
use og_io::{FilesRefusal, PutRefusal};
use og_sql_outside::Outside;
use std::alloc::Global;

/// What stops a translation: what stops a run of the script, or a value that PostgreSQL cannot hold.
#[derive(Debug, Drop)]
pub enum SqlStop {
    /// What stops a run of the script too.
    Run(Stop),
    /// The statement with that number, counted from 1, has a value that PostgreSQL cannot hold.
    Outside { statement: usize, what: Outside },
}

/// The exit status where a value is outside PostgreSQL.
pub const OUTSIDE: u8 = 12;

impl From<NoMemory> for SqlStop {
    ghost use Rattle.og_faults.specs.declared.stop.Stop.TheVariants as stops;
    ghost use Rattle.og_sql.specs.declared.stop.SqlStop.{SqlStop};

    ghost from_gives = { λ _ stop. stop ≡ SqlStop.Run stops.NoMemory };

    fn from(_: NoMemory) -> SqlStop {
        SqlStop::Run(Stop::NoMemory)
    }
}

impl From<Stop> for SqlStop {
    ghost use Rattle.og_sql.specs.declared.stop.SqlStop.{SqlStop};

    ghost from_gives = { λ run stop. stop ≡ SqlStop.Run run };

    fn from(stop: Stop) -> SqlStop {
        SqlStop::Run(stop)
    }
}

impl From<PutRefusal> for SqlStop {
    ghost use Rattle.og_faults.specs.Stops.{stop_of_put};
    ghost use Rattle.og_sql.specs.declared.stop.SqlStop.{SqlStop};

    ghost from_gives = { λ refusal stop. stop ≡ SqlStop.Run (stop_of_put refusal) };

    fn from(refusal: PutRefusal) -> SqlStop {
        SqlStop::Run(Stop::from(refusal))
    }
}

impl From<FilesRefusal> for SqlStop {
    ghost use Rattle.og_faults.specs.Stops.{stop_of_files};
    ghost use Rattle.og_sql.specs.declared.stop.SqlStop.{SqlStop};

    ghost from_gives = { λ refusal stop. stop ≡ SqlStop.Run (stop_of_files refusal) };

    fn from(refusal: FilesRefusal) -> SqlStop {
        SqlStop::Run(Stop::from(refusal))
    }
}

/// The exit status of an end: 0, that of a run that was stopped so, or 12 where a value is outside PostgreSQL.
pub fn status_of(end: &Result<(), SqlStop>) -> u8
    ensures { result ≡ spec.status_of end.now }
{
    match end {
        Ok(()) => 0,
        Err(SqlStop::Outside { .. }) => OUTSIDE,
        Err(SqlStop::Run(Stop::Fault(fault))) => fault.status(),
        Err(SqlStop::Run(Stop::ReadFault)) => 6,
        Err(SqlStop::Run(Stop::FileFault)) => 7,
        Err(SqlStop::Run(Stop::WriteFault)) => 8,
        Err(SqlStop::Run(Stop::NoMemory)) => 9,
    }
}

/// Whether a device failed or memory ran out.
pub fn is_cut(end: &Result<(), SqlStop>) -> bool
    ensures { result ≡ spec.is_cut end.now }
{
    match end {
        Ok(()) | Err(SqlStop::Outside { .. }) => false,
        Err(SqlStop::Run(stop)) => !matches!(stop, Stop::Fault(_)),
    }
}

/// The last line of a translation that was stopped so: that of the fault, and else none. Refused only for want of memory.
pub fn line_of(alloc: Global, end: &Result<(), SqlStop>) -> Result<Vec<u8>, NoMemory>
    ensures { IfOk result (λ line. line.items ≡ spec.line_of end.now) }
{
    match end {
        Err(SqlStop::Outside { statement, what }) => outside_line(alloc, *statement, *what),
        Err(SqlStop::Run(Stop::Fault(fault))) => fault_line(alloc, fault),
        _ => Ok(Vec::new(alloc)),
    }
}

// The line of a fault.
fn fault_line(alloc: Global, fault: &Fault) -> Result<Vec<u8>, NoMemory>
    ensures { IfOk result (λ line. line.items ≡ spec.fault_line fault.now) }
{
    let line = fault.line(alloc)?;
    Ok(Vec::from_slice(alloc, line.as_bytes())?)
}

// The line of a value that PostgreSQL cannot hold, at the statement with that number.
fn outside_line(alloc: Global, statement: usize, what: Outside) -> Result<Vec<u8>, NoMemory>
    ensures { IfOk result (λ line. line.items ≡ spec.outside_line statement what) }
{
    let head = format!(in alloc; "fault outside PostgreSQL statement {statement}: ")?;
    let mut line = Vec::from_slice(alloc, head.as_bytes())?;
    put_outside(what, &mut line)?;
    line.push(b'\n')?;
    Ok(line)
}

// Appends the value.
fn put_outside(what: Outside, line: &mut Vec<u8>) -> Result<(), NoMemory>
    ensures { OnOk result (line.new.items ≡ line.old.items ++ spec.outside_words what) }
{
    match what {
        Outside::Day(day) => write_day(day, line),
        Outside::Nul => {
            line.extend_from_slice(b"a byte 0 in a text")?;
            Ok(())
        }
    }
}
