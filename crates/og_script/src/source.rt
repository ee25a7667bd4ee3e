//! Reads the source to its end.
ghost use Rattle.std.specs.Prelude.{◌≡◌, ◌≤◌, ◌+◌, ℕ, List, Some, Err, IfOk, false, length};
ghost use Rattle.og_base.specs.Told.{Rose};
ghost use Rattle.og_faults.specs.Counts.{IsFaultCount};
ghost use Rattle.og_io.specs.Sources.{max_part, TakesAtMost};
ghost use Rattle.og_script.specs.Reading.{is_unread, IsReading};
ghost use Rattle.og_script.specs.Scripts.{max_source};

use og_faults::{Fault, Stop};
use og_io::Source;
use std::alloc::Global;
use thiserror::Error;

/// The most bytes of a source.
pub const MAX_SOURCE: usize = 16_777_216;

// The most bytes that one call asks for.
const PART: usize = 65_536;

/// Why a source was not read to its end.
#[derive(Clone, Copy, Debug, PartialEq, Eq, Error)]
pub enum SourceRefusal {
    /// More than `MAX_SOURCE` bytes came.
    #[error("more bytes came than a source may have")]
    TooLong,
    /// The source failed.
    #[error("the source failed")]
    Failed,
    /// Memory ran out.
    #[error("want of memory")]
    NoMemory,
}

impl From<SourceRefusal> for Stop {
    ghost use Rattle.og_script.specs.Stops.{stop_of_source};

    ghost from_gives = { λ refusal stop. stop ≡ stop_of_source refusal };

    fn from(refusal: SourceRefusal) -> Stop {
        match refusal {
            SourceRefusal::TooLong => Stop::Fault(Fault::SourceTooLong),
            SourceRefusal::Failed => Stop::ReadFault,
            SourceRefusal::NoMemory => Stop::NoMemory,
        }
    }
}

/// The bytes of the source, read to its end. `TooLong` comes as soon as a byte past `MAX_SOURCE` has come,
/// so the source is asked for bytes at most `MAX_SOURCE + 1` times, and gives at most `PART` bytes more than
/// `MAX_SOURCE`.
pub fn read_source<S: Source>(alloc: Global, src: &mut S) -> Result<Vec<u8>, SourceRefusal>
    requires not_ended { S.ended src.old ≡ false }
    ensures told { (bytes : List ℕ) → S.left src.old ≡ Some bytes → IsReading bytes (S.left src.new) result }
    ensures small { IfOk result (λ v. length v.items ≤ max_source) }
    ensures taken { TakesAtMost (max_source + max_part) (S.left src.old) (S.left src.new) }
    ensures counted { IsFaultCount (is_unread result) (S.faults src.old) (S.faults src.new) }
{
    let mut bytes = Vec::new(alloc);
    let mut part = [0u8; PART];
    'parts: for _ in 0..MAX_SOURCE + 1 {
        let Ok(count) = src.next(&mut part) else {
            return Err(SourceRefusal::Failed);
        };
        if count == 0 {
            return Ok(bytes);
        }
        let Ok(()) = bytes.extend_from_slice(&part[..count]) else {
            return Err(SourceRefusal::NoMemory);
        };
        if bytes.len() > MAX_SOURCE {
            return Err(SourceRefusal::TooLong);
        }
    }
    // Each turn brought a byte, so more than the limit have come.
    unreachable!()
}
