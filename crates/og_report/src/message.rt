//! The message for what stopped a run.
ghost use Rattle.std.specs.Prelude.{◌≤◌, IfOk, length, string_bytes};
ghost use Rattle.og_report.specs.Reports.{BeginsAt, IsReport, IsToldAt};
ghost use Rattle.og_locate.specs.Positions.{IsPositionOf};
ghost use Rattle.og_locate.specs.declared.position.Position as positions;
ghost use Rattle.og_faults.specs.declared.stop.Stop.TheVariants as stops;

use crate::drawing::drawing;
use crate::finding::{Finding, Mark, finding_of};
use crate::scene::Scene;
use og_base::NoMemory;
use og_faults::{Fault, Stop};
use og_locate::position_of;
use std::alloc::Global;

/// The message for what stopped a run, for standard error. Of a fault that stands in the script: `LINE:COLUMN: WORDS`, and
/// below it the line of the script and a mark under what the fault is about. Of any other: one line of words
/// (docs/LANGUAGE.md, "Faults" and "Other ends of a run"). Refused only where memory runs out.
pub fn report(alloc: Global, scene: &Scene<'_>, stop: &Stop) -> Result<String, NoMemory>
    ensures { IfOk result (λ text. IsReport scene.now.script.now stop.now (string_bytes text)) }
{
    match stop {
        Stop::Fault(fault) => fault_report(alloc, scene, fault),
        Stop::ReadFault => Ok(String::from_str(alloc, "standard input: it could not be read\n")?),
        Stop::FileFault => Ok(String::from_str(
            alloc,
            "a file could not be read or written: look at its name, its rights, its size and the room on the device\n",
        )?),
        Stop::WriteFault => Ok(String::from_str(
            alloc,
            "standard output: it could not be written\n",
        )?),
        Stop::NoMemory => Ok(String::from_str(alloc, "out of memory\n")?),
    }
}

// The message for a fault.
fn fault_report(alloc: Global, scene: &Scene<'_>, fault: &Fault) -> Result<String, NoMemory>
    ensures { IfOk result (λ text. IsReport scene.now.script.now (stops.Fault fault.now) (string_bytes text)) }
{
    let finding = finding_of(alloc, scene, fault)?;
    finding_text(alloc, scene.script, &finding)
}

// The text of what was found.
fn finding_text(alloc: Global, script: &[u8], finding: &Finding) -> Result<String, NoMemory>
    ensures { IfOk result (λ text. IsToldAt script.now finding.now.mark (string_bytes text)) }
{
    let words = finding.words.as_str();
    match finding.mark {
        Some(mark) if mark.start <= script.len() => marked_text(alloc, script, mark, words),
        _ => Ok(format!(in alloc; "{words}\n")?),
    }
}

// The words at the line and column of the mark, and the drawn line.
fn marked_text(alloc: Global, script: &[u8], mark: Mark, words: &str) -> Result<String, NoMemory>
    requires { mark.start ≤ length script.now }
    ensures { IfOk result (λ text. (position : positions.Position) × IsPositionOf script.now mark.start position × BeginsAt position (string_bytes text)) }
{
    let position = position_of(script, mark.start);
    let lines = drawing(alloc, script, mark)?;
    let (line, column, lines) = (position.line, position.column, lines.as_str());
    Ok(format!(in alloc; "{line}:{column}: {words}\n{lines}")?)
}
