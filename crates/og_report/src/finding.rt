//! Where a fault stands in the script, and its words.
ghost use Rattle.std.specs.Prelude.{◌≡◌, None, Some, IfOk, IfSome};
ghost use Rattle.og_report.specs.Marks.{IsMarkOf, IsStatementMark};

use crate::contents::file_words;
use crate::scene::Scene;
use crate::statement::{About, about_of, mark_at};
use og_base::NoMemory;
use og_faults::Fault;
use og_locate::piece_at;
use std::alloc::Global;

/// A stretch of a script, from the byte `start` to before the byte `end`. A mark of no byte stands at `start`.
#[derive(Clone, Copy)]
pub struct Mark {
    pub start: usize,
    pub end: usize,
}

/// What was found of a fault.
#[derive(Drop)]
pub struct Finding {
    /// What it is about, if it stands in the script.
    pub mark: Option<Mark>,
    pub words: String,
}

// The words of the commands.
const USAGE: &str =
    "usage: ongq run [--workers N], ongq at FILE DAY, or ongq load ROWS [--workers N]";

/// Where the fault stands in the script, and its words. Refused only where memory runs out.
pub fn finding_of(alloc: Global, scene: &Scene<'_>, fault: &Fault) -> Result<Finding, NoMemory>
    ensures { IfOk result (λ finding. IsMarkOf scene.now.script.now fault.now finding.mark) }
{
    match fault {
        Fault::Words => unmarked(alloc, USAGE),
        Fault::SourceTooLong => unmarked(alloc, "the script has more than 16777216 bytes"),
        Fault::BadByte { offset } => {
            let mark = Mark {
                start: *offset,
                end: offset.saturating_add(1),
            };
            marked(alloc, mark, "no token begins here")
        }
        Fault::OpenText { offset } => {
            let mark = Mark {
                start: *offset,
                end: scene.script.len(),
            };
            marked(alloc, mark, "this text is not closed")
        }
        Fault::NumberRange { offset } => {
            let mark = number_at(scene.script, *offset);
            marked(
                alloc,
                mark,
                "the number is outside -9223372036854775808 to 9223372036854775807",
            )
        }
        Fault::Syntax { statement }
        | Fault::TooDeep { statement }
        | Fault::Literal { statement }
        | Fault::Check { statement, .. }
        | Fault::NoFile { statement, .. }
        | Fault::Header { statement }
        | Fault::Record { statement, .. }
        | Fault::RowCount { statement, .. } => in_statement(alloc, scene, *statement, fault),
    }
}

// A fault that stands nowhere in the script.
fn unmarked(alloc: Global, words: &str) -> Result<Finding, NoMemory>
    ensures { IfOk result (λ finding. finding.mark ≡ None) }
{
    Ok(Finding {
        mark: None,
        words: String::from_str(alloc, words)?,
    })
}

// A fault at the mark.
fn marked(alloc: Global, mark: Mark, words: &str) -> Result<Finding, NoMemory>
    ensures { IfOk result (λ finding. finding.mark ≡ Some mark) }
{
    Ok(Finding {
        mark: Some(mark),
        words: String::from_str(alloc, words)?,
    })
}

// The mark of the number at the place: its digits, with a minus before them.
fn number_at(script: &[u8], offset: usize) -> Mark
    ensures { result.start ≡ offset }
{
    let (_, rest) = script.split_at(offset.min(script.len()));
    let digits = rest
        .iter()
        .take_while(|b| **b == b'-' || b.is_ascii_digit())
        .count();
    Mark {
        start: offset,
        end: offset.saturating_add(digits),
    }
}

// A fault of the statement with that number. A script without it is one that the command has of its own.
fn in_statement(
    alloc: Global,
    scene: &Scene<'_>,
    number: usize,
    fault: &Fault,
) -> Result<Finding, NoMemory>
    ensures { IfOk result (λ finding. IfSome finding.mark (IsStatementMark scene.now.script.now number fault.now)) }
{
    let Some(piece) = piece_at(alloc, scene.script, number)? else {
        let words = file_words(alloc, scene, &[], fault)?;
        return Ok(Finding { mark: None, words });
    };
    let About { index, words } = about_of(alloc, scene, piece.as_slice(), fault)?;
    let mark = mark_at(piece.as_slice(), index);
    Ok(Finding {
        mark: Some(mark),
        words,
    })
}
