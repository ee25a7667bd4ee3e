//! A whole program: the files that its words name, their cases, and what came of them.
ghost use Rattle.std.specs.Prelude.{◌≤◌, IfOk};

use crate::report::Report;
use crate::ways::{Ways, try_case};
use og_case_files::{Book, Refusal};
use og_io::Sink;
use std::alloc::Global;
use std::env::Env;
use std::rt::Files;
use std::thread::Threads;
use std::{env, fs};

// The exit status where a file is not read to its end.
const UNREAD: u8 = 2;

// The word behind which the files stand whose cases are run once.
const ONCE: &str = "--once";

/// Runs the cases of the files that the words of the command line name, and puts what came of them into
/// the sink. A case of a file that stands behind the word `--once` is run once, any other one in many ways. Gives the
/// exit status: 0 where no run failed, 1 where one did, and 2 where a file is no file of cases or something else kept
/// them from being run.
pub fn carry_out<R: Env + Files + Threads + Sync + AllocGlobal, K: Sink>(rt: &R, out: &mut K) -> u8
    ensures status { result ≤ 2 }
{
    let mut report = Report::new(rt.alloc());
    let status = match report_of(rt, &mut report) {
        Ok(status) => status,
        Err(_) => UNREAD,
    };
    match out.put(report.text.as_slice()) {
        Ok(()) => status,
        Err(_) => UNREAD,
    }
}

// Reads all files and runs all cases.
fn report_of<R: Env + Files + Threads + Sync + AllocGlobal>(
    rt: &R,
    report: &mut Report,
) -> Result<u8, Refusal>
    ensures status { IfOk result (λ status. status ≤ 1) }
{
    let mut book = Book::new(rt.alloc());
    let many = read_files(rt, &mut book, report)?;
    for (place, case) in book.cases.iter().enumerate() {
        let ways = if place < many { Ways::All } else { Ways::Once };
        try_case(rt, case, ways, report)?;
    }
    report.end(rt.alloc())
}

// Adds the files of the words to the book, and tells how many of their cases stand before the word `--once`.
fn read_files<R: Env + Files + AllocGlobal>(
    rt: &R,
    book: &mut Book,
    report: &mut Report,
) -> Result<usize, Refusal> {
    let Ok(args) = env::args(rt) else {
        return Err(Refusal::NoMemory);
    };
    let mut many = usize::MAX;
    for word in args.skip(1) {
        if word.as_str() == ONCE {
            many = book.cases.len();
        } else {
            read_file(rt, word.as_str(), book, report)?;
        }
    }
    Ok(many)
}

// Adds a file to the book. One that is none of cases is told of.
fn read_file<R: Files + AllocGlobal>(
    rt: &R,
    file: &str,
    book: &mut Book,
    report: &mut Report,
) -> Result<(), Refusal> {
    let Ok(text) = fs::read_to_string(rt, file) else {
        tell(rt.alloc(), file, 0, &Refusal::NoFile, report)?;
        return Err(Refusal::NoFile);
    };
    match book.add_file(rt.alloc(), file, text.as_str()) {
        Ok(()) => Ok(()),
        Err(refused) => {
            tell(rt.alloc(), file, refused.line, &refused.why, report)?;
            Err(refused.why)
        }
    }
}

fn tell(
    alloc: Global,
    file: &str,
    line: usize,
    why: &Refusal,
    report: &mut Report,
) -> Result<(), Refusal> {
    let text = format!(in alloc; "{file}:{line}: {why}\n")?;
    report.text.extend_from_slice(text.as_bytes())?;
    Ok(())
}
