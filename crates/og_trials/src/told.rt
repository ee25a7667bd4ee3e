//! What standard error tells of a run.
use crate::noted::NotedFiles;
use crate::report::Report;
use crate::trial::words_of;
use og_base::NoMemory;
use og_case_files::{Case, Refusal};
use og_db::Db;
use og_io::{Files, MemSink, MemSource};
use og_par::OpenGate;
use og_report::{Scene, report};
use og_session::run_located;
use std::thread::Threads;

/// Runs the case once more where it says what standard error tells, and compares that.
pub fn try_told<H: Threads + Sync + AllocGlobal>(
    rt: &H,
    case: &Case,
    found: &mut Report,
) -> Result<(), Refusal> {
    if case.error.is_empty() {
        return Ok(());
    }
    let text = told(rt, case)?;
    let wanted = case.error.as_slice();
    found.compare(rt.alloc(), case, "told", wanted, text.as_bytes())
}

// What is told of a run of the case, and no text where it comes to its end.
fn told<H: Threads + Sync + AllocGlobal>(rt: &H, case: &Case) -> Result<String, NoMemory> {
    let alloc = rt.alloc();
    let words = words_of(alloc, case, None)?;
    let mut src = MemSource::new(case.script.as_slice().to_vec(alloc)?, usize::MAX, None);
    let mut out = MemSink::new(alloc, None);
    let mut files = NotedFiles::new(alloc, case.files.as_slice(), None)?;
    let mut db = Db::new(alloc);
    let gate = &OpenGate;
    let ended = run_located(
        rt, alloc, &words, &mut src, &mut out, &mut files, &mut db, gate,
    );
    let Err(stop) = &ended.end else {
        return Ok(String::new(alloc));
    };
    let scene = Scene {
        script: ended.script.as_slice(),
        words: &words,
        db: &db,
        read: files.bytes(),
    };
    report(alloc, &scene, stop)
}
