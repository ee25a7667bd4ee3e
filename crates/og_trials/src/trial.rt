//! One run of a case.
ghost use Rattle.std.specs.Prelude.{◌<◌};

use crate::noted::NotedFiles;
use og_base::{NoMemory, Words};
use og_case_files::Case;
use og_db::Db;
use og_io::{MemSink, MemSource};
use og_par::{Gate, OpenGate};
use og_session::{run, run_gated};
use std::alloc::Global;
use std::thread::Threads;

/// How a case is run. Each device fails at the call with its number, counted from 1.
#[derive(Clone, Copy)]
pub struct Setting {
    /// The workers that are asked for beside the words of the case.
    pub workers: Option<u8>,
    /// The most bytes that the source gives a call.
    pub step: usize,
    pub source_fails: Option<u64>,
    pub sink_fails: Option<u64>,
    pub files_fail: Option<u64>,
}

impl Setting {
    /// The words as they are, and devices that do not fail, with a source that gives all that is asked for.
    pub const WHOLE: Setting = Setting {
        workers: None,
        step: usize::MAX,
        source_fails: None,
        sink_fails: None,
        files_fail: None,
    };
}

/// What came of a run.
#[derive(Drop)]
pub struct Outcome {
    pub status: u8,
    pub written: Vec<u8>,
    pub source_calls: u64,
    pub sink_calls: u64,
    pub files: NotedFiles,
    /// How many names the database has.
    pub names: usize,
}

impl Outcome {
    /// Whether the case wants just this status, these bytes and these files.
    pub fn is_wanted(&self, case: &Case) -> bool {
        self.status == case.status
            && self.written.as_slice() == case.output.as_slice()
            && self.is_untouched(case)
            && self.has_wanted_files(case)
    }

    /// Whether the source was not touched where it is none of the command.
    fn is_untouched(&self, case: &Case) -> bool {
        let is_read = case.status != 2 && !case.has_own_script();
        is_read || self.source_calls == 0
    }
}

/// Runs the words of the case on the script and its files, over a database without names.
pub fn ran<H: Threads + Sync + AllocGlobal>(
    rt: &H,
    case: &Case,
    script: &[u8],
    setting: Setting,
) -> Result<Outcome, NoMemory> {
    ran_gated::<H, OpenGate>(rt, case, script, setting, None)
}

/// The same, where each worker enters the gate at each of its parts, if there is one.
pub fn ran_gated<H: Threads + Sync + AllocGlobal, G: Gate + Sync>(
    rt: &H,
    case: &Case,
    script: &[u8],
    setting: Setting,
    gate: Option<&G>,
) -> Result<Outcome, NoMemory> {
    let alloc = rt.alloc();
    let words = words_of(alloc, case, setting.workers)?;
    let step = setting.step.max(1);
    let mut source = MemSource::new(script.to_vec(alloc)?, step, setting.source_fails);
    let mut sink = MemSink::new(alloc, setting.sink_fails);
    let mut files = NotedFiles::new(alloc, case.files.as_slice(), setting.files_fail)?;
    let mut db = Db::new(alloc);
    let (src, out, fs) = (&mut source, &mut sink, &mut files);
    let status = match gate {
        None => run(rt, alloc, &words, src, out, fs, &mut db),
        Some(gate) => run_gated(rt, alloc, &words, src, out, fs, &mut db, gate),
    };
    Ok(Outcome {
        status,
        written: sink.written().to_vec(alloc)?,
        source_calls: source.calls(),
        sink_calls: sink.calls(),
        files,
        names: db.len(),
    })
}

/// The words of the case, and after them the option of the workers that are asked for.
pub fn words_of(alloc: Global, case: &Case, workers: Option<u8>) -> Result<Words, NoMemory> {
    let mut words = Words::new(alloc);
    for word in &case.words {
        words.add(word.as_str())?;
    }
    if let Some(workers) = workers {
        let Ok(value) = format!(in alloc; "{workers}") else {
            return Err(NoMemory);
        };
        words.add("--workers")?;
        words.add(value.as_str())?;
    }
    Ok(words)
}
