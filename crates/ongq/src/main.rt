//! ongq: runs a command over ongoing dates: the script of standard input, a saved file as of a day, or
//! the command load.
#![tactic(auto)]

ghost use Rattle.std.specs.Prelude.{◌≡◌, false};

mod cleared;
mod meter;

use crate::cleared::ClearedSink;
use crate::meter::{Meter, watch};
use og_base::Words;
use og_db::Db;
use og_faults::Stop;
use og_io::{Files, FolderFiles, Sink, Source, StdSink, StdSource};
use og_par::{Gate, OpenGate};
use og_progress::Progress;
use og_report::{Scene, report};
use og_session::run_located;
use og_words::{NO_MEMORY, words_of};
use std::env::Env;
use std::io::{Eprint, IsTerminal};
use std::process::ExitCode;
use std::thread::Threads;
use std::time::Clock;
use std::{env, fs, thread};

fn main(rt: HostRuntime) -> ExitCode {
    let mut words = Words::new(rt.alloc());
    if let Err(status) = words_of(env::args(&rt), &mut words) {
        let _ = rt.eprint(cause_of(status));
        return ExitCode::from(status);
    }
    let src = StdSource::new(rt.stdin());
    let mut out = StdSink::new(rt.stdout());
    if rt.stderr().is_terminal() && may_show(&rt) {
        return ExitCode::from(run_shown(&rt, &words, src, out));
    }
    ExitCode::from(run_and_tell(&rt, &words, src, &mut out, &OpenGate))
}

// Whether a line may be written over on the terminal: NO_COLOR is not set, and TERM is not dumb.
fn may_show(rt: &(impl Env + AllocGlobal)) -> bool {
    let has_colors = match env::var(rt, "NO_COLOR") {
        Ok(value) => value.is_empty(),
        Err(_) => true,
    };
    let is_dumb = match env::var(rt, "TERM") {
        Ok(value) => value.as_str() == "dumb",
        Err(_) => false,
    };
    has_colors && !is_dumb
}

// Carries out the command that the words are, while another thread shows on the terminal how far it is.
fn run_shown<R, S: Source, K: Sink>(rt: &R, words: &Words, src: S, out: K) -> u8
where
    R: Threads + Sync + AllocGlobal + fs::Files + Clock + Eprint,
    S: Drop,
    K: Drop,
    requires { S.ended src ≡ false }
{
    let meter = Meter::new(rt);
    let mut out = ClearedSink::new(&meter, out);
    let show = || watch(&meter);
    let run = || -> u8
        requires { S.ended src ≡ false }
    { run_and_tell(rt, words, src, &mut out, &meter) };
    let ((), status) = thread::join(rt, show, run);
    status
}

// Carries out the command that the words are, and tells what stopped it.
fn run_and_tell<R, S: Source, K: Sink, G: Gate + Progress + Sync>(
    rt: &R,
    words: &Words,
    src: S,
    out: &mut K,
    gate: &G,
) -> u8
where
    R: Threads + Sync + AllocGlobal + fs::Files + Eprint,
    S: Drop,
    requires { S.ended src ≡ false }
{
    let mut src = src;
    let mut files = FolderFiles::new(rt, rt.alloc());
    let mut db = Db::new(rt.alloc());
    let ended = run_located(
        rt,
        rt.alloc(),
        words,
        &mut src,
        out,
        &mut files,
        &mut db,
        gate,
    );
    gate.end();
    if let Err(stop) = &ended.end {
        let scene = Scene {
            script: ended.script.as_slice(),
            words,
            db: &db,
            read: files.bytes(),
        };
        tell(rt, &scene, stop);
    }
    ended.status
}

// Writes to standard error what stopped the run. Nothing depends on whether it can be written.
fn tell(rt: &(impl Eprint + AllocGlobal), scene: &Scene<'_>, stop: &Stop) {
    match report(rt.alloc(), scene, stop) {
        Ok(text) => {
            let _ = rt.eprint(text.as_str());
        }
        Err(_) => {
            let _ = rt.eprint("out of memory\n");
        }
    }
}

// Why the words could not be read, where the run ends with that status.
fn cause_of(status: u8) -> &'static str {
    if status == NO_MEMORY {
        "out of memory\n"
    } else {
        "the words of the command line could not be read\n"
    }
}
