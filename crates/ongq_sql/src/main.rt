//! ongq_sql: writes the script of standard input as SQL for PostgreSQL with the extension `ongoing`, as its words ask for.
#![tactic(auto)]

use og_base::{NoMemory, Words};
use og_io::{Files, FolderFiles, Sink, StdSink, StdSource};
use og_report::{Scene, report};
use og_sql::{Ended, SqlStop, outside_report, translate};
use og_sql_words::{Asked, HELP, USAGE, WordsRefusal, read_words};
use og_words::{NO_MEMORY, words_of};
use std::env;
use std::io::Eprint;
use std::process::ExitCode;

// What is written where the words are none of the program's: psql then writes the line of this fault, as ongq does.
const FAULT_WORDS: &str = "SELECT 'fault words';\n";

fn main(rt: HostRuntime) -> ExitCode {
    let mut words = Words::new(rt.alloc());
    if let Err(status) = words_of(env::args(&rt), &mut words) {
        let _ = rt.eprint(cause_of(status));
        return ExitCode::from(status);
    }
    let mut out = StdSink::new(rt.stdout());
    let status = match read_words(rt.alloc(), &words) {
        Ok(Asked::Sql(target)) => {
            let mut src = StdSource::new(rt.stdin());
            let mut files = FolderFiles::new(&rt, rt.alloc());
            let ended = translate(rt.alloc(), &target, &mut src, &mut out, &mut files);
            if let Err(stop) = &ended.end {
                tell(&rt, &ended, stop, files.bytes());
            }
            ended.status
        }
        Ok(Asked::Help) => put_alone(&rt, &mut out, HELP, 0),
        Err(WordsRefusal::WrongWords) => {
            let _ = rt.eprint(USAGE);
            put_alone(&rt, &mut out, FAULT_WORDS, 2)
        }
        Err(WordsRefusal::NoMemory) => {
            let _ = rt.eprint("out of memory\n");
            NO_MEMORY
        }
    };
    ExitCode::from(status)
}

// Writes the text and nothing else, and gives the status, or 8 where it cannot be written.
fn put_alone<K: Sink>(rt: &impl Eprint, out: &mut K, text: &str, status: u8) -> u8 {
    match out.put(text.as_bytes()) {
        Ok(()) => status,
        Err(_) => {
            let _ = rt.eprint("standard output: it could not be written\n");
            8
        }
    }
}

// Writes to standard error what stopped the translation. Nothing depends on whether it can be written.
fn tell(rt: &(impl Eprint + AllocGlobal), ended: &Ended, stop: &SqlStop, read: &[u8]) {
    match message(rt, ended, stop, read) {
        Ok(text) => {
            let _ = rt.eprint(text.as_str());
        }
        Err(NoMemory) => {
            let _ = rt.eprint("out of memory\n");
        }
    }
}

// The message for what stopped the translation.
fn message(
    rt: &(impl Eprint + AllocGlobal),
    ended: &Ended,
    stop: &SqlStop,
    read: &[u8],
) -> Result<String, NoMemory> {
    match stop {
        SqlStop::Run(stop) => {
            let words = Words::new(rt.alloc());
            let db = ended.outline.to_db()?;
            let scene = Scene {
                script: ended.script.as_slice(),
                words: &words,
                db: &db,
                read,
            };
            report(rt.alloc(), &scene, stop)
        }
        SqlStop::Outside { statement, what } => {
            outside_report(rt.alloc(), ended.script.as_slice(), *statement, *what)
        }
    }
}

// Why the words could not be read, where the program ends with that status.
fn cause_of(status: u8) -> &'static str {
    if status == NO_MEMORY {
        "out of memory\n"
    } else {
        "the words of the command line could not be read\n"
    }
}
