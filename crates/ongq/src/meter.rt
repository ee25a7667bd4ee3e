//! How far a run is, as one line on a terminal.

use og_base::NoMemory;
use og_par::Gate;
use og_progress::Progress;
use std::alloc::Global;
use std::io::Eprint;
use std::sync::atomic::{AtomicBool, AtomicUsize, Ordering};
use std::thread;
use std::time::{Clock, Duration, Instant};

// After how many milliseconds of a run it is shown how far it is.
const SHOWN_AFTER: u64 = 2_000;

// How many milliseconds the watch pauses, at least and at most: a part of the time so far, so that a short run does not
// wait for it.
const LEAST_PAUSE: u64 = 1;

const MOST_PAUSE: u64 = 100;

const PARTS: u32 = 20;

// How often it is looked whether the terminal is free.
const LOOKS: u32 = 1_000_000;

/// How far a run is. One thread tells it, and another shows it on standard error.
#[derive(Drop)]
pub struct Meter<'a, R> {
    rt: &'a R,
    statement: AtomicUsize,
    count: AtomicUsize,
    done: AtomicUsize,
    all: AtomicUsize,
    has_ended: AtomicBool,
    is_shown: AtomicBool,
    // Whether a thread writes to the terminal.
    is_taken: AtomicBool,
}

impl<'a, R> Gate for Meter<'a, R> {
    fn enter(&self, _piece: usize) {}
}

impl<'a, R: Eprint> Progress for Meter<'a, R> {
    fn begin(&self, statement: usize, count: usize) {
        self.all.store(0, Ordering::SeqCst);
        self.count.store(count, Ordering::SeqCst);
        self.statement.store(statement, Ordering::SeqCst);
    }

    fn advance(&self, done: usize, all: usize) {
        self.done.store(done, Ordering::SeqCst);
        self.all.store(all, Ordering::SeqCst);
    }

    // Takes the line away. It is not shown again.
    fn end(&self) {
        self.has_ended.store(true, Ordering::SeqCst);
        self.take();
    }
}

impl<'a, R> Meter<'a, R> {
    /// A meter of a run that has not begun.
    pub fn new(rt: &'a R) -> Meter<'a, R> {
        Meter {
            rt,
            statement: AtomicUsize::new(0),
            count: AtomicUsize::new(0),
            done: AtomicUsize::new(0),
            all: AtomicUsize::new(0),
            has_ended: AtomicBool::new(false),
            is_shown: AtomicBool::new(false),
            is_taken: AtomicBool::new(false),
        }
    }
}

impl<'a, R: Eprint> Meter<'a, R> {
    /// Takes the terminal for what is to be written, without the line. A terminal that another thread does not give back is
    /// not waited for without end.
    pub fn take(&self) {
        'looks: for _ in 0..LOOKS {
            if !self.is_taken.swap(true, Ordering::SeqCst) {
                break;
            }
            thread::yield_now();
        }
        if self.is_shown.swap(false, Ordering::SeqCst) {
            let _ = self.rt.eprint("\r\x1b[K");
        }
    }

    /// Gives the terminal back.
    pub fn give_back(&self) {
        self.is_taken.store(false, Ordering::SeqCst);
    }
}

impl<'a, R: Eprint + AllocGlobal> Meter<'a, R> {
    // Shows the line, if the run goes on and the terminal is free.
    fn show(&self) {
        if self.is_taken.swap(true, Ordering::SeqCst) {
            return;
        }
        if !self.has_ended.load(Ordering::SeqCst) {
            if let Ok(line) = self.line(self.rt.alloc()) {
                self.is_shown.store(true, Ordering::SeqCst);
                let _ = self.rt.eprint(line.as_str());
            }
        }
        self.give_back();
    }

    // The line, over the one before it.
    fn line(&self, alloc: Global) -> Result<String, NoMemory> {
        let statement = self.statement.load(Ordering::SeqCst);
        let count = self.count.load(Ordering::SeqCst);
        let done = self.done.load(Ordering::SeqCst);
        let all = self.all.load(Ordering::SeqCst);
        if all == 0 {
            return Ok(format!(in alloc; "\rstatement {statement} of {count}\x1b[K")?);
        }
        let percent = (done / (all / 100).max(1)).min(100);
        Ok(format!(in alloc; "\rstatement {statement} of {count}, {percent} %\x1b[K")?)
    }
}

/// Shows how far the run is, from two seconds after now until it has ended. Ends at once where the clock cannot be read.
pub fn watch<R: Clock + Eprint + AllocGlobal>(meter: &Meter<'_, R>) {
    let rt = meter.rt;
    let Ok(start) = Instant::now(rt) else {
        return;
    };
    'looks: for _ in 0..u64::MAX {
        if meter.has_ended.load(Ordering::SeqCst) {
            return;
        }
        let Ok(time) = start.elapsed(rt) else {
            return;
        };
        if time >= Duration::from_millis(SHOWN_AFTER) {
            meter.show();
        }
        let pause = (time / PARTS).max(Duration::from_millis(LEAST_PAUSE));
        thread::sleep(rt, pause.min(Duration::from_millis(MOST_PAUSE)));
    }
}
