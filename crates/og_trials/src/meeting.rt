//! A run in which two workers have to be at work at once.
use crate::report::Report;
use crate::trial::{Setting, ran_gated};
use og_case_files::{Case, Refusal};
use og_par::Gate;
use std::sync::atomic::{AtomicBool, Ordering};
use std::thread::Threads;

// How often a party looks for the other.
const LOOKS: u64 = 1_000_000_000;

// A gate of two parties, the parts 0 and 1 of a phase. Each waits until the other has come.
#[derive(Drop)]
struct Meeting {
    parties: [Party; 2],
    // Whether one has looked for the other to no end.
    is_missed: AtomicBool,
}

// Whether a party has come, and whether it has seen that the other has.
#[derive(Drop)]
struct Party {
    has_come: AtomicBool,
    has_seen: AtomicBool,
}

impl Party {
    fn new() -> Party {
        Party {
            has_come: AtomicBool::new(false),
            has_seen: AtomicBool::new(false),
        }
    }
}

impl Meeting {
    fn new() -> Meeting {
        Meeting {
            parties: [Party::new(), Party::new()],
            is_missed: AtomicBool::new(false),
        }
    }

    // One party comes and looks for the other.
    fn come(&self, own: &Party, other: &Party) {
        own.has_come.store(true, Ordering::SeqCst);
        for _ in 0..LOOKS {
            if other.has_come.load(Ordering::SeqCst) {
                own.has_seen.store(true, Ordering::SeqCst);
                return;
            }
        }
        self.is_missed.store(true, Ordering::SeqCst);
    }

    // Whether both have seen each other each time.
    fn was_held(&self) -> bool {
        let [first, second] = &self.parties;
        first.has_seen.load(Ordering::SeqCst)
            && second.has_seen.load(Ordering::SeqCst)
            && !self.is_missed.load(Ordering::SeqCst)
    }
}

impl Gate for Meeting {
    fn enter(&self, piece: usize) {
        let [first, second] = &self.parties;
        match piece {
            0 => self.come(first, second),
            1 => self.come(second, first),
            _ => {}
        }
    }
}

/// Runs the case by two workers that have to be at work at once: those that its words ask for, or, where they leave
/// the number open, those of the option after them.
pub fn try_meeting<H: Threads + Sync + AllocGlobal>(
    rt: &H,
    case: &Case,
    report: &mut Report,
) -> Result<(), Refusal> {
    let meeting = Meeting::new();
    let workers = if case.leaves_workers() { Some(2) } else { None };
    let setting = Setting {
        workers,
        ..Setting::WHOLE
    };
    let outcome = ran_gated(rt, case, case.script.as_slice(), setting, Some(&meeting))?;
    let is_well = outcome.is_wanted(case) && meeting.was_held();
    report.add(
        rt.alloc(),
        case,
        "by two workers at once",
        &outcome,
        is_well,
    )
}
