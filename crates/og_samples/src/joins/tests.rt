//! Joins of deadlines, by their day and by their spans.
ghost use Rattle.std.specs.Prelude.{◌≤◌};
ghost use Rattle.og_par.specs.Limits.{max_workers};

use crate::joins::ByDay;
use crate::rows::{Deadline, Passed};
use og_base::{NoMemory, RefDay, RtSet, read_ref_day};
use og_join::{key_join, overlap_join};
use og_par::{Crew, OpenGate};
use og_rel::Rel;
use std::process::Abort;
use std::thread::Threads;

// The deadlines on the days, each a row on all days.
fn deadlines<H: AllocGlobal + Abort>(rt: &H, days: &[RefDay]) -> Rel<Deadline> {
    let mut rows = Rel::new(rt.alloc());
    for day in days {
        let all = RtSet::all(rt.alloc()).expect(rt, "memory");
        rows.push(Deadline { day: *day }, all).expect(rt, "memory");
    }
    rows
}

// Whether these are the deadlines of the relation on the day.
fn are_on(rows: &Rel<Deadline>, day: RefDay, wanted: &[RefDay]) -> bool {
    match rows.at(day) {
        Ok(found) => found.as_slice() == wanted,
        Err(_) => false,
    }
}

// Whether these are the deadlines that were found on the one day and on the last.
fn are_found(
    found: Result<Rel<Deadline>, NoMemory>,
    day: RefDay,
    on_day: &[RefDay],
    at_last: &[RefDay],
) -> bool {
    match found {
        Ok(rows) => are_on(&rows, day, on_day) && are_on(&rows, RefDay::LAST, at_last),
        Err(_) => false,
    }
}

// Whether the joins find the deadlines that have passed: by their day the one in May that both sides have, by
// their spans those of the right.
fn are_joined<H: AllocGlobal + Threads + Sync>(
    rt: &H,
    workers: usize,
    left: &Rel<Deadline>,
    right: &Rel<Deadline>,
    may: RefDay,
) -> bool
    requires least { 1 ≤ workers }
    requires most { workers ≤ max_workers }
{
    let crew = Crew::new(rt, rt.alloc(), workers, &OpenGate);
    let by_key = key_join(&crew, left, right, &ByDay, &Passed);
    if !are_found(by_key, may, &[], &[may]) {
        return false;
    }
    let by_span = overlap_join(&crew, left, right, &ByDay, &Passed);
    are_found(by_span, may, &[RefDay::FIRST], &[RefDay::FIRST, may])
}

#[test]
fn joins_find_the_rows_that_can_meet(rt: HostRuntime) {
    let may = read_ref_day(b"2020-05-01").expect(&rt, "a day");
    let left = deadlines(&rt, &[may]);
    let right = deadlines(&rt, &[RefDay::FIRST, may]);
    for workers in &[1, 2, 64] {
        assert!(rt;
            are_joined(&rt, *workers, &left, &right, may),
            "{workers} workers"
        );
    }
}
