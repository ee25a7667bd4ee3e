//! Runs with devices that fail at each of their calls in turn.
use crate::report::Report;
use crate::trial::{Outcome, Setting, ran};
use og_case_files::{Case, Refusal};
use og_syntax::Stmt;
use std::thread::Threads;

/// Runs the case with the sink failing at each of its calls, until a run makes fewer calls.
pub fn try_sinks<H: Threads + Sync + AllocGlobal>(
    rt: &H,
    case: &Case,
    whole: &Outcome,
    report: &mut Report,
) -> Result<(), Refusal> {
    for call in 1..u64::MAX {
        let setting = Setting {
            sink_fails: Some(call),
            ..Setting::WHOLE
        };
        let outcome = ran(rt, case, case.script.as_slice(), setting)?;
        let is_last = outcome.sink_calls < call;
        let is_well = if is_last {
            outcome.is_wanted(case)
        } else {
            is_unwritten(&outcome, call, whole, case)
        };
        let way = format!(in rt.alloc(); "with call {call} of the sink failing")?;
        report.add(rt.alloc(), case, way.as_str(), &outcome, is_well)?;
        if is_last {
            return Ok(());
        }
    }
    Ok(())
}

// Whether the run ended with the write fault at that call, with a front of the output and the files as
// the calls before left them, and no further call.
fn is_unwritten(outcome: &Outcome, call: u64, whole: &Outcome, case: &Case) -> bool {
    outcome.status == 8
        && outcome.has_front(case)
        && outcome.sink_calls == call
        && outcome.has_files_after(outcome.files.calls(), whole, case)
}

// The bytes that a source which fails gives a call: one where the whole run is to write files.
fn step_of(whole: &Outcome) -> usize {
    if whole.files.writes().is_empty() {
        24
    } else {
        1
    }
}

/// Runs the case with the source failing at each of its calls, until a run makes fewer calls.
pub fn try_sources<H: Threads + Sync + AllocGlobal>(
    rt: &H,
    case: &Case,
    whole: &Outcome,
    report: &mut Report,
) -> Result<(), Refusal> {
    for call in 1..u64::MAX {
        let setting = Setting {
            step: step_of(whole),
            source_fails: Some(call),
            ..Setting::WHOLE
        };
        let outcome = ran(rt, case, case.script.as_slice(), setting)?;
        let is_last = outcome.source_calls < call;
        let is_well = if is_last {
            outcome.is_wanted(case)
        } else {
            is_unread(&outcome, call)
        };
        let way = format!(in rt.alloc(); "with call {call} of the source failing")?;
        report.add(rt.alloc(), case, way.as_str(), &outcome, is_well)?;
        if is_last {
            return Ok(());
        }
    }
    Ok(())
}

// Whether the run ended with the read fault at that call, with nothing written and no further call.
fn is_unread(outcome: &Outcome, call: u64) -> bool {
    outcome.status == 6
        && outcome.written.is_empty()
        && outcome.source_calls == call
        && outcome.sink_calls == 0
        && outcome.files.calls() == 0
        && outcome.names == 0
}

/// Runs the case with the files failing at each of their calls, until a run makes fewer calls.
pub fn try_files<H: Threads + Sync + AllocGlobal>(
    rt: &H,
    case: &Case,
    whole: &Outcome,
    stmts: &[Stmt],
    report: &mut Report,
) -> Result<(), Refusal> {
    for call in 1..u64::MAX {
        let setting = Setting {
            files_fail: Some(call),
            ..Setting::WHOLE
        };
        let outcome = ran(rt, case, case.script.as_slice(), setting)?;
        let is_last = outcome.files.calls() < call;
        let is_well = if is_last {
            outcome.is_wanted(case)
        } else {
            is_unfiled(&outcome, call, whole, stmts, case)
        };
        let way = format!(in rt.alloc(); "with call {call} of the files failing")?;
        report.add(rt.alloc(), case, way.as_str(), &outcome, is_well)?;
        if is_last {
            return Ok(());
        }
    }
    Ok(())
}

// Whether the run ended with the file fault at that call, with a front of the output, the files as the
// calls before left them and the names that the statements before make, and no further call. Names are not
// counted where there is a live result: it is none of the database, and a DROP may keep it there.
fn is_unfiled(outcome: &Outcome, call: u64, whole: &Outcome, stmts: &[Stmt], case: &Case) -> bool {
    outcome.status == 7
        && outcome.has_front(case)
        && outcome.files.calls() == call
        && outcome.has_files_after(call.saturating_sub(1), whole, case)
        && (stmts.iter().any(|stmt| is_live(stmt)) || outcome.names == names_before(stmts, call))
}

fn is_live(stmt: &Stmt) -> bool {
    matches!(stmt, Stmt::Live { .. })
}

// How many names the statements leave before that call of the files. Each statement on files makes one.
fn names_before(stmts: &[Stmt], call: u64) -> usize {
    let mut calls = 0_u64;
    let mut names = 0_usize;
    for stmt in stmts {
        if is_on_files(stmt) {
            calls = calls.saturating_add(1);
            if calls == call {
                return names;
            }
        }
        names = names_after(stmt, names);
    }
    names
}

fn is_on_files(stmt: &Stmt) -> bool {
    matches!(
        stmt,
        Stmt::Save { .. } | Stmt::OpenFile { .. } | Stmt::ImportFile { .. }
    )
}

// How many names there are after the statement.
fn names_after(stmt: &Stmt, names: usize) -> usize {
    match stmt {
        Stmt::Create { .. } | Stmt::Keep { .. } | Stmt::OpenFile { .. } => names.saturating_add(1),
        Stmt::Drop { .. } => names.saturating_sub(1),
        _ => names,
    }
}
