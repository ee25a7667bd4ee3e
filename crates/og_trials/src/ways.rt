//! The ways in which a case is run.
ghost use Rattle.std.specs.Prelude.{IfOk, IfSome};
ghost use Rattle.og_print.specs.Printed.{IsPrintable};

use crate::failing::{try_files, try_sinks, try_sources};
use crate::meeting::try_meeting;
use crate::queries::ask_queries;
use crate::report::Report;
use crate::told::try_told;
use crate::trial::{Outcome, Setting, ran};
use og_base::NoMemory;
use og_case_files::{Case, Refusal};
use og_lex::{LexRefusal, lex};
use og_parse::{ParseRefusal, Script, parse};
use og_print::print_script;
use std::alloc::Global;
use std::thread::Threads;

/// In which ways each case is run.
#[derive(Clone, Copy, Debug)]
pub enum Ways {
    /// Once, with devices that do not fail, and where the words are `load` and a number, or `run --workers 2`, once
    /// more by two workers that have to be at work at once.
    Once,
    /// Once, and again in each way of docs/CASES.md.
    All,
}

/// Runs the case in the ways. One that does not go well as it stands is run in no other.
pub fn try_case<H: Threads + Sync + AllocGlobal>(
    rt: &H,
    case: &Case,
    ways: Ways,
    report: &mut Report,
) -> Result<(), Refusal> {
    report.begin_case();
    let whole = ran(rt, case, case.script.as_slice(), Setting::WHOLE)?;
    let is_well = whole.is_wanted(case);
    report.add(rt.alloc(), case, "as it stands", &whole, is_well)?;
    if !is_well {
        return Ok(());
    }
    try_told(rt, case, report)?;
    match ways {
        Ways::Once if is_by_two(case) => try_meeting(rt, case, report),
        Ways::Once => Ok(()),
        Ways::All => try_again(rt, case, &whole, report),
    }
}

// Whether the words ask for two workers, or are `load` and a number, so that two can be asked for.
fn is_by_two(case: &Case) -> bool {
    case.runs_by_two() || case.has_own_script() && case.leaves_workers()
}

// Runs the case again in each way, where it went well as it stands.
fn try_again<H: Threads + Sync + AllocGlobal>(
    rt: &H,
    case: &Case,
    whole: &Outcome,
    report: &mut Report,
) -> Result<(), Refusal> {
    if case.leaves_workers() {
        try_workers(rt, case, report)?;
    }
    try_sinks(rt, case, whole, report)?;
    if case.has_own_script() {
        return try_files(rt, case, whole, &[], report);
    }
    let script = case.script.as_slice();
    let bytewise = Setting {
        step: 1,
        ..Setting::WHOLE
    };
    try_script(rt, case, script, bytewise, "a byte a call", report)?;
    try_sources(rt, case, whole, report)?;
    match tree_of(rt.alloc(), script)? {
        Some(tree) => try_tree(rt, case, whole, &tree, report),
        None => try_text(rt.alloc(), case, b"", report),
    }
}

// Runs the case with the option of the words for one worker and for more.
fn try_workers<H: Threads + Sync + AllocGlobal>(
    rt: &H,
    case: &Case,
    report: &mut Report,
) -> Result<(), Refusal> {
    for workers in &[1, 2, 64] {
        let setting = Setting {
            workers: Some(*workers),
            ..Setting::WHOLE
        };
        let way = format!(in rt.alloc(); "with the words --workers {workers}")?;
        let script = case.script.as_slice();
        try_script(rt, case, script, setting, way.as_str(), report)?;
    }
    Ok(())
}

// Runs the script on devices that do not fail.
fn try_script<H: Threads + Sync + AllocGlobal>(
    rt: &H,
    case: &Case,
    script: &[u8],
    setting: Setting,
    way: &str,
    report: &mut Report,
) -> Result<(), Refusal> {
    let outcome = ran(rt, case, script, setting)?;
    let is_well = outcome.is_wanted(case);
    report.add(rt.alloc(), case, way, &outcome, is_well)
}

// The tree of the script, if it has one.
fn tree_of(alloc: Global, script: &[u8]) -> Result<Option<Script>, NoMemory>
    ensures { IfOk result (λ tree. IfSome tree (λ tree. IsPrintable tree.stmts)) }
{
    let tokens = match lex(alloc, script) {
        Ok(tokens) => tokens,
        Err(LexRefusal::NoMemory) => return Err(NoMemory),
        Err(_) => return Ok(None),
    };
    match parse(alloc, script, tokens.as_slice()) {
        Ok(tree) => Ok(Some(tree)),
        Err(ParseRefusal::NoMemory) => Err(NoMemory),
        Err(_) => Ok(None),
    }
}

// Has the files fail, prints the tree of the case, runs what is printed, and asks the queries that it
// prints anew.
fn try_tree<H: Threads + Sync + AllocGlobal>(
    rt: &H,
    case: &Case,
    whole: &Outcome,
    tree: &Script,
    report: &mut Report,
) -> Result<(), Refusal>
    requires { IsPrintable tree.now.stmts }
{
    try_files(rt, case, whole, tree.stmts.as_slice(), report)?;
    let text = print_script(rt.alloc(), tree)?;
    let text = text.as_slice();
    try_text(rt.alloc(), case, text, report)?;
    try_script(rt, case, text, Setting::WHOLE, "printed again", report)?;
    ask_queries(rt, case, tree.stmts.as_slice(), report)
}

// Compares what was printed for the script with what the case says of it.
fn try_text(alloc: Global, case: &Case, found: &[u8], report: &mut Report) -> Result<(), Refusal> {
    let wanted = case.printed.as_slice();
    if wanted.is_empty() {
        return Ok(());
    }
    report.compare(alloc, case, "as it is printed", wanted, found)
}
