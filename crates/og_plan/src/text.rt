//! The text of a plan: its lines, those of a node before those of its inputs, two spaces for each
//! level.
ghost use Rattle.std.specs.Prelude.{◌≡◌, ◌++◌, ◌+◌, ◌∷◌, [], ℕ, List, IfOk, OnOk, length, map, reverse};
ghost use Rattle.std.specs.List.{flat_map};
ghost use Rattle.og_plan.specs.Text as spec;
ghost use Rattle.og_plan.specs.Text.{line_text, lines_from, plan_text};
ghost use Rattle.og_plan.specs.Words.{semi_words, words_of};

use crate::plan::{Plan, PlanSemi};
use crate::words::{combine_word, counted, key_words, overlap_words, scan_words, semi_words, word};
use og_base::NoMemory;
use std::alloc::Global;

/// A line of the text of a plan: its level, and the words at that level.
#[derive(Drop)]
pub struct PlanLine {
    level: usize,
    words: Vec<u8>,
}

// Appends two spaces for each level.
fn indent(level: usize, out: &mut Vec<u8>) -> Result<(), NoMemory>
    ensures { OnOk result (out.new.items ≡ out.old.items ++ spec.indent level) }
{
    'levels: for _ in 0..level {
        out.extend_from_slice(b"  ")?;
    }
    Ok(())
}

impl PlanLine {
    // Appends the text of the line.
    fn write(&self, out: &mut Vec<u8>) -> Result<(), NoMemory>
        ensures { OnOk result (out.new.items ≡ out.old.items ++ line_text self.now) }
    {
        indent(self.level, out)?;
        out.extend_from_slice(self.words.as_slice())?;
        out.push(b'\n')?;
        Ok(())
    }

    /// The text of the line: two spaces for each level, its words and a line feed. Refused only for
    /// want of memory.
    pub fn text(&self, alloc: Global) -> Result<Vec<u8>, NoMemory>
        ensures { IfOk result (λ v. v.items ≡ line_text self.now) }
    {
        let mut text = Vec::new(alloc);
        self.write(&mut text)?;
        Ok(text)
    }
}

// Adds a line of the words, where they were made, and gives the level below it. The lines are in memory,
// and so never past the numbers that count them.
fn add_line(
    level: usize,
    made: Result<Vec<u8>, NoMemory>,
    lines: &mut Vec<PlanLine>,
) -> Result<usize, NoMemory>
    ensures level { IfOk result (λ next. next ≡ level + 1) }
    ensures lines { (text : List ℕ) → IfOk made (λ words. words.items ≡ text) →
        OnOk result (flat_map line_text lines.new.items ≡ flat_map line_text lines.old.items ++ lines_from level (text ∷ [])) }
{
    let words = made?;
    lines.push(PlanLine { level, words })?;
    level.checked_add(1).ok_or(NoMemory)
}

// Adds a line for each semi, the last first, each a level deeper than the one before, and gives the
// level below them.
fn add_semis(
    alloc: Global,
    semis: &[PlanSemi],
    level: usize,
    lines: &mut Vec<PlanLine>,
) -> Result<usize, NoMemory>
    ensures level { IfOk result (λ next. next ≡ level + length semis.now) }
    ensures lines { OnOk result (flat_map line_text lines.new.items ≡ flat_map line_text lines.old.items ++ lines_from level (map semi_words (reverse semis.now))) }
{
    let mut next = level;
    'semis: for k in (0..semis.len()).rev() {
        next = add_line(next, semi_words(alloc, &semis[k]), lines)?;
    }
    Ok(next)
}

// Adds the lines of the node of a plan, and gives the level of its inputs.
fn add_node(
    alloc: Global,
    plan: &Plan,
    level: usize,
    lines: &mut Vec<PlanLine>,
) -> Result<usize, NoMemory>
    ensures level { IfOk result (λ next. next ≡ level + length (words_of plan.now)) }
    ensures lines { OnOk result (flat_map line_text lines.new.items ≡ flat_map line_text lines.old.items ++ lines_from level (words_of plan.now)) }
{
    match plan {
        Plan::Scan { name, .. } => add_line(level, scan_words(alloc, name), lines),
        Plan::Filter { parts, .. } => {
            add_line(level, counted(alloc, b"filter ", parts.len()), lines)
        }
        Plan::Product { .. } => add_line(level, word(alloc, b"product"), lines),
        Plan::KeyJoin { pairs, rest, .. } => {
            add_line(level, key_words(alloc, pairs.as_slice(), rest.len()), lines)
        }
        Plan::OverlapJoin { pair, rest, .. } => {
            add_line(level, overlap_words(alloc, *pair, rest.len()), lines)
        }
        Plan::Project { items, .. } => {
            add_line(level, counted(alloc, b"project ", items.len()), lines)
        }
        Plan::Combine { op, .. } => add_line(level, word(alloc, combine_word(*op)), lines),
        Plan::Semis { semis, .. } => add_semis(alloc, semis.as_slice(), level, lines),
    }
}

// Adds the lines of a plan that stands at that level.
fn add_lines(
    alloc: Global,
    plan: &Plan,
    level: usize,
    lines: &mut Vec<PlanLine>,
) -> Result<(), NoMemory>
    ensures { OnOk result (flat_map line_text lines.new.items ≡ flat_map line_text lines.old.items ++ spec.text_at plan.now level) }
{
    let next = add_node(alloc, plan, level, lines)?;
    match plan {
        Plan::Scan { .. } => Ok(()),
        Plan::Filter { input, .. } | Plan::Project { input, .. } | Plan::Semis { input, .. } => {
            add_lines(alloc, input.get(), next, lines)
        }
        Plan::Product { left, right }
        | Plan::KeyJoin { left, right, .. }
        | Plan::OverlapJoin { left, right, .. }
        | Plan::Combine { left, right, .. } => {
            add_lines(alloc, left.get(), next, lines)?;
            add_lines(alloc, right.get(), next, lines)
        }
    }
}

/// The lines of the text of the plan (docs/LANGUAGE.md, "Plans"): their texts, one after the other,
/// are the text of the plan. They take no room for their levels. Refused only for want of memory.
pub fn plan_lines(alloc: Global, plan: &Plan) -> Result<Vec<PlanLine>, NoMemory>
    ensures { IfOk result (λ lines. flat_map line_text lines.items ≡ plan_text plan.now) }
{
    let mut lines = Vec::new(alloc);
    add_lines(alloc, plan, 0, &mut lines)?;
    Ok(lines)
}

// The texts of the lines, one after the other.
fn text_of(alloc: Global, lines: &[PlanLine]) -> Result<Vec<u8>, NoMemory>
    ensures { IfOk result (λ v. v.items ≡ flat_map line_text lines.now) }
{
    let mut text = Vec::new(alloc);
    'lines: for line in lines {
        line.write(&mut text)?;
    }
    Ok(text)
}

/// The text of the plan: a line for each node, the node before its inputs, the left input before the
/// right, two spaces for each level, and in place of one line for semis a line for each of them, the
/// last first (docs/LANGUAGE.md, "Plans"). Refused only for want of memory.
pub fn explain(alloc: Global, plan: &Plan) -> Result<Vec<u8>, NoMemory>
    ensures { IfOk result (λ v. v.items ≡ plan_text plan.now) }
{
    let lines = plan_lines(alloc, plan)?;
    text_of(alloc, lines.as_slice())
}
