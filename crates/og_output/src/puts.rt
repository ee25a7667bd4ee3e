//! Pieces of output, put into a sink.
ghost use Rattle.std.specs.Prelude.{◌≡◌, IfSome, map};
ghost use Rattle.std.specs.List.{flat_map};
ghost use Rattle.og_value.specs.Cells.{fixed_text};
ghost use Rattle.og_value.specs.Order.{row_order};
ghost use Rattle.og_value.specs.Values.{row_at};
ghost use Rattle.og_rel.specs.Relations.{relation_at};
ghost use Rattle.og_rel.specs.Shares.{rows_of};
ghost use Rattle.og_query.specs.Fits.{IsFitQuery, Schemas};
ghost use Rattle.og_plan.specs.PlanOf.{plan_of};
ghost use Rattle.og_plan.specs.Text.{line_text, plan_text};
ghost use Rattle.og_faults.specs.Counts.{IsFaultCount, is_unput};
ghost use Rattle.og_faults.specs.Faults.{fault_line};
ghost use Rattle.og_output.specs.Puts.{IsPut};
ghost use Rattle.og_output.specs.Records.{layout, records};

use crate::blocks::{BlockText, blocks_of};
use crate::records::header_text;
use crate::sights::{DayRows, rows_of_day};
use og_base::RefDay;
use og_faults::Fault;
use og_io::{PutRefusal, Sink};
use og_par::{Crew, Gate, par_rows};
use og_plan::{PlanLine, fitting_queries, plan_lines, plan_of};
use og_query::Query;
use og_rel::Rel;
use og_value::{Row, Schema, Sight};
use std::alloc::Global;
use std::thread::Threads;

// How many blocks a round has, whose texts stand in memory at once, where several workers make them. One alone has a
// block in each round.
const ROUND: usize = 256;

// How many blocks a worker has at least: the text of fewer is made sooner than a thread begins.
const LEAST: usize = 4;

/// Puts the piece, where it is not empty.
pub fn put<K: Sink>(piece: &[u8], out: &mut K) -> Result<(), PutRefusal>
    ensures put { IsPut (K.written out.old) (K.written out.new) piece.now result }
    ensures counted { IsFaultCount (is_unput result) (K.faults out.old) (K.faults out.new) }
{
    if piece.is_empty() {
        return Ok(());
    }
    out.put(piece)
}

/// Puts the rows of the relation on the day as a PRINT writes them: a record of the columns' names, then one of
/// the texts of each row's values. Workers, 1 to `MAX_WORKERS` of og_par, put the rows in order and make the text block
/// by block, some blocks in each round, so that that of many rows never stands in memory whole.
pub fn put_relation<H: Threads + Sync, K: Sink, G: Gate + Sync>(
    crew: &Crew<'_, H, G>,
    columns: &Schema,
    rel: &Rel<Row>,
    day: RefDay,
    out: &mut K,
) -> Result<(), PutRefusal>
    ensures put { IsPut (K.written out.old) (K.written out.new) (layout columns.now (relation_at row_order row_at rel.now day)) result }
    ensures counted { IsFaultCount (is_unput result) (K.faults out.old) (K.faults out.new) }
{
    let rows = rows_of_day(crew, rel, day)?;
    put_layout(crew, columns, &rows, out)
}

// Puts the record of the columns' names, and those of the rows of the day.
fn put_layout<H: Threads + Sync, K: Sink, G: Gate + Sync>(
    crew: &Crew<'_, H, G>,
    columns: &Schema,
    rows: &DayRows,
    out: &mut K,
) -> Result<(), PutRefusal>
    requires texts { IfSome rows.now.texts (λ texts. flat_map (λ text. text.items) texts.items ≡ records (map (map fixed_text) (rows_of rows.now.lists.items))) }
    ensures put { IsPut (K.written out.old) (K.written out.new) (layout columns.now (rows_of rows.now.lists.items)) result }
    ensures counted { IsFaultCount (is_unput result) (K.faults out.old) (K.faults out.new) }
{
    let alloc = crew.alloc();
    let header = header_text(alloc, columns)?;
    put(header.as_slice(), out)?;
    if let Some(texts) = &rows.texts {
        return put_texts(texts.as_slice(), out);
    }
    let blocks = blocks_of(alloc, rows.lists.as_slice())?;
    put_blocks(crew, blocks.as_slice(), out)
}

// Puts the records of the rows of the blocks, those of a round after the other.
fn put_blocks<H: Threads + Sync, K: Sink, G: Gate + Sync>(
    crew: &Crew<'_, H, G>,
    blocks: &[&[Sight]],
    out: &mut K,
) -> Result<(), PutRefusal>
    ensures put { IsPut (K.written out.old) (K.written out.new) (records (map (map fixed_text) (flat_map (λ b. b.now) blocks.now))) result }
    ensures counted { IsFaultCount (is_unput result) (K.faults out.old) (K.faults out.new) }
{
    let round = if crew.workers() == 1 { 1 } else { ROUND };
    let mut next = 0;
    'rounds: while next < blocks.len() {
        let end = next + (blocks.len() - next).min(round);
        put_round(crew, &blocks[next..end], out)?;
        next = end;
    }
    Ok(())
}

// Puts the records of the rows of the blocks of a round.
fn put_round<H: Threads + Sync, K: Sink, G: Gate + Sync>(
    crew: &Crew<'_, H, G>,
    blocks: &[&[Sight]],
    out: &mut K,
) -> Result<(), PutRefusal>
    ensures put { IsPut (K.written out.old) (K.written out.new) (records (map (map fixed_text) (flat_map (λ b. b.now) blocks.now))) result }
    ensures counted { IsFaultCount (is_unput result) (K.faults out.old) (K.faults out.new) }
{
    let busy = crew.at_most(blocks.len() / LEAST);
    let texts = par_rows(&busy, blocks, &BlockText)?;
    put_texts(texts.as_slice(), out)
}

// Puts the texts, one after the other.
fn put_texts<K: Sink>(texts: &[Vec<u8>], out: &mut K) -> Result<(), PutRefusal>
    ensures put { IsPut (K.written out.old) (K.written out.new) (flat_map (λ text. text.items) texts.now) result }
    ensures counted { IsFaultCount (is_unput result) (K.faults out.old) (K.faults out.new) }
{
    'texts: for text in texts {
        put(text.as_slice(), out)?;
    }
    Ok(())
}

/// Puts the text of the plan of the query, which fits, line by line: the text of a deep plan grows with the square
/// of its depth.
pub fn put_plan<K: Sink>(alloc: Global, query: &Query, out: &mut K) -> Result<(), PutRefusal>
    requires { (schemas : Schemas) × IsFitQuery schemas query.now }
    ensures put { IsPut (K.written out.old) (K.written out.new) (plan_text (plan_of query.now)) result }
    ensures counted { IsFaultCount (is_unput result) (K.faults out.old) (K.faults out.new) }
{
    fitting_queries();
    let plan = plan_of(alloc, query)?;
    let made = plan_lines(alloc, &plan);
    drop(plan);
    let lines = made?;
    put_lines(alloc, lines.as_slice(), out)
}

// Puts the lines of a plan, one after the other.
fn put_lines<K: Sink>(alloc: Global, lines: &[PlanLine], out: &mut K) -> Result<(), PutRefusal>
    ensures put { IsPut (K.written out.old) (K.written out.new) (flat_map line_text lines.now) result }
    ensures counted { IsFaultCount (is_unput result) (K.faults out.old) (K.faults out.new) }
{
    'lines: for line in lines {
        put_line(alloc, line, out)?;
    }
    Ok(())
}

// Puts a line of a plan.
fn put_line<K: Sink>(alloc: Global, line: &PlanLine, out: &mut K) -> Result<(), PutRefusal>
    ensures put { IsPut (K.written out.old) (K.written out.new) (line_text line.now) result }
    ensures counted { IsFaultCount (is_unput result) (K.faults out.old) (K.faults out.new) }
{
    let text = line.text(alloc)?;
    put(text.as_slice(), out)
}

/// Puts the line of the fault.
pub fn put_fault<K: Sink>(alloc: Global, fault: &Fault, out: &mut K) -> Result<(), PutRefusal>
    ensures put { IsPut (K.written out.old) (K.written out.new) (fault_line fault.now) result }
    ensures counted { IsFaultCount (is_unput result) (K.faults out.old) (K.faults out.new) }
{
    let line = fault.line(alloc)?;
    put(line.as_bytes(), out)
}
