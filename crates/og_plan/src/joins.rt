//! The join of a FROM item with those before it, by the parts that belong there.
ghost use Rattle.std.specs.Prelude.{◌≡◌, IfOk, filter, not};
ghost use Rattle.std.specs.List.{flat_map};
ghost use Rattle.std.specs.Option.{is_some};
ghost use Rattle.og_plan.specs.Joins as spec;

use crate::parts::add_copy;
use crate::places::column_of;
use crate::plan::{ColPair, Plan};
use og_base::NoMemory;
use og_query::Cond;
use og_value::{Cmp, Kind, Pred};
use sqlite_items::{Boxed, Items};
use std::alloc::Global;

/// A column of an earlier item and one of the item whose columns begin at that place, where the two are
/// such columns. Takes no memory.
pub fn across(start: usize, left: Option<usize>, right: Option<usize>) -> Option<ColPair>
    ensures { result ≡ spec.across start left right }
{
    let (Some(a), Some(b)) = (left, right) else {
        return None;
    };
    if a < start && start <= b {
        Some(ColPair {
            left: a,
            right: b - start,
        })
    } else if b < start && start <= a {
        Some(ColPair {
            left: b,
            right: a - start,
        })
    } else {
        None
    }
}

// Whether both kinds are INT, or both are TEXT.
fn are_key_kinds(left: Option<Kind>, right: Option<Kind>) -> bool
    ensures { result ≡ spec.are_key_kinds left right }
{
    match (left, right) {
        (Some(Kind::Int), Some(Kind::Int)) => true,
        (Some(Kind::Text), Some(Kind::Text)) => true,
        _ => false,
    }
}

// The kind of the column at a place, where there is one.
fn kind_at(kinds: &[Kind], place: Option<usize>) -> Option<Kind>
    ensures { result ≡ spec.kind_at kinds.now place }
{
    match place {
        Some(place) => kinds.get(place).copied(),
        None => None,
    }
}

// The columns of an equal part: both INT or both TEXT, one of the item and one of an earlier item.
fn key_of(kinds: &[Kind], start: usize, part: &Cond) -> Option<ColPair>
    ensures { result ≡ spec.key_of kinds.now start part.now }
{
    match part {
        Cond::Compare {
            op: Cmp::Eq,
            left,
            right,
        } => {
            let left = column_of(left);
            let right = column_of(right);
            if are_key_kinds(kind_at(kinds, left), kind_at(kinds, right)) {
                across(start, left, right)
            } else {
                None
            }
        }
        _ => None,
    }
}

// The columns of a part that says OVERLAPS, one of the item and one of an earlier item.
fn overlap_of(start: usize, part: &Cond) -> Option<ColPair>
    ensures { result ≡ spec.overlap_of start part.now }
{
    match part {
        Cond::Relate {
            pred: Pred::Overlaps,
            left,
            right,
        } => { across(start, column_of(left), column_of(right)) }
        _ => None,
    }
}

// The keys of the parts.
fn keys_of(
    alloc: Global,
    kinds: &[Kind],
    start: usize,
    parts: &Items<Cond>,
) -> Result<Items<ColPair>, NoMemory>
    ensures { IfOk result (λ keys. keys ≡ flat_map (λ part. spec.listed (spec.key_of kinds.now start part)) parts.now) }
{
    let mut keys = Items::new(alloc);
    'parts: for part in parts.as_slice() {
        if let Some(key) = key_of(kinds, start, part) {
            keys.push(key)?;
        }
    }
    Ok(keys)
}

// The parts that are no keys.
fn without_keys(
    alloc: Global,
    kinds: &[Kind],
    start: usize,
    parts: &Items<Cond>,
) -> Result<Items<Cond>, NoMemory>
    ensures { IfOk result (λ rest. rest ≡ filter (λ part. not (is_some (spec.key_of kinds.now start part))) parts.now) }
{
    let mut rest = Items::new(alloc);
    'parts: for part in parts.as_slice() {
        if key_of(kinds, start, part).is_none() {
            add_copy(alloc, part, &mut rest)?;
        }
    }
    Ok(rest)
}

// The pairs of columns that the parts say overlap.
fn overlaps_of(alloc: Global, start: usize, parts: &Items<Cond>) -> Result<Items<ColPair>, NoMemory>
    ensures { IfOk result (λ pairs. pairs ≡ flat_map (λ part. spec.listed (spec.overlap_of start part)) parts.now) }
{
    let mut pairs = Items::new(alloc);
    'parts: for part in parts.as_slice() {
        if let Some(pair) = overlap_of(start, part) {
            pairs.push(pair)?;
        }
    }
    Ok(pairs)
}

// The parts as a filter, where there are any.
pub(crate) fn filtered(alloc: Global, input: Plan, parts: Items<Cond>) -> Result<Plan, NoMemory>
    ensures { IfOk result (λ p. p ≡ spec.filtered input parts) }
{
    if parts.is_empty() {
        return Ok(input);
    }
    Ok(Plan::Filter {
        input: Boxed::new(alloc, input)?,
        parts,
    })
}

// A join on the first pair of periods, where there is one, with all parts as its rest; otherwise the
// filtered product.
fn overlap_joined(
    alloc: Global,
    left: Boxed<Plan>,
    right: Boxed<Plan>,
    pairs: &Items<ColPair>,
    parts: Items<Cond>,
) -> Result<Plan, NoMemory>
    ensures { IfOk result (λ p. p ≡ spec.overlap_joined left right pairs.now parts) }
{
    match pairs.as_slice() {
        [] => filtered(alloc, Plan::Product { left, right }, parts),
        [pair, ..] => Ok(Plan::OverlapJoin {
            left,
            right,
            pair: *pair,
            rest: parts,
        }),
    }
}

// The join: on its keys, else on its first overlapping periods, else a filtered product.
pub(crate) fn joined_by(
    alloc: Global,
    kinds: &[Kind],
    start: usize,
    left: Boxed<Plan>,
    right: Boxed<Plan>,
    parts: Items<Cond>,
) -> Result<Plan, NoMemory>
    ensures { IfOk result (λ p. p ≡ spec.joined_by kinds.now start left right parts) }
{
    let pairs = keys_of(alloc, kinds, start, &parts)?;
    if pairs.is_empty() {
        let overlaps = overlaps_of(alloc, start, &parts)?;
        return overlap_joined(alloc, left, right, &overlaps, parts);
    }
    let rest = without_keys(alloc, kinds, start, &parts)?;
    Ok(Plan::KeyJoin {
        left,
        right,
        pairs,
        rest,
    })
}
