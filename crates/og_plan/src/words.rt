//! The words of the nodes of a plan.
ghost use Rattle.std.specs.Prelude.{◌≡◌, ◌++◌, suc, codes, IfOk, OnOk};
ghost use Rattle.std.specs.List.{flat_map};
ghost use Rattle.std.specs.Fmt.{decimal};
ghost use Rattle.og_plan.specs.Words as spec;

use crate::plan::{ColPair, PlanSemi};
use itoa::Buffer;
use og_base::NoMemory;
use og_value::{Name, SetOp};
use std::alloc::Global;

// Appends a number in decimal.
fn number(n: usize, out: &mut Vec<u8>) -> Result<(), NoMemory>
    ensures { OnOk result (out.new.items ≡ out.old.items ++ decimal n) }
{
    let mut buffer = Buffer::new();
    out.extend_from_slice(buffer.format(n).as_bytes())?;
    Ok(())
}

// Appends a place, counted from 1.
fn place_text(place: usize, out: &mut Vec<u8>) -> Result<(), NoMemory>
    ensures { OnOk result (out.new.items ≡ out.old.items ++ decimal (suc place)) }
{
    let mut buffer = Buffer::new();
    out.extend_from_slice(buffer.format(place as u128 + 1).as_bytes())?;
    Ok(())
}

// Appends the places of a pair of columns, from 1.
fn pair_text(pair: ColPair, out: &mut Vec<u8>) -> Result<(), NoMemory>
    ensures { OnOk result (out.new.items ≡ out.old.items ++ spec.pair_text pair) }
{
    place_text(pair.left, out)?;
    out.push(b'=')?;
    place_text(pair.right, out)
}

// Appends further pairs, with a comma before each.
fn more_pairs(pairs: &[ColPair], out: &mut Vec<u8>) -> Result<(), NoMemory>
    ensures { OnOk result (out.new.items ≡ out.old.items ++ flat_map (λ pair. codes "," ++ spec.pair_text pair) pairs.now) }
{
    'pairs: for pair in pairs {
        out.push(b',')?;
        pair_text(*pair, out)?;
    }
    Ok(())
}

// Appends pairs, with a comma between two.
fn pairs_text(pairs: &[ColPair], out: &mut Vec<u8>) -> Result<(), NoMemory>
    ensures { OnOk result (out.new.items ≡ out.old.items ++ spec.pairs_text pairs.now) }
{
    match pairs {
        [] => Ok(()),
        [first, more @ ..] => {
            pair_text(*first, out)?;
            more_pairs(more, out)
        }
    }
}

// Appends how many parts there are beside.
fn rest_text(count: usize, out: &mut Vec<u8>) -> Result<(), NoMemory>
    ensures { OnOk result (out.new.items ≡ out.old.items ++ (codes " rest " ++ decimal count)) }
{
    out.extend_from_slice(b" rest ")?;
    number(count, out)
}

// The words of a scan.
pub(crate) fn scan_words(alloc: Global, name: &Name) -> Result<Vec<u8>, NoMemory>
    ensures { IfOk result (λ words. words.items ≡ codes "scan " ++ name.now) }
{
    let mut words = Vec::from_slice(alloc, b"scan ")?;
    words.extend_from_slice(name.bytes())?;
    Ok(words)
}

// A word alone.
pub(crate) fn word(alloc: Global, bytes: &[u8]) -> Result<Vec<u8>, NoMemory>
    ensures { IfOk result (λ words. words.items ≡ bytes.now) }
{
    Ok(Vec::from_slice(alloc, bytes)?)
}

// A word and a number after it.
pub(crate) fn counted(alloc: Global, word: &[u8], count: usize) -> Result<Vec<u8>, NoMemory>
    ensures { IfOk result (λ words. words.items ≡ word.now ++ decimal count) }
{
    let mut words = Vec::from_slice(alloc, word)?;
    number(count, &mut words)?;
    Ok(words)
}

// The words of a join on keys.
pub(crate) fn key_words(alloc: Global, pairs: &[ColPair], count: usize) -> Result<Vec<u8>, NoMemory>
    ensures { IfOk result (λ words. words.items ≡ codes "key join " ++ spec.pairs_text pairs.now ++ (codes " rest " ++ decimal count)) }
{
    let mut words = Vec::from_slice(alloc, b"key join ")?;
    pairs_text(pairs, &mut words)?;
    rest_text(count, &mut words)?;
    Ok(words)
}

// The words of a join on periods.
pub(crate) fn overlap_words(alloc: Global, pair: ColPair, count: usize) -> Result<Vec<u8>, NoMemory>
    ensures { IfOk result (λ words. words.items ≡ codes "overlap join " ++ spec.pair_text pair ++ (codes " rest " ++ decimal count)) }
{
    let mut words = Vec::from_slice(alloc, b"overlap join ")?;
    pair_text(pair, &mut words)?;
    rest_text(count, &mut words)?;
    Ok(words)
}

// The word for whether a row is to have a match.
fn semi_word(positive: bool) -> &'static [u8]
    ensures { result.now ≡ spec.semi_word positive }
{
    if positive { b"semi " } else { b"anti " }
}

// The words of a semi.
pub(crate) fn semi_words(alloc: Global, semi: &PlanSemi) -> Result<Vec<u8>, NoMemory>
    ensures { IfOk result (λ words. words.items ≡ spec.semi_words semi.now) }
{
    let mut words = Vec::from_slice(alloc, semi_word(semi.positive))?;
    words.extend_from_slice(semi.table.name.bytes())?;
    rest_text(semi.parts.len(), &mut words)?;
    Ok(words)
}

// The word for how two answers are combined.
pub(crate) fn combine_word(op: SetOp) -> &'static [u8]
    ensures { result.now ≡ spec.combine_word op }
{
    match op {
        SetOp::Union => b"union",
        SetOp::Except => b"except",
        SetOp::Intersect => b"intersect",
    }
}
