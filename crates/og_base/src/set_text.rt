//! The texts of sets of days.
ghost use Rattle.std.specs.Prelude.{◌≡◌, ◌++◌, ◌∷◌, [], ℕ, ℤ, List, Err, IfOk, IfSome, IfNone, OnOk, OnErr};
ghost use Rattle.og_base.specs.Calendar.{IsRefDay, day_text};
ghost use Rattle.og_base.specs.Ranges.{Range, IsRange, IsNormal};
ghost use Rattle.og_base.specs.Boundaries.{boundaries_of};
ghost use Rattle.og_base.specs.SetTexts.{lower_text, range_text, ranges_text, set_text, IsEndsOf, IsRangeBefore};
ghost use Rattle.og_base.specs.Told.{IsPrefix};

use crate::bytes::cut_at;
use crate::day::{ExtDay, RefDay};
use crate::memory::NoMemory;
use crate::range::DayRange;
use crate::rt_set::{Boundaries, Room, RtSet};
use crate::text::{read_day, read_ref_day, write_day};
use std::alloc::Global;
use thiserror::Error;

/// Why no set was read.
#[derive(Clone, Copy, Debug, PartialEq, Eq, Error)]
pub enum RtRefusal {
    /// The bytes are no set text.
    #[error("no set text")]
    NotASet,
    /// Memory ran out.
    #[error("want of memory")]
    NoMemory,
}

impl From<NoMemory> for RtRefusal {
    ghost use Rattle.og_base.specs.declared.set_text.RtRefusal.{RtRefusal};

    ghost from_gives = { λ _ e. e ≡ RtRefusal.NoMemory };

    fn from(_: NoMemory) -> RtRefusal {
        RtRefusal::NoMemory
    }
}

/// Reads a set text: the ranges of the set between `{` and `}`, with a comma between each two, as in
/// `{[-infinity,2020-01-01),[2020-01-05,infinity)}`. As a lower end `-infinity` is the first
/// reference day, which is written in no other way. `NotASet` exactly where the bytes are no such
/// text (docs/FORMATS.md, "Sets of days").
pub fn read_rt(alloc: Global, text: &[u8]) -> Result<RtSet, RtRefusal>
    ensures read { IfOk result (λ s. text.now ≡ set_text s) }
    ensures not_a_set { result ≡ Err RtRefusal.NotASet → (s : List Range) → IsNormal s → text.now ≡ set_text s → ⊥ }
{
    if text == b"{}".as_slice() {
        return Ok(RtSet::empty(alloc));
    }
    let Some(rest) = after_byte(text, b'{') else {
        return Err(RtRefusal::NotASet);
    };
    read_ranges(alloc, rest)
}

// Reads one range or more, and the `}` behind them.
fn read_ranges(alloc: Global, text: &[u8]) -> Result<RtSet, RtRefusal>
    ensures read { IfOk result (λ s. text.now ≡ ranges_text s ++ 125 ∷ []) }
    ensures not_a_set { result ≡ Err RtRefusal.NotASet → (r : Range) → (s : List Range) → IsNormal (r ∷ s) →
        text.now ≡ ranges_text (r ∷ s) ++ 125 ∷ [] → ⊥ }
{
    let room = Room { alloc, days: 0 };
    let mut boundaries = Boundaries::none();
    let mut low = ExtDay::NEG;
    let mut rest = text;
    'each: while let Some(front) = range_before(rest, low, b',') {
        push_range(&mut boundaries, room, front.range)?;
        low = front.range.hi;
        rest = front.after;
    }
    let Some(front) = range_before(rest, low, b'}') else {
        return Err(RtRefusal::NotASet);
    };
    if !front.after.is_empty() {
        return Err(RtRefusal::NotASet);
    }
    push_range(&mut boundaries, room, front.range)?;
    Ok(RtSet::of_boundaries(alloc, boundaries))
}

// Adds the boundaries of the range.
fn push_range(boundaries: &mut Boundaries, room: Room, range: DayRange) -> Result<(), NoMemory>
    ensures { OnOk result (boundaries.new ≡ boundaries.old ++ boundaries_of (range ∷ [])) }
{
    boundaries.push(room, range.lo)?;
    if let Some(end) = range.hi.as_ref_day() {
        boundaries.push(room, end)?;
    }
    Ok(())
}

// A range at the front of a text, and what stands behind it.
#[derive(Clone, Copy)]
struct Front<'a> {
    range: DayRange,
    after: &'a [u8],
}

// The range at the front of the text, where it begins after the day and that byte follows it, and
// what stands behind the byte.
fn range_before(text: &[u8], low: ExtDay, byte: u8) -> Option<Front<'_>>
    ensures read { IfSome result (λ f. IsRangeBefore byte low text.now f.range f.after.now) }
    ensures none { IfNone result ((r : Range) → (after : List ℕ) → IsRangeBefore byte low text.now r after → ⊥) }
{
    let (lower, upper, rest) = cut_ends(text)?;
    let after = after_byte(rest, byte)?;
    let range = range_of(lower, upper)?;
    if range.lo.number() <= low.number() {
        return None;
    }
    Some(Front { range, after })
}

// The texts of the two ends at the front of the text, and what stands behind them.
fn cut_ends(text: &[u8]) -> Option<(&[u8], &[u8], &[u8])>
    ensures cut { IfSome result (λ x. IsEndsOf text.now x.0.now x.1.now x.2.now) }
    ensures none { IfNone result ((lower upper after : List ℕ) → IsEndsOf text.now lower upper after → ⊥) }
{
    let inside = after_byte(text, b'[')?;
    let (lower, rest) = cut_at(inside, b',')?;
    let (upper, after) = cut_at(rest, b')')?;
    Some((lower, upper, after))
}

// What stands behind the byte at the front of the text.
fn after_byte(text: &[u8], byte: u8) -> Option<&[u8]>
    ensures behind { IfSome result (λ rest. text.now ≡ byte ∷ rest.now) }
    ensures none { IfNone result ((rest : List ℕ) → text.now ≡ byte ∷ rest → ⊥) }
{
    let (first, rest) = text.split_first()?;
    if *first != byte {
        return None;
    }
    Some(rest)
}

// The range whose ends have these texts.
fn range_of(lower: &[u8], upper: &[u8]) -> Option<DayRange>
    ensures read { IfSome result (λ r. (lower.now ≡ lower_text r.lo) × (upper.now ≡ day_text r.hi)) }
    ensures none { IfNone result ((r : Range) → IsRange r → lower.now ≡ lower_text r.lo → upper.now ≡ day_text r.hi → ⊥) }
{
    let lo = lower_of(lower)?;
    let Ok(hi) = read_day(upper) else {
        return None;
    };
    if hi.number() <= lo.number() {
        return None;
    }
    Some(DayRange { lo, hi })
}

// The day of which this is the text as a lower end.
fn lower_of(text: &[u8]) -> Option<RefDay>
    ensures read { IfSome result (λ d. text.now ≡ lower_text d) }
    ensures none { IfNone result ((d : ℤ) → IsRefDay d → text.now ≡ lower_text d → ⊥) }
{
    if text == b"-infinity".as_slice() {
        return Some(RefDay::FIRST);
    }
    let Ok(day) = read_ref_day(text) else {
        return None;
    };
    if day == RefDay::FIRST {
        return None;
    }
    Some(day)
}

/// Appends the one text of the set, or nothing where memory runs out.
pub fn write_rt(set: &RtSet, out: &mut Vec<u8>) -> Result<(), NoMemory>
    ensures written { OnOk result (out.new.items ≡ out.old.items ++ set_text set.now) }
    ensures refused { OnErr result (out.new.items ≡ out.old.items) }
{
    let length = out.len();
    let written = put_set(set, out);
    if written.is_err() {
        out.truncate(length);
    }
    written
}

// Appends the text of the set, or a front of it.
fn put_set(set: &RtSet, out: &mut Vec<u8>) -> Result<(), NoMemory>
    ensures written { OnOk result (out.new.items ≡ out.old.items ++ set_text set.now) }
    ensures kept { IsPrefix out.old.items out.new.items }
{
    out.push(b'{')?;
    'each: for i in 0..set.range_count() {
        if i > 0 {
            out.push(b',')?;
        }
        put_range(set.range(i), out)?;
    }
    out.push(b'}')?;
    Ok(())
}

// Appends the text of the range, or a front of it.
fn put_range(range: DayRange, out: &mut Vec<u8>) -> Result<(), NoMemory>
    ensures written { OnOk result (out.new.items ≡ out.old.items ++ range_text range) }
    ensures kept { IsPrefix out.old.items out.new.items }
{
    out.push(b'[')?;
    write_lower(range.lo, out)?;
    out.push(b',')?;
    write_day(range.hi, out)?;
    out.push(b')')?;
    Ok(())
}

// Appends the text of the day as a lower end.
fn write_lower(lo: RefDay, out: &mut Vec<u8>) -> Result<(), NoMemory>
    ensures written { OnOk result (out.new.items ≡ out.old.items ++ lower_text lo) }
    ensures refused { OnErr result (out.new.items ≡ out.old.items) }
{
    if lo == RefDay::FIRST {
        return write_day(ExtDay::NEG, out);
    }
    write_day(ExtDay::of(lo), out)
}
