//! The texts of ongoing points.
ghost use Rattle.std.specs.Prelude.{◌≡◌, ◌↔◌, ◌+◌, ◌++◌, ◌&&◌, length, IsTrue, IfOk, OnOk, OnErr, ℕ, ℤ, List};
ghost use Rattle.std.specs.Ordering.{int_eq};
ghost use Rattle.og_base.specs.Calendar.{before_all, after_all};
ghost use Rattle.og_base.specs.Told.{IsPrefix};
ghost use Rattle.og_time.specs.Point.{Point, IsPoint, IsPointText, IsNowText, IsWholeText, AreEndTexts, IsEndText, end_text, point_text};

use crate::point::OngoingPoint;
use og_base::{ExtDay, NoMemory, cut_at, read_day, read_ref_day, write_day};
use thiserror::Error;

/// The bytes are no point text.
#[derive(Clone, Copy, Debug, PartialEq, Eq, Error)]
#[error("no point text")]
pub struct NotAPoint;

/// Reads a point text: a day text for a fixed point, `now`, `P+` for a growing point, `+Q` for a
/// limited one, or `P+Q` with P before Q, where P and Q are reference days. Refused exactly where
/// the bytes are none of these (docs/FORMATS.md, "Points").
pub fn read_point(text: &[u8]) -> Result<OngoingPoint, NotAPoint>
    ensures value { IfOk result (IsPointText text.now) }
    ensures refused { OnErr result ((p : Point) → ¬ IsPointText text.now p) }
{
    match cut_at(text, b'+') {
        Some((low, high)) => read_ends(low, high),
        None => read_whole(text),
    }
}

// Reads the two sides of the plus sign.
fn read_ends(low: &[u8], high: &[u8]) -> Result<OngoingPoint, NotAPoint>
    ensures value { IfOk result (AreEndTexts low.now high.now) }
    ensures refused { OnErr result ((p : Point) → ¬ AreEndTexts low.now high.now p) }
{
    if are_empty(low, high) {
        return Err(NotAPoint);
    }
    let low = read_end(low, ExtDay::NEG)?;
    let high = read_end(high, ExtDay::POS)?;
    if low == high {
        return Err(NotAPoint);
    }
    OngoingPoint::new(low, high).ok_or(NotAPoint)
}

// Whether there is nothing on either side.
fn are_empty(low: &[u8], high: &[u8]) -> bool
    ensures { IsTrue result ↔ (length low.now + length high.now ≡ 0) }
{
    low.is_empty() && high.is_empty()
}

// Reads one side of the plus sign. An empty one stands for the open end.
fn read_end(text: &[u8], open_end: ExtDay) -> Result<ExtDay, NotAPoint>
    ensures value { IfOk result (IsEndText text.now open_end) }
    ensures refused { OnErr result ((n : ℤ) → ¬ IsEndText text.now open_end n) }
{
    if text.is_empty() {
        return Ok(open_end);
    }
    match read_ref_day(text) {
        Ok(day) => Ok(ExtDay::of(day)),
        Err(_) => Err(NotAPoint),
    }
}

// Reads a point text that has no plus sign.
fn read_whole(text: &[u8]) -> Result<OngoingPoint, NotAPoint>
    ensures value { IfOk result (IsWholeText text.now) }
    ensures refused { OnErr result ((p : Point) → ¬ IsWholeText text.now p) }
{
    let Ok(day) = read_day(text) else {
        return read_now(text);
    };
    OngoingPoint::new(day, day).ok_or(NotAPoint)
}

// Reads the text of the point now.
fn read_now(text: &[u8]) -> Result<OngoingPoint, NotAPoint>
    ensures value { IfOk result (IsNowText text.now) }
    ensures refused { OnErr result ((p : Point) → ¬ IsNowText text.now p) }
{
    if text != b"now".as_slice() {
        return Err(NotAPoint);
    }
    OngoingPoint::new(ExtDay::NEG, ExtDay::POS).ok_or(NotAPoint)
}

/// Appends the one text of the point, or nothing where memory runs out.
pub fn write_point(p: OngoingPoint, out: &mut Vec<u8>) -> Result<(), NoMemory>
    ensures written { OnOk result (out.new.items ≡ out.old.items ++ point_text p) }
    ensures refused { OnErr result (out.new.items ≡ out.old.items) }
{
    let before = out.len();
    let Ok(()) = append_point(p, out) else {
        out.truncate(before);
        return Err(NoMemory);
    };
    Ok(())
}

// Appends the text of the point. Where memory runs out, a front of it may stand.
fn append_point(p: OngoingPoint, out: &mut Vec<u8>) -> Result<(), NoMemory>
    ensures written { OnOk result (out.new.items ≡ out.old.items ++ point_text p) }
    ensures refused { OnErr result (IsPrefix out.old.items out.new.items) }
{
    if p.low() == p.high() {
        return write_day(p.low(), out);
    }
    if is_now(p) {
        out.extend_from_slice(b"now")?;
        return Ok(());
    }
    append_end(p.low(), ExtDay::NEG, out)?;
    out.push(b'+')?;
    append_end(p.high(), ExtDay::POS, out)
}

// Whether both ends are open.
fn is_now(p: OngoingPoint) -> bool
    ensures { result ≡ (int_eq p.low before_all && int_eq p.high after_all) }
{
    p.low() == ExtDay::NEG && p.high() == ExtDay::POS
}

// Appends one side of the plus sign, or nothing where memory runs out.
fn append_end(day: ExtDay, open_end: ExtDay, out: &mut Vec<u8>) -> Result<(), NoMemory>
    ensures written { OnOk result (out.new.items ≡ out.old.items ++ end_text day open_end) }
    ensures refused { OnErr result (out.new.items ≡ out.old.items) }
{
    if day == open_end {
        return Ok(());
    }
    write_day(day, out)
}

/// Reading and writing are one another's inverse: each point has one text, each text is of at most
/// one point, and the text that is written for a point is its text.
pub fn one_text_a_point()
    ensures one_text { (text : List ℕ) (p : Point) → IsPoint p → IsPointText text p → text ≡ point_text p }
    ensures one_point { (text : List ℕ) (p q : Point) → IsPointText text p → IsPointText text q → p ≡ q }
    ensures written { (p : Point) → IsPoint p → IsPointText (point_text p) p }
{}
