//! What the tests read from texts, and what they compare with texts. A test stops where a text that it reads is
//! refused, and a helper that tells whether something is so says no where memory runs out.
use crate::listing::is_text;
use og_base::{ExtDay, NoMemory, RtSet, read_day, read_rt, write_rt};
use og_query::{Cond, Expr};
use og_time::{OngoingPeriod, OngoingPoint, read_period, read_point};
use og_value::{Kind, Pred, Row, Value, read_cell};
use std::alloc::Global;
use std::process::Abort;

/// The day of the text.
pub fn day<H: Abort>(rt: &H, text: &str) -> ExtDay {
    read_day(text.as_bytes()).expect(rt, text)
}

/// The point of the text.
pub fn point<H: Abort>(rt: &H, text: &str) -> OngoingPoint {
    read_point(text.as_bytes()).expect(rt, text)
}

/// The period of the text.
pub fn period<H: Abort>(rt: &H, text: &str) -> OngoingPeriod {
    read_period(text.as_bytes()).expect(rt, text)
}

/// The set of the text.
pub fn set<H: AllocGlobal + Abort>(rt: &H, text: &str) -> RtSet {
    read_rt(rt.alloc(), text.as_bytes()).expect(rt, text)
}

/// The value of the cell.
pub fn cell<H: AllocGlobal + Abort>(rt: &H, kind: Kind, text: &str) -> Value {
    read_cell(rt.alloc(), kind, text.as_bytes()).expect(rt, text)
}

/// The row of the values.
pub fn row<H: AllocGlobal + Abort, const N: usize>(rt: &H, values: [Value; N]) -> Row {
    Row::of(Vec::from_array(rt.alloc(), values).expect(rt, "memory"))
}

/// The condition that the two periods overlap.
pub fn overlap<H: AllocGlobal + Abort>(rt: &H, left: Expr, right: Expr) -> Box<Cond> {
    let cond = Cond::Relate {
        pred: Pred::Overlaps,
        left,
        right,
    };
    Box::new(rt.alloc(), cond).expect(rt, "memory")
}

/// Whether the set has this text.
pub fn has_text(alloc: Global, set: &RtSet, text: &str) -> bool {
    let mut out = Vec::new(alloc);
    write_rt(set, &mut out).is_ok() && is_text(out.as_slice(), text)
}

/// Whether the set that was found has this text.
pub fn is_found(alloc: Global, found: Result<RtSet, NoMemory>, text: &str) -> bool {
    match found {
        Ok(set) => has_text(alloc, &set, text),
        Err(_) => false,
    }
}

/// Asserts that the set that was found has this text.
pub fn assert_found<H: AllocGlobal + Abort>(rt: &H, found: Result<RtSet, NoMemory>, text: &str) {
    assert!(rt; is_found(rt.alloc(), found, text), "{text}");
}
