//! The texts of ongoing periods.
ghost use Rattle.std.specs.Prelude.{◌≡◌, ◌≢◌, ◌++◌, IfOk, OnOk, OnErr, IfSome, IfNone, List, ℕ, codes};
ghost use Rattle.og_base.specs.Told.{IsPrefix};
ghost use Rattle.og_time.specs.Period.{Period, IsPeriod, IsPeriodText, AreSides, period_text};

use crate::period::OngoingPeriod;
use crate::text::{read_point, write_point};
use og_base::{NoMemory, cut_at};
use thiserror::Error;

/// The bytes are no period text.
#[derive(Clone, Copy, Debug, PartialEq, Eq, Error)]
#[error("no period text")]
pub struct NotAPeriod;

/// Reads a period text: `[`, a point text, `,`, a point text and `)`, with nothing between. Any two
/// points may stand in it. Refused exactly where the bytes are none of these (docs/FORMATS.md,
/// "Periods").
pub fn read_period(text: &[u8]) -> Result<OngoingPeriod, NotAPeriod>
    ensures value { IfOk result (IsPeriodText text.now) }
    ensures refused { OnErr result ((i : Period) → ¬ IsPeriodText text.now i) }
{
    let Some((first, last)) = sides_of(text) else {
        return Err(NotAPeriod);
    };
    let Ok(start) = read_point(first) else {
        return Err(NotAPeriod);
    };
    let Ok(end) = read_point(last) else {
        return Err(NotAPeriod);
    };
    Ok(OngoingPeriod::new(start, end))
}

// The bytes before and after the first comma between the brackets.
fn sides_of(text: &[u8]) -> Option<(&[u8], &[u8])>
    ensures sides { IfSome result (λ sides. AreSides text.now sides.0.now sides.1.now) }
    ensures lacking { IfNone result ((first last : List ℕ) → ¬ AreSides text.now first last) }
{
    let inside = inside_of(text)?;
    cut_at(inside, b',')
}

// The bytes between the brackets.
fn inside_of(text: &[u8]) -> Option<&[u8]>
    ensures inside { IfSome result (λ inside. text.now ≡ codes "[" ++ inside.now ++ codes ")") }
    ensures lacking { IfNone result ((inside : List ℕ) → text.now ≢ codes "[" ++ inside ++ codes ")") }
{
    let rest = text.strip_prefix(b"[".as_slice())?;
    rest.strip_suffix(b")".as_slice())
}

/// Appends the one text of the period, or nothing where memory runs out.
pub fn write_period(i: OngoingPeriod, out: &mut Vec<u8>) -> Result<(), NoMemory>
    ensures written { OnOk result (out.new.items ≡ out.old.items ++ period_text i) }
    ensures refused { OnErr result (out.new.items ≡ out.old.items) }
{
    let before = out.len();
    let Ok(()) = append_period(i, out) else {
        out.truncate(before);
        return Err(NoMemory);
    };
    Ok(())
}

// Appends the text of the period. Where memory runs out, a front of it may stand.
fn append_period(i: OngoingPeriod, out: &mut Vec<u8>) -> Result<(), NoMemory>
    ensures written { OnOk result (out.new.items ≡ out.old.items ++ period_text i) }
    ensures refused { OnErr result (IsPrefix out.old.items out.new.items) }
{
    out.push(b'[')?;
    write_point(i.start(), out)?;
    out.push(b',')?;
    write_point(i.end(), out)?;
    out.push(b')')?;
    Ok(())
}

/// Reading and writing are one another's inverse: each period has one text, each text is of at most
/// one period, and the text that is written for a period is its text.
pub fn one_text_a_period()
    ensures one_text { (text : List ℕ) (i : Period) → IsPeriod i → IsPeriodText text i → text ≡ period_text i }
    ensures one_period { (text : List ℕ) (i j : Period) → IsPeriodText text i → IsPeriodText text j → i ≡ j }
    ensures written { (i : Period) → IsPeriod i → IsPeriodText (period_text i) i }
{}
