//! Short texts.
ghost use Rattle.std.specs.Prelude.{◌≡◌, ◌<◌, ◌≤◌, ◌^◌, IfSome, IfNone, length};
ghost use Rattle.std.specs.Cmp.Lexicographic.{slice_cmp};
ghost use Rattle.std.specs.Ordering.{nat_cmp};
ghost use Rattle.og_value.specs.Heights as meant;

use crate::spelling::spelt;
use std::cmp::Ordering;
use std::marker::Model;
use std::str;

// How many bytes a short text may have. With their number and the tag of a `Text` they fill 16 bytes.
const ROOM: usize = 14;

/// A text of at most 14 bytes, which takes no memory of its own, seen as its bytes in UTF-8. The places
/// past them hold 0.
#[derive(Drop)]
pub(crate) struct Short {
    len: u8,
    bytes: [u8; ROOM],
}

impl Model for Short {
    ghost use Rattle.std.specs.Prelude.{List, ℕ, ◌≡◌, ◌≤◌, slice_index, take};
    ghost use Rattle.std.specs.Str.{IsUtf8};

    ghost Value = { List ℕ };

    ghost view = { λ s. take s.len s.bytes };

    ghost invariant = { λ s. (s.len ≤ 14) × IsUtf8 (take s.len s.bytes) × ((i : ℕ) → s.len ≤ i → slice_index s.bytes i ≡ 0) };
}

impl Short {
    /// The text, where it is short.
    pub(crate) fn of(text: &str) -> Option<Short>
        ensures short { IfSome result (λ short. short ≡ text.now) }
        ensures long { IfNone result (14 < length text.now) }
    {
        let from = text.as_bytes();
        let count = from.len();
        let Ok(len) = u8::try_from(count) else {
            return None;
        };
        if count > ROOM {
            return None;
        }
        let mut bytes = [0; ROOM];
        bytes[..count].copy_from_slice(from);
        Some(Short { len, bytes })
    }

    /// The text once more.
    pub(crate) fn copy(&self) -> Short
        ensures { result ≡ self.now }
    {
        Short {
            len: self.len,
            bytes: self.bytes,
        }
    }

    /// The bytes of the text.
    pub(crate) fn bytes(&self) -> &[u8]
        ensures bytes { result.now ≡ self.now }
        ensures short { length self.now ≤ 14 }
    {
        &self.bytes[..usize::from(self.len)]
    }

    /// The text as a string.
    pub(crate) fn as_str(&self) -> &str
        ensures { result.now ≡ self.now }
    {
        let Ok(text) = str::from_utf8(&self.bytes[..usize::from(self.len)]) else {
            unreachable!()
        };
        text
    }

    /// The number that the bytes of the text spell, with 0 for each that is missing of 14.
    pub(crate) fn spelt(&self) -> u128
        ensures number { result ≡ meant.spelt 14 0 self.now }
        ensures bound { result < 2 ^ 113 }
        ensures bytes { meant.AreBytes self.now }
    {
        spelt(&self.bytes)
    }

    /// The order of the two texts by their bytes.
    pub(crate) fn compare(&self, other: &Short) -> Ordering
        ensures { result ≡ slice_cmp nat_cmp self.now other.now }
    {
        let (number, other_number) = (self.spelt(), other.spelt());
        if number < other_number {
            return Ordering::Less;
        }
        if other_number < number {
            return Ordering::Greater;
        }
        self.bytes().len().cmp(&other.bytes().len())
    }
}
