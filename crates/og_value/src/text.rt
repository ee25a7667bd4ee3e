//! Texts in UTF-8.
ghost use Rattle.std.specs.Prelude.{◌≡◌, ◌<◌, ◌^◌, Err, IfOk, OnErr, length};
ghost use Rattle.std.specs.Str.{IsUtf8};
ghost use Rattle.og_value.specs.Heights as meant;
ghost use Rattle.og_value.specs.Held.{held_bytes, IsHeld};
ghost use Rattle.og_value.specs.declared.text.TextRefusal.{TextRefusal};

use crate::short::Short;
use crate::spelling::spelt;
use og_base::NoMemory;
use std::alloc::{AllocError, Global};
use std::cmp::Ordering;
use std::marker::Model;
use std::sync::ArcStr;
use std::{fmt, str};
use thiserror::Error;

/// Why bytes are no text.
#[derive(Clone, Copy, Debug, PartialEq, Eq, Error)]
pub enum TextRefusal {
    /// The bytes are not UTF-8.
    #[error("the bytes are not UTF-8")]
    NotText,
    /// Memory ran out.
    #[error("want of memory")]
    NoMemory,
}

impl From<AllocError> for TextRefusal {
    ghost use Rattle.og_value.specs.declared.text.TextRefusal.{TextRefusal};

    ghost from_gives = { λ _ e. e ≡ TextRefusal.NoMemory };

    fn from(_: AllocError) -> TextRefusal {
        TextRefusal::NoMemory
    }
}

// Where the bytes of a text lie.
#[derive(Drop)]
enum Held {
    // In the value itself.
    Short(Short),
    // In memory that all copies share.
    Long(ArcStr),
}

/// A text, seen as its bytes in UTF-8. Texts are ordered by their bytes. One of at most 14 bytes takes
/// no memory of its own, and copies of a longer one share the bytes.
pub struct Text {
    held: Held,
}

// A call of its own: what drops a text has one step for it, wherever its bytes lie.
impl Drop for Text {
    fn drop(self) {
        let Text { held: _held } = self;
    }
}

impl fmt::Debug for Text {
    fn fmt<W: fmt::Write>(&self, f: &mut fmt::Formatter<W>) -> fmt::Result {
        fmt::Debug::fmt(&self.as_str(), f)
    }
}

impl Model for Text {
    ghost use Rattle.std.specs.Prelude.{List, ℕ};
    ghost use Rattle.std.specs.Str.{IsUtf8};
    ghost use Rattle.og_value.specs.Held.{held_bytes};

    ghost Value = { List ℕ };

    ghost view = { λ t. held_bytes t.held };

    ghost invariant = { λ t. IsUtf8 (held_bytes t.held) };
}

impl Held {
    // The text in the value itself where it fits there.
    fn of(alloc: Global, text: &str) -> Result<Held, AllocError>
        ensures text { IfOk result (λ held. held_bytes held ≡ text.now) }
        ensures place { IfOk result IsHeld }
        ensures refused { OnErr result (14 < length text.now) }
    {
        if let Some(short) = Short::of(text) {
            return Ok(Held::Short(short));
        }
        Ok(Held::Long(ArcStr::from_str(alloc, text)?))
    }
}

impl Text {
    /// The text of the bytes. `NotText` exactly where they are not UTF-8. At most 14 bytes take no memory.
    pub fn of(alloc: Global, bytes: &[u8]) -> Result<Text, TextRefusal>
        ensures text { IfOk result (λ t. t ≡ bytes.now) }
        ensures utf8 { IfOk result (λ _. IsUtf8 bytes.now) }
        ensures not_text { result ≡ Err TextRefusal.NotText → ¬ IsUtf8 bytes.now }
        ensures refused { ¬ IsUtf8 bytes.now → result ≡ Err TextRefusal.NotText }
        ensures memory { result ≡ Err TextRefusal.NoMemory → 14 < length bytes.now }
    {
        let Ok(text) = str::from_utf8(bytes) else {
            return Err(TextRefusal::NotText);
        };
        let held = Held::of(alloc, text)?;
        Ok(Text { held })
    }

    /// A text is UTF-8.
    pub fn utf8(&self)
        ensures { IsUtf8 self.now }
    {
        let _ = &self.held;
    }

    /// The text as a string.
    pub fn as_str(&self) -> &str
        ensures { result.now ≡ self.now }
    {
        match &self.held {
            Held::Short(text) => text.as_str(),
            Held::Long(text) => text.as_str(),
        }
    }

    /// The bytes of the text.
    pub fn bytes(&self) -> &[u8]
        ensures { result.now ≡ self.now }
    {
        match &self.held {
            Held::Short(text) => text.bytes(),
            Held::Long(text) => text.as_str().as_bytes(),
        }
    }

    /// The number that the first 14 bytes of the text spell, with 0 for each that is missing.
    pub(crate) fn spelt(&self) -> u128
        ensures number { result ≡ meant.spelt 14 0 self.now }
        ensures bound { result < 2 ^ 113 }
        ensures bytes { meant.AreBytes self.now }
    {
        match &self.held {
            Held::Short(text) => text.spelt(),
            Held::Long(text) => spelt(text.as_str().as_bytes()),
        }
    }

    /// The same text once more. Takes no memory for its bytes.
    pub fn copy(&self) -> Result<Text, NoMemory>
        ensures { IfOk result (λ t. t ≡ self.now) }
    {
        let held = match &self.held {
            Held::Short(text) => Held::Short(text.copy()),
            Held::Long(text) => Held::Long(text.clone()?),
        };
        Ok(Text { held })
    }
}

impl PartialEq for Text {
    ghost use Rattle.std.specs.Str.{bytes_eq};
    ghost use Rattle.std.specs.Cmp.Lexicographic.{nat_list_eq_equiv};
    ghost use Rattle.std.specs.Cmp.{partial_equiv_from_equiv};

    ghost eq = { bytes_eq };

    ghost laws = { partial_equiv_from_equiv nat_list_eq_equiv };

    fn eq(&self, other: &Text) -> bool {
        self.bytes() == other.bytes()
    }
}

impl Eq for Text {
    ghost use Rattle.std.specs.Cmp.Lexicographic.{nat_list_eq_equiv};

    ghost laws = { nat_list_eq_equiv };
}

impl PartialOrd for Text {
    ghost use Rattle.std.specs.Prelude.{Some};
    ghost use Rattle.std.specs.Cmp.Lexicographic.{slice_cmp, texts_po};
    ghost use Rattle.std.specs.Ordering.{nat_cmp};

    ghost partial_cmp = { λ x y. Some (slice_cmp nat_cmp x y) };

    ghost laws = { texts_po };

    fn partial_cmp(&self, other: &Text) -> Option<Ordering> {
        Some(self.cmp(other))
    }
}

impl Ord for Text {
    ghost use Rattle.std.specs.Prelude.{refl};
    ghost use Rattle.std.specs.Cmp.Lexicographic.{slice_cmp, nat_list_cmp_total, texts_ties};
    ghost use Rattle.std.specs.Ordering.{nat_cmp};

    ghost cmp = { slice_cmp nat_cmp };

    ghost total = { nat_list_cmp_total };

    ghost matches_partial_cmp = { λ x y. refl };

    ghost matches_eq = { texts_ties };

    fn cmp(&self, other: &Text) -> Ordering {
        match (&self.held, &other.held) {
            (Held::Short(text), Held::Short(other)) => text.compare(other),
            (Held::Long(text), Held::Long(other)) => text.as_str().cmp(other.as_str()),
            _ => self.bytes().cmp(&other.bytes()),
        }
    }
}
