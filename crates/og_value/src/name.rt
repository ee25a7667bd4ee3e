//! Names of tables, results and columns.
ghost use Rattle.std.specs.Prelude.{◌≡◌, Err, IfOk, false, true};
ghost use Rattle.std.specs.List.{list_all};
ghost use Rattle.og_base.specs.Letters.{begins_word, is_in_word};
ghost use Rattle.og_value.specs.Words.{IsLowerWord, is_word, folded};
ghost use Rattle.og_value.specs.declared.name.NameRefusal.{NameRefusal};

use og_base::NoMemory;
use std::alloc::{AllocError, Global};
use std::hash::{Hash, Hasher};
use std::marker::Model;
use std::str;
use thiserror::Error;

/// Why bytes are no name.
#[derive(Clone, Copy, Debug, PartialEq, Eq, Error)]
pub enum NameRefusal {
    /// The bytes are no word.
    #[error("the bytes are no word")]
    NotAName,
    /// Memory ran out.
    #[error("want of memory")]
    NoMemory,
}

impl From<AllocError> for NameRefusal {
    ghost use Rattle.og_value.specs.declared.name.NameRefusal.{NameRefusal};

    ghost from_gives = { λ _ e. e ≡ NameRefusal.NoMemory };

    fn from(_: AllocError) -> NameRefusal {
        NameRefusal::NoMemory
    }
}

/// A name, seen as its bytes: a letter or `_`, then letters, digits and `_`, in lower case.
#[derive(Debug, Drop)]
pub struct Name {
    text: String,
}

impl Model for Name {
    ghost use Rattle.std.specs.Prelude.{List, ℕ, string_bytes};
    ghost use Rattle.og_value.specs.Words.{IsLowerWord};

    ghost Value = { List ℕ };

    ghost view = { λ n. string_bytes n.text };

    ghost invariant = { λ n. IsLowerWord (string_bytes n.text) };
}

impl Name {
    /// The name that the word writes, in lower case. `NotAName` exactly where the bytes are no word
    /// (docs/LANGUAGE.md, "Tokens").
    pub fn of(alloc: Global, bytes: &[u8]) -> Result<Name, NameRefusal>
        ensures name { IfOk result (λ n. n ≡ folded bytes.now) }
        ensures word { IfOk result (λ _. is_word bytes.now ≡ true) }
        ensures not_a_name { result ≡ Err NameRefusal.NotAName → is_word bytes.now ≡ false }
        ensures refused { is_word bytes.now ≡ false → result ≡ Err NameRefusal.NotAName }
    {
        if !is_word(bytes) {
            return Err(NameRefusal::NotAName);
        }
        let Ok(word) = str::from_utf8(bytes) else {
            return Err(NameRefusal::NotAName);
        };
        let text = word.to_ascii_lowercase(alloc)?;
        Ok(Name { text })
    }

    /// A name is a word in lower case.
    pub fn lower_word(&self)
        ensures { IsLowerWord self.now }
    {
        let _ = &self.text;
    }

    /// The name as a string.
    pub fn as_str(&self) -> &str
        ensures { result.now ≡ self.now }
    {
        self.text.as_str()
    }

    /// The bytes of the name.
    pub fn bytes(&self) -> &[u8]
        ensures { result.now ≡ self.now }
    {
        self.text.as_bytes()
    }

    /// The same name once more.
    pub fn copy(&self) -> Result<Name, NoMemory>
        ensures { IfOk result (λ n. n ≡ self.now) }
    {
        let text = String::from_str(*self.text.allocator(), self.text.as_str())?;
        Ok(Name { text })
    }
}

impl PartialEq for Name {
    ghost use Rattle.std.specs.Str.{bytes_eq};
    ghost use Rattle.std.specs.Cmp.Lexicographic.{nat_list_eq_equiv};
    ghost use Rattle.std.specs.Cmp.{partial_equiv_from_equiv};

    ghost eq = { bytes_eq };

    ghost laws = { partial_equiv_from_equiv nat_list_eq_equiv };

    fn eq(&self, other: &Name) -> bool {
        self.text.as_str() == other.text.as_str()
    }
}

impl Eq for Name {
    ghost use Rattle.std.specs.Cmp.Lexicographic.{nat_list_eq_equiv};

    ghost laws = { nat_list_eq_equiv };
}

impl Hash for Name {
    ghost use Rattle.std.proofs.Common.{rules};
    ghost use Rattle.std.specs.Cmp.Rules.{comparing, hashing};
    ghost use Rattle.std.specs.Hash as fed;

    ghost hash_input = { fed.str };

    ghost respects_eq = { Prim.search (hashing, rules) };

    fn hash<H: Hasher>(&self, state: &mut H) {
        self.text.as_str().hash(state);
    }
}

// Whether a letter or `_` comes first, and then letters, digits and `_`.
fn is_word(bytes: &[u8]) -> bool
    ensures { result ≡ is_word bytes.now }
{
    match bytes.split_first() {
        Some((first, rest)) => begins_word(*first) && are_in_word(rest),
        None => false,
    }
}

// Whether the byte may stand first in a word.
fn begins_word(byte: u8) -> bool
    ensures { result ≡ begins_word byte }
{
    byte.is_ascii_alphabetic() || byte == b'_'
}

// Whether all of the bytes may stand inside a word.
fn are_in_word(bytes: &[u8]) -> bool
    ensures { result ≡ list_all is_in_word bytes.now }
{
    bytes
        .iter()
        .all(|b| b.is_ascii_alphanumeric() || *b == b'_')
}
