//! The bytes by which a name is looked up.
ghost use Rattle.std.specs.Prelude.{◌≡◌};

use indexmap::Equivalent;
use og_value::Name;
use std::hash::{Hash, Hasher};

/// The bytes of a name that is sought in a map.
#[derive(Clone, Copy, Debug, PartialEq, Eq)]
pub struct Sought<'a> {
    pub bytes: &'a [u8],
}

impl<'a> Hash for Sought<'a> {
    ghost use Rattle.std.proofs.Common.{ap};
    ghost use Rattle.std.specs.Cmp.Lexicographic.{bytes_decides};
    ghost use Rattle.std.specs.Hash as fed;

    ghost hash_input = { λ s. fed.str s.bytes.now };

    ghost respects_eq = { λ s t h. ap fed.str ((bytes_decides s.bytes.now t.bytes.now).0 h) };

    // As the name itself is hashed.
    fn hash<H: Hasher>(&self, state: &mut H) {
        state.write(self.bytes);
        state.write_u8(0xff);
    }
}

impl<'a> Equivalent<Name> for Sought<'a> {
    ghost use Rattle.std.proofs.Common.{ap};
    ghost use Rattle.std.specs.Cmp.Lexicographic.{bytes_decides, nat_list_eq_equiv};
    ghost use Rattle.std.specs.Hash as fed;
    ghost use Rattle.std.specs.Str.{bytes_eq};

    ghost equivalent = { λ s name. bytes_eq s.bytes.now name };

    ghost respects_hash = { λ s name h. ap fed.str ((bytes_decides s.bytes.now name).0 h) };

    ghost respects_eq = { λ s x y. nat_list_eq_equiv.congr s.bytes.now x y };

    fn equivalent(&self, key: &Name) -> bool {
        self.bytes == key.bytes()
    }
}
