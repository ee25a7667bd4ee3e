//! What a script is read with.
ghost use Rattle.std.specs.Prelude.{◌≡◌};
ghost use Rattle.og_syntax.specs.Reading.{is_strict};

use std::alloc::Global;

/// How the texts after DATE, ONGOING and PERIOD are read.
#[derive(Clone, Copy)]
pub enum Literals {
    /// Each has to be of its form.
    Strict,
    /// A number stands for each, whatever it is.
    Lenient,
}

impl Literals {
    /// Whether each text has to be of its form.
    pub fn is_strict(self) -> bool
        ensures { result ≡ is_strict self }
    {
        match self {
            Literals::Strict => true,
            Literals::Lenient => false,
        }
    }
}

/// What a script is read with: where its trees are put, its bytes, and how its literals are read.
#[derive(Clone, Copy)]
pub struct Reading<'s> {
    pub alloc: Global,
    pub script: &'s [u8],
    pub literals: Literals,
}
