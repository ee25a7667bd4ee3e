//! Why a script has no tree.
ghost use Rattle.std.specs.Prelude.{◌≡◌};

use og_base::NoMemory;
use og_lex::LexRefusal;
use std::alloc::{AllocError, AllocFailed};
use thiserror::Error;

/// Why a script has no tree: the fault of its first statement that has one, with the number of that
/// statement from 1, or want of memory.
#[derive(Clone, Copy, Debug, PartialEq, Eq, Error)]
pub enum ParseRefusal {
    /// The tokens are no statement.
    #[error("syntax of statement {statement}")]
    Syntax { statement: usize },
    /// More than `MAX_DEPTH` parentheses are open at once, or there are more than so many words NOT,
    /// or words UNION, EXCEPT and INTERSECT together.
    #[error("statement {statement} is too deep")]
    TooDeep { statement: usize },
    /// A quoted text is not of its form, and else the tokens are a statement.
    #[error("a literal of statement {statement} is not of its form")]
    Literal { statement: usize },
    /// Memory ran out.
    #[error("want of memory")]
    NoMemory,
}

impl From<AllocError> for ParseRefusal {
    ghost use Rattle.og_parse.specs.declared.refusal.ParseRefusal.{ParseRefusal};

    ghost from_gives = { λ _ e. e ≡ ParseRefusal.NoMemory };

    fn from(_: AllocError) -> ParseRefusal {
        ParseRefusal::NoMemory
    }
}

impl<T: Drop> From<AllocFailed<T>> for ParseRefusal {
    ghost use Rattle.og_parse.specs.declared.refusal.ParseRefusal.{ParseRefusal};

    ghost from_gives = { λ _ e. e ≡ ParseRefusal.NoMemory };

    fn from(_: AllocFailed<T>) -> ParseRefusal {
        ParseRefusal::NoMemory
    }
}

impl From<NoMemory> for ParseRefusal {
    ghost use Rattle.og_parse.specs.declared.refusal.ParseRefusal.{ParseRefusal};

    ghost from_gives = { λ _ e. e ≡ ParseRefusal.NoMemory };

    fn from(_: NoMemory) -> ParseRefusal {
        ParseRefusal::NoMemory
    }
}

/// Why bytes are no script: the first place where they have no token, else the fault of the first statement
/// that has one, or want of memory.
#[derive(Clone, Copy, Debug, PartialEq, Eq, Error)]
pub enum ScriptRefusal {
    /// The bytes have no tokens.
    #[error("{refusal}")]
    Tokens { refusal: LexRefusal },
    /// A statement has a fault.
    #[error("{refusal}")]
    Statement { refusal: ParseRefusal },
    /// Memory ran out.
    #[error("want of memory")]
    NoMemory,
}

impl From<LexRefusal> for ScriptRefusal {
    ghost use Rattle.og_parse.specs.declared.refusal.ScriptRefusal.{ScriptRefusal};

    ghost from_gives = { λ refusal e. e ≡ ScriptRefusal.Tokens refusal };

    fn from(refusal: LexRefusal) -> ScriptRefusal {
        ScriptRefusal::Tokens { refusal }
    }
}

impl From<AllocError> for ScriptRefusal {
    ghost use Rattle.og_parse.specs.declared.refusal.ScriptRefusal.{ScriptRefusal};

    ghost from_gives = { λ _ e. e ≡ ScriptRefusal.NoMemory };

    fn from(_: AllocError) -> ScriptRefusal {
        ScriptRefusal::NoMemory
    }
}
