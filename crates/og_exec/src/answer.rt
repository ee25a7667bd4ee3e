//! Answers, lent or made.
ghost use Rattle.std.specs.Prelude.{◌≡◌, ℤ, Ok, IfOk, length};
ghost use Rattle.og_exec.specs.Answers.{rel_of};
ghost use Rattle.og_exec.specs.Tables.{rows_on, rows_or_none, size_or_none};

use og_base::NoMemory;
use og_rel::{Rel, Tables};
use og_value::{Name, Row};
use std::alloc::Global;

// The answer of a plan: the relation of a table, or one that was made.
#[derive(Drop)]
pub(crate) enum Answer<'t> {
    Lent(&'t Rel<Row>),
    Made(Rel<Row>),
}

impl<'t> Answer<'t> {
    // The relation.
    pub(crate) fn rel(&self) -> &Rel<Row>
        ensures { result.now ≡ rel_of self.now }
    {
        match self {
            Answer::Lent(rel) => *rel,
            Answer::Made(rel) => rel,
        }
    }
}

// The answers of the two inputs of a node.
#[derive(Drop)]
pub(crate) struct Inputs<'t> {
    pub(crate) left: Answer<'t>,
    pub(crate) right: Answer<'t>,
}

// The relation as an answer, where it was made.
pub(crate) fn made<'t>(rel: Result<Rel<Row>, NoMemory>) -> Result<Answer<'t>, NoMemory>
    ensures { IfOk result (λ a. rel ≡ Ok (rel_of a)) }
{
    match rel {
        Ok(rel) => Ok(Answer::Made(rel)),
        Err(refusal) => Err(refusal),
    }
}

// The relation of the name, without rows where the name is unknown.
pub(crate) fn lent<'t, T: Tables<Row>>(alloc: Global, name: &Name, tables: &'t T) -> Answer<'t>
    ensures law { (d : ℤ) → rows_on (rel_of result) d ≡ rows_or_none (T.named tables.now name.now) d }
    ensures size { length (rel_of result) ≡ size_or_none (T.named tables.now name.now) }
{
    match tables.rel(name.bytes()) {
        Some(rel) => Answer::Lent(rel),
        None => Answer::Made(Rel::new(alloc)),
    }
}
