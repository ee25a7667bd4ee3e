//! Changes of the result of a view.
use og_reduce::Stored;
use og_rel::Rel;
use og_value::Row;

// A change of a result: the places of the rows that go, which rise, and the rows that come.
#[derive(Drop)]
pub(crate) struct Change {
    pub(crate) at: Vec<usize>,
    pub(crate) rows: Rel<Row>,
}

// What a result is to be next: without the rows at places of its first `len`, behind which those stand that come;
// or another one.
#[derive(Drop)]
pub(crate) enum Next {
    Changed { at: Vec<usize>, len: usize },
    Renewed(Stored),
}
