//! What is held under a name.
use og_reduce::Stored;
use og_value::{Schema, What};

// What a name stands for, its columns, and its relation.
#[derive(Drop)]
pub(crate) struct Holding {
    pub(crate) what: What,
    pub(crate) schema: Schema,
    pub(crate) rel: Stored,
}
