//! What is known of a name.
use og_query::Query;
use og_value::{Schema, What};

// What a name stands for, its columns, and its query where it is a live result.
#[derive(Drop)]
pub(crate) struct Known {
    pub(crate) what: What,
    pub(crate) schema: Schema,
    pub(crate) query: Option<Query>,
}
