//! Where the rows of a table stand.

use og_sql_spread::key_of;
use og_sql_words::{Spread, Target};
use og_value::Schema;

/// Where the rows of a table stand. What spreads them is the column at a place.
#[derive(Clone, Copy, Debug, PartialEq, Eq)]
pub enum Way {
    /// On the server that is asked.
    Here,
    /// On the nodes, as interop/postgres/shards sets them up.
    Shards(usize),
    /// Where Citus spreads them or, without a place, copies them.
    Citus(Option<usize>),
}

impl Way {
    /// That of a table, no live result, with these columns.
    pub fn of(target: &Target, schema: &Schema) -> Way {
        match &target.spread {
            Spread::One => Way::Here,
            Spread::Shards(column) => match key_of(schema, column) {
                Some(place) => Way::Shards(place),
                None => Way::Here,
            },
            Spread::Citus(column) => Way::Citus(key_of(schema, column)),
        }
    }
}
