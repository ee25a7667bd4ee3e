//! The items of a projection, on the pairs of rows of a join.

use og_base::NoMemory;
use og_expr::row_of_pair;
use og_ops::PairMap;
use og_query::Expr;
use og_value::Row;
use sqlite_items::Items;
use std::alloc::Global;

// Items, as the row of their values on two rows.
#[derive(Drop)]
pub(crate) struct ItemPairs<'a> {
    pub(crate) items: &'a Items<Expr>,
}

impl PairMap<Row> for ItemPairs<'_> {
    ghost use Rattle.og_query.specs.Queries as meant;

    ghost image = { λ pairs d row. meant.image d pairs.items.now row };

    fn map_pair(&self, alloc: Global, left: &Row, right: &Row) -> Result<Row, NoMemory> {
        row_of_pair(alloc, self.items.as_slice(), left, right)
    }
}
