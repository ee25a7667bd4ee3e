//! Which rows a change may touch.
ghost use Rattle.std.specs.Prelude.{◌≡◌};

use og_expr::RowBounds;
use og_query::Cond;
use og_reduce::NumberTest;
use og_rel::RowTest;
use og_value::Row;
use std::alloc::Global;
use std::marker::Model;

// The rows that a change with a condition may touch: those of which the condition may hold on some day.
// Seen as the condition.
#[derive(Drop)]
pub(crate) struct Touched<'c> {
    bounds: RowBounds<'c>,
}

impl<'c> Model for Touched<'c> {
    ghost use Rattle.std.specs.Coded.{codes};
    ghost use Rattle.og_query.specs.contracts.condition.Cond as c;
    ghost use Rattle.og_query.specs.declared.condition.Cond.{Cond as OneCond};

    ghost Value = { OneCond };

    ghost coded = { Prim.hlevel (codes, c.the_row.coded) };

    ghost view = { λ t. t.bounds };
}

impl<'c> Touched<'c> {
    // The rows that a change with this condition may touch. Takes no memory.
    pub(crate) fn new(alloc: Global, cond: &'c Cond) -> Touched<'c>
        ensures { result ≡ cond.now }
    {
        Touched {
            bounds: RowBounds::new(alloc, cond),
        }
    }
}

impl RowTest<Row> for Touched<'_> {
    ghost use Rattle.og_expr.specs.Bounds.{may_hold};

    ghost passes = { λ t row. may_hold row t };

    fn test(&self, row: &Row) -> bool {
        self.bounds.may_hold(row)
    }
}

impl NumberTest for Touched<'_> {
    fn column(&self) -> Option<usize> {
        self.bounds.column()
    }

    fn may_have(&self, column: usize, number: &i64) -> bool {
        self.bounds.may_have(column, number)
    }
}
