//! Plans.
use og_query::{Cond, Expr, From1};
use og_value::{Name, Schema, SetOp};
use sqlite_items::{Boxed, Items};

/// How the answer of a query is made. In the conditions of a node a column is its place in the rows of
/// the node's input: for a join the left row followed by the right one, for a semi the input's row
/// followed by the table's.
#[derive(Drop)]
pub enum Plan {
    /// The rows of a name.
    Scan {
        name: Name,
        schema: Schema,
    },
    /// The rows for which all parts hold.
    Filter {
        input: Boxed<Plan>,
        parts: Items<Cond>,
    },
    /// All combinations of a left and a right row.
    Product {
        left: Boxed<Plan>,
        right: Boxed<Plan>,
    },
    /// The combinations whose columns are equal, pair by pair, and for which the rest holds.
    KeyJoin {
        left: Boxed<Plan>,
        right: Boxed<Plan>,
        pairs: Items<ColPair>,
        rest: Items<Cond>,
    },
    /// The combinations whose periods overlap and for which the rest holds.
    OverlapJoin {
        left: Boxed<Plan>,
        right: Boxed<Plan>,
        pair: ColPair,
        rest: Items<Cond>,
    },
    /// The set of the images of the rows.
    Project {
        input: Boxed<Plan>,
        items: Items<Expr>,
    },
    /// Two answers, combined.
    Combine {
        op: SetOp,
        left: Boxed<Plan>,
        right: Boxed<Plan>,
    },
    /// The rows that meet all of the semis.
    Semis {
        input: Boxed<Plan>,
        semis: Items<PlanSemi>,
    },
}

/// A condition that a row meets where some row of the table, joined after it, makes all of the parts
/// true, or, where it is not positive, where none does.
#[derive(Drop)]
pub struct PlanSemi {
    pub positive: bool,
    pub table: From1,
    pub parts: Items<Cond>,
}

/// A column of the left row and one of the right, by their places from 0.
#[derive(Clone, Copy, Debug, PartialEq, Eq)]
pub struct ColPair {
    pub left: usize,
    pub right: usize,
}

// Where a part of a condition belongs.
#[derive(Clone, Copy, Debug, PartialEq, Eq)]
pub(crate) enum Home {
    // At the leaf of the item with that number, from 0.
    Leaf(usize),
    // At the join of that item with those before it.
    Join(usize),
}
