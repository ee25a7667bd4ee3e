//! The words of expressions, conditions and queries.

/// A function on values.
#[derive(Clone, Copy, Debug, PartialEq, Eq)]
pub enum Func {
    /// The earlier of two days.
    Least,
    /// The later of two days.
    Greatest,
    /// What two periods have in common.
    Common,
    /// The day on which a period starts.
    Start,
    /// The day on which a period ends.
    End,
    /// The period from the one day to the other.
    Period,
}

/// A comparison of two values of one kind.
#[derive(Clone, Copy, Debug, PartialEq, Eq)]
pub enum Cmp {
    /// `=`
    Eq,
    /// `<>`
    Ne,
    /// `<`
    Lt,
    /// `<=`
    Le,
    /// `>`
    Gt,
    /// `>=`
    Ge,
}

/// A predicate on two periods. None holds of an empty period.
#[derive(Clone, Copy, Debug, PartialEq, Eq)]
pub enum Pred {
    /// The first ends before the second starts, or where it starts.
    Before,
    /// The first ends where the second starts.
    Meets,
    /// They have a day in common.
    Overlaps,
    /// They start on the same day.
    Starts,
    /// They end on the same day.
    Finishes,
    /// The first lies within the second.
    During,
    /// They have the same ends.
    Equals,
}

/// An operator on the answers of two queries.
#[derive(Clone, Copy, Debug, PartialEq, Eq)]
pub enum SetOp {
    /// The rows of either.
    Union,
    /// The rows of the first that the second lacks.
    Except,
    /// The rows of both.
    Intersect,
}
