//! The kinds of values, and what a name can stand for.

/// The kind of a value and of a column.
#[derive(Clone, Copy, Debug, PartialEq, Eq)]
pub enum Kind {
    /// A number of 64 bits with a sign.
    Int,
    /// A text in UTF-8.
    Text,
    /// An ongoing point.
    Date,
    /// An ongoing period.
    Period,
}

/// What a name stands for.
#[derive(Clone, Copy, Debug, PartialEq, Eq)]
pub enum What {
    /// A table, which statements change.
    Table,
    /// The result of a query, kept as it was.
    Kept,
    /// The result of a query, which follows its tables.
    Live,
}
