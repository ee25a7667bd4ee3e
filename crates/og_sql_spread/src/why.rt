//! Why the nodes send rows.

use crate::parts::At;
use og_sql_text::Sql;
use og_value::Name;

/// Why a node cannot make its part of an answer alone.
#[derive(Clone, Copy, Debug, PartialEq, Eq)]
pub enum Why {
    /// A join without a key.
    NoKey,
    /// A join by other columns.
    OtherKey,
    /// EXCEPT or INTERSECT of rows without the column.
    OtherColumns,
    /// EXISTS or NOT EXISTS by other columns.
    OtherExists,
    /// A table or a live result that stands on the coordinator.
    Mixed,
}

/// Appends as a comment why the nodes send rows, where they do.
pub fn put_why(at: At, column: &Name, out: &mut Sql) {
    let At::Sent(why) = at else {
        return;
    };
    let (before, behind) = words_of(why);
    out.put("-- ");
    out.put(before);
    out.put_bytes(column.bytes());
    out.put(behind);
    out.put("\n")
}

// The words before and behind the column.
fn words_of(why: Why) -> (&'static str, &'static str) {
    match why {
        Why::NoKey => (
            "Not made on the nodes: the join has no key, not even ",
            ", so it needs all rows of both sides. The nodes send them.",
        ),
        Why::OtherKey => (
            "Not made on the nodes: the join is not by ",
            ", so it needs all rows of the other side. The nodes send them.",
        ),
        Why::OtherColumns => (
            "Not made on the nodes: rows are compared by other columns than ",
            ", so it needs all rows of the other side. The nodes send them.",
        ),
        Why::OtherExists => (
            "Not made on the nodes: EXISTS does not ask for an equal ",
            ", so it needs all rows of its table. The nodes send them.",
        ),
        Why::Mixed => (
            "Not made on the nodes: what has no ",
            ", and each live result, stands on the coordinator. The nodes send their rows to it.",
        ),
    }
}
