//! UNION, INTERSECT and EXCEPT.

use crate::node::{Count, Node, Source};
use crate::semis::{put_met, put_numbered};
use crate::sides::{have_no_key, put_days};
use og_sql_text::{Columns, Sql, is_steady_kind};
use og_value::{Kind, SetOp};

/// Appends the parts of two answers that are put together, whose columns have the same kinds and names.
pub fn put_combine(
    op: SetOp,
    left: &Node,
    right: &Node,
    answer: &Columns,
    count: &mut Count,
    out: &mut Sql,
) -> Node {
    match op {
        SetOp::Union => put_union(left, right, answer, count, out),
        SetOp::Except => put_compared(left, right, false, answer, count, out),
        SetOp::Intersect => put_compared(left, right, true, answer, count, out),
    }
}

// Appends the part of the rows of either.
fn put_union(
    left: &Node,
    right: &Node,
    answer: &Columns,
    count: &mut Count,
    out: &mut Sql,
) -> Node {
    let kept = count.by_itself();
    let source = count.begin("union", kept, out);
    out.put("SELECT ");
    answer.put_all("", out);
    out.put(", range_agg(days) AS days FROM (SELECT ");
    answer.put_all("", out);
    out.put(", days FROM ");
    left.put(out);
    out.put("\n    UNION ALL SELECT ");
    answer.put_all("", out);
    out.put(", days FROM ");
    right.put(out);
    out.put(") AS l GROUP BY ");
    answer.put_places(out);
    out.put(")");
    let columns = answer.copy(out);
    Node { source, columns }
}

// Appends the parts of the rows of the left that the right has, or has not, on the days on which it does.
fn put_compared(
    left: &Node,
    right: &Node,
    is_positive: bool,
    answer: &Columns,
    count: &mut Count,
    out: &mut Sql,
) -> Node {
    let input = Node {
        source: left.source.copy(out),
        columns: answer.copy(out),
    };
    let base = put_numbered(input, count, out);
    let others = if have_no_key(answer) {
        Node {
            source: right.source.copy(out),
            columns: answer.copy(out),
        }
    } else {
        put_others(right, answer, count, out)
    };
    let hits = put_same(&base, &others, answer, count, out);
    put_met(base, &hits, is_positive, count, out)
}

// Appends the part of the right rows, made before it is compared.
fn put_others(right: &Node, answer: &Columns, count: &mut Count, out: &mut Sql) -> Node {
    let source = count.begin("others", "MATERIALIZED ", out);
    out.put("SELECT * FROM ");
    right.put(out);
    out.put(")");
    let columns = answer.copy(out);
    Node { source, columns }
}

// Appends the part of the days on which a left row is a right one, by its number.
fn put_same(
    base: &Node,
    others: &Node,
    answer: &Columns,
    count: &mut Count,
    out: &mut Sql,
) -> Source {
    let kept = count.by_itself();
    let source = count.begin("found", kept, out);
    out.put("SELECT row$, range_agg(days) AS days FROM (SELECT l.row$, l.days * r.days");
    put_same_days(answer, out);
    out.put(" AS days\n    FROM ");
    base.put(out);
    out.put(" AS l JOIN ");
    others.put(out);
    out.put(" AS r ON ");
    put_same_tests(answer, out);
    out.put(" OFFSET 0) AS joined WHERE NOT isempty(days) GROUP BY 1)");
    source
}

// Appends the days on which the days and periods of both rows are the same.
fn put_same_days(answer: &Columns, out: &mut Sql) {
    'columns: for i in 0..answer.len() {
        if !is_steady_kind(answer.kind(i)) {
            out.put(" * same(l.");
            answer.put(i, out);
            out.put(", r.");
            answer.put(i, out);
            out.put(")");
        }
    }
}

// Appends that the numbers and texts of both rows are equal, and that their days may be.
fn put_same_tests(answer: &Columns, out: &mut Sql) {
    if have_no_key(answer) {
        put_days(answer, "l.", out);
        out.put(" && ");
        put_days(answer, "r.", out);
        out.put(" AND ");
    }
    'columns: for i in 0..answer.len() {
        out.put(if i > 0 { " AND " } else { "" });
        match answer.kind(i) {
            Kind::Int | Kind::Text => put_equal(answer, i, out),
            Kind::Date => put_meeting(answer, i, "low", "high", out),
            Kind::Period => {
                put_meeting(answer, i, "start_low", "start_high", out);
                out.put(" AND ");
                put_meeting(answer, i, "end_low", "end_high", out);
            }
        }
    }
}

// Appends that a column is equal in both rows.
fn put_equal(answer: &Columns, i: usize, out: &mut Sql) {
    out.put("l.");
    answer.put(i, out);
    out.put(" = r.");
    answer.put(i, out)
}

// Appends that two points may be the same day: each begins at the latest where the other ends.
fn put_meeting(answer: &Columns, i: usize, low: &str, high: &str, out: &mut Sql) {
    put_at_most(answer, i, "(l.", low, ").", "(r.", high, out);
    out.put(" AND ");
    put_at_most(answer, i, "(r.", low, ").", "(l.", high, out)
}

// Appends that one end of a column in the one row is at most another end of it in the other row.
fn put_at_most(
    answer: &Columns,
    i: usize,
    one: &str,
    low: &str,
    dot: &str,
    two: &str,
    high: &str,
    out: &mut Sql,
) {
    out.put(one);
    answer.put(i, out);
    out.put(dot);
    out.put(low);
    out.put(" <= ");
    out.put(two);
    answer.put(i, out);
    out.put(dot);
    out.put(high)
}
