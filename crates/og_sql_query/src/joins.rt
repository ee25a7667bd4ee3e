//! Joins.

use crate::node::{Count, Node};
use og_plan::ColPair;
use og_query::Cond;
use og_sql_text::{Columns, Sight, Sql, has_key, put_outer, put_products, put_tests};
use og_value::Kind;

/// Appends the part of all pairs of rows.
pub fn put_product(left: &Node, right: &Node, count: &mut Count, out: &mut Sql) -> Node {
    put_join(left, right, &[], &[], count, out)
}

/// Appends the part of the pairs of rows that have equal keys and for which the rest holds, on the days on which it
/// does and both are there. Without a key it is joined on the outer ranges of the first overlap, which have an index.
pub fn put_join(
    left: &Node,
    right: &Node,
    pairs: &[ColPair],
    rest: &[Cond],
    count: &mut Count,
    out: &mut Sql,
) -> Node {
    let sight = Sight {
        left: &left.columns,
        right: &right.columns,
    };
    let mut columns = Columns::none(out.alloc());
    columns.add_all(&left.columns, out);
    columns.add_all(&right.columns, out);
    let source = count.begin("join", "", out);
    out.put("SELECT * FROM (SELECT ");
    left.columns.put_all("l.", out);
    out.put(", ");
    put_right(left, right, &columns, out);
    out.put("l.days * r.days");
    put_products(rest, sight, out);
    out.put(" AS days\n    FROM ");
    put_sides(left, right, out);
    let word = put_pairs(pairs, count.is_indexed(), sight, out);
    put_on(word, pairs.is_empty(), rest, sight, out);
    out.put(" OFFSET 0) AS joined WHERE NOT isempty(days))");
    Node { source, columns }
}

// Appends the two inputs of a join.
fn put_sides(left: &Node, right: &Node, out: &mut Sql) {
    left.put(out);
    out.put(" AS l JOIN ");
    right.put(out);
    out.put(" AS r ON ")
}

// Appends the columns of the right row under the names that they have behind the left one.
fn put_right(left: &Node, right: &Node, columns: &Columns, out: &mut Sql) {
    'columns: for i in 0..right.columns.len() {
        let place = left.columns.len().saturating_add(i);
        out.put("r.");
        right.columns.put(i, out);
        if !right.columns.is_same(i, columns, place) {
            out.put(" AS ");
            columns.put(place, out);
        }
        out.put(", ");
    }
}

// Appends that the pairs of columns are equal. Gives the word before a further test.
fn put_pairs(pairs: &[ColPair], is_indexed: bool, sight: Sight<'_>, out: &mut Sql) -> &'static str {
    let mut word = "";
    'pairs: for pair in pairs {
        out.put(word);
        if is_indexed && sight.left.kind(pair.left) == Kind::Text {
            put_pair(
                *pair,
                "hashtext(l.",
                ") = hashtext(r.",
                ") AND ",
                sight,
                out,
            );
        }
        put_pair(*pair, "l.", " = r.", "", sight, out);
        word = " AND ";
    }
    word
}

// Appends the two columns of a pair, with words before, between and behind them.
fn put_pair(
    pair: ColPair,
    before: &str,
    between: &str,
    behind: &str,
    sight: Sight<'_>,
    out: &mut Sql,
) {
    out.put(before);
    sight.left.put(pair.left, out);
    out.put(between);
    sight.right.put(pair.right, out);
    out.put(behind)
}

/// Appends the tests of a join behind the word: without a key the outer ranges of an overlap, then what tells rows
/// apart, and `true` where there is none.
pub fn put_on(
    first: &'static str,
    is_keyless: bool,
    rest: &[Cond],
    sight: Sight<'_>,
    out: &mut Sql,
) {
    let mut word = first;
    if is_keyless && !has_key(rest, sight) {
        word = put_outer(word, rest, sight, out);
    }
    word = put_tests(word, rest, sight, out);
    out.put(if word.is_empty() { "true" } else { "" })
}
