//! The parts of a condition, which all have to hold: what they say of rows alone, and what of days.

use crate::conditions::{is_steady, put_days, put_truth};
use crate::expressions::put_expr;
use crate::sight::Sight;
use crate::sql::Sql;
use og_query::{Cond, Expr};
use og_value::{Cmp, Pred};
use std::slice;

/// The parts of a condition: those of an AND, or the condition itself.
pub fn parts_in(cond: &Cond) -> &[Cond] {
    match cond {
        Cond::And(parts) => parts.as_slice(),
        other => slice::from_ref(other),
    }
}

/// Whether some part depends on the day.
pub fn has_days(parts: &[Cond], sight: Sight<'_>) -> bool {
    'parts: for part in parts {
        if !is_steady(part, sight) {
            return true;
        }
    }
    false
}

/// Appends ` * ` and the days of each part that depends on the day.
pub fn put_products(parts: &[Cond], sight: Sight<'_>, out: &mut Sql) {
    'parts: for part in parts {
        put_product(part, sight, out);
    }
}

// Appends the days of a part that depends on the day.
fn put_product(part: &Cond, sight: Sight<'_>, out: &mut Sql) {
    if is_steady(part, sight) {
        return;
    }
    out.put(" * ");
    put_days(part, sight, out)
}

/// Appends a truth for each part that tells rows apart without a look at days, the first behind the word, and
/// each further one behind AND. Gives the word before a further one.
pub fn put_tests(
    first: &'static str,
    parts: &[Cond],
    sight: Sight<'_>,
    out: &mut Sql,
) -> &'static str {
    let mut word = first;
    'parts: for part in parts {
        word = put_test(word, part, sight, out);
    }
    word
}

// Appends the truth of a part, where it has one: of one on numbers and texts the part itself, of an overlap of
// two columns that the bounds of their dates do.
fn put_test(word: &'static str, part: &Cond, sight: Sight<'_>, out: &mut Sql) -> &'static str {
    if is_steady(part, sight) {
        out.put(word);
        put_truth(part, sight, out);
        return " AND ";
    }
    let Cond::Relate {
        pred: Pred::Overlaps,
        left: Expr::Column(left),
        right: Expr::Column(right),
    } = part
    else {
        return word;
    };
    out.put(word);
    put_bound(*left, *right, sight, out);
    out.put(" AND ");
    put_bound(*right, *left, sight, out);
    " AND "
}

// Appends that the one period starts on some day before the other ends on some day.
fn put_bound(start: usize, end: usize, sight: Sight<'_>, out: &mut Sql) {
    out.put("(");
    sight.put_column(start, out);
    out.put(").start_low < (");
    sight.put_column(end, out);
    out.put(").end_high")
}

/// Whether some part asks for equal numbers or texts of the left and the right row.
pub fn has_key(parts: &[Cond], sight: Sight<'_>) -> bool {
    'parts: for part in parts {
        if is_key(part, sight) {
            return true;
        }
    }
    false
}

// Whether the part asks for equal numbers or texts of both rows.
fn is_key(part: &Cond, sight: Sight<'_>) -> bool {
    match part {
        Cond::Compare {
            op: Cmp::Eq,
            left,
            right,
        } => sight.is_steady(left) && sight.are_of_both(left, right),
        _ => false,
    }
}

/// Appends the test of outer ranges of the first part that asks whether columns of both rows overlap. Gives the word
/// before a further test.
pub fn put_outer(
    word: &'static str,
    parts: &[Cond],
    sight: Sight<'_>,
    out: &mut Sql,
) -> &'static str {
    'parts: for part in parts {
        if let Some((left, right)) = overlap_of(part, sight) {
            out.put(word);
            put_outer_of(left, right, sight, out);
            return " AND ";
        }
    }
    word
}

// The two columns, where the part asks whether one of each row overlap.
fn overlap_of<'a>(part: &'a Cond, sight: Sight<'_>) -> Option<(&'a Expr, &'a Expr)> {
    match part {
        Cond::Relate {
            pred: Pred::Overlaps,
            left,
            right,
        } if sight.are_of_both(left, right) => Some((left, right)),
        _ => None,
    }
}

/// The place in the right row of the column of the test that `put_outer` appends, where no part asks for a key.
pub fn outer_place(parts: &[Cond], sight: Sight<'_>) -> Option<usize> {
    if has_key(parts, sight) {
        return None;
    }
    'parts: for part in parts {
        if let Some((left, right)) = overlap_of(part, sight) {
            return sight.right_place(left, right);
        }
    }
    None
}

// Appends the test of the outer ranges of two columns.
fn put_outer_of(left: &Expr, right: &Expr, sight: Sight<'_>, out: &mut Sql) {
    out.put("outer(");
    put_expr(left, sight, out);
    out.put(") && outer(");
    put_expr(right, sight, out);
    out.put(")")
}
