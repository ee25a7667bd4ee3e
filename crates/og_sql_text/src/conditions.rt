//! Conditions: those on numbers and texts as truths, all others as the days on which they hold.

use crate::expressions::put_expr;
use crate::sight::Sight;
use crate::sql::Sql;
use og_query::{Cond, Expr};
use og_value::{Cmp, Pred};
use sqlite_items::Items;

/// Whether the condition asks for numbers and texts alone, and so is the same on all days.
#[cycle(steady)]
pub fn is_steady(cond: &Cond, sight: Sight<'_>) -> bool {
    match cond {
        Cond::And(parts) | Cond::Or(parts) => are_steady(parts, sight),
        Cond::Not(one) => is_steady(one.get(), sight),
        Cond::Compare { left, .. } => sight.is_steady(left),
        _ => false,
    }
}

// Whether all of the conditions do.
#[cycle(steady)]
fn are_steady(parts: &Items<Cond>, sight: Sight<'_>) -> bool {
    'parts: for part in parts.as_slice() {
        if !is_steady(part, sight) {
            return false;
        }
    }
    true
}

/// Appends a condition that is the same on all days, as a truth.
#[cycle(truths)]
pub fn put_truth(cond: &Cond, sight: Sight<'_>, out: &mut Sql) {
    match cond {
        Cond::And(parts) => put_truths(parts, "true", " AND ", sight, out),
        Cond::Or(parts) => put_truths(parts, "false", " OR ", sight, out),
        Cond::Not(one) => {
            out.put("NOT ");
            put_truth(one.get(), sight, out)
        }
        Cond::Compare { op, left, right } => {
            out.put("(");
            put_expr(left, sight, out);
            out.put(sign_of(*op));
            put_expr(right, sight, out);
            out.put(")")
        }
        _ => {}
    }
}

// Appends truths with a word between them, and the other word where there are none.
#[cycle(truths)]
fn put_truths(parts: &Items<Cond>, none: &str, word: &str, sight: Sight<'_>, out: &mut Sql) {
    out.put("(");
    out.put(if parts.is_empty() { none } else { "" });
    let mut between = "";
    'parts: for part in parts.as_slice() {
        out.put(between);
        put_truth(part, sight, out);
        between = word;
    }
    out.put(")")
}

// The sign of a comparison.
fn sign_of(op: Cmp) -> &'static str {
    match op {
        Cmp::Eq => " = ",
        Cmp::Ne => " <> ",
        Cmp::Lt => " < ",
        Cmp::Le => " <= ",
        Cmp::Gt => " > ",
        Cmp::Ge => " >= ",
    }
}

// The function of a comparison of two days.
fn compared(op: Cmp) -> &'static str {
    match op {
        Cmp::Eq => "same(",
        Cmp::Ne => "differs(",
        Cmp::Lt => "less(",
        Cmp::Le => "at_most(",
        Cmp::Gt => "more(",
        Cmp::Ge => "at_least(",
    }
}

// The function of a predicate.
fn related(pred: Pred) -> &'static str {
    match pred {
        Pred::Before => "before(",
        Pred::Meets => "meets(",
        Pred::Overlaps => "overlaps(",
        Pred::Starts => "starts(",
        Pred::Finishes => "finishes(",
        Pred::During => "during(",
        Pred::Equals => "equals(",
    }
}

/// Appends the days on which the condition holds.
#[cycle(days)]
pub fn put_days(cond: &Cond, sight: Sight<'_>, out: &mut Sql) {
    if is_steady(cond, sight) {
        out.put("days(");
        put_truth(cond, sight, out);
        return out.put(")");
    }
    match cond {
        Cond::And(parts) => put_all_days(parts, " * ", sight, out),
        Cond::Or(parts) => put_all_days(parts, " + ", sight, out),
        Cond::Not(one) => {
            out.put("other_days(");
            put_days(one.get(), sight, out);
            out.put(")")
        }
        Cond::Compare { op, left, right } => put_two(compared(*op), left, right, sight, out),
        Cond::Relate { pred, left, right } => put_two(related(*pred), left, right, sight, out),
        Cond::Empty(period) => {
            out.put("empty(");
            put_expr(period, sight, out);
            out.put(")")
        }
        Cond::Contains(period, day) => put_two("contains(", period, day, sight, out),
    }
}

// Appends the days of several conditions with a sign between them.
#[cycle(days)]
fn put_all_days(parts: &Items<Cond>, sign: &str, sight: Sight<'_>, out: &mut Sql) {
    out.put("(");
    let mut between = "";
    'parts: for part in parts.as_slice() {
        out.put(between);
        put_days(part, sight, out);
        between = sign;
    }
    out.put(")")
}

// Appends a call with two expressions.
fn put_two(call: &str, left: &Expr, right: &Expr, sight: Sight<'_>, out: &mut Sql) {
    out.put(call);
    put_expr(left, sight, out);
    out.put(", ");
    put_expr(right, sight, out);
    out.put(")")
}
