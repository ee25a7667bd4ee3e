//! Whether a condition may hold on some day: a test that takes no memory and tells most pairs apart.
ghost use Rattle.std.specs.Prelude.{◌≡◌};
ghost use Rattle.std.specs.List.{list_all, list_any};
ghost use Rattle.std.specs.Option.{option_map};
ghost use Rattle.og_time.specs.Period.{Period};
ghost use Rattle.og_expr.specs.Bounds as meant;

use crate::columns::Columns;
use og_base::FixedPeriod;
use og_query::{Cond, Expr, allows};
use og_time::OngoingPeriod;
use og_value::{Cmp, Pred, Value};
use sqlite_items::Items;

// Whether the condition may hold of the columns: where not, it holds on no day. Numbers and texts are
// compared as they are, and periods by what is round their values on all days.
#[cycle(bounds)]
pub(crate) fn may_hold(cond: &Cond, columns: &Columns<'_>) -> bool
    ensures { result ≡ meant.may_hold columns.now cond.now }
{
    match cond {
        Cond::And(parts) => all_may_hold(parts, &*columns),
        Cond::Or(parts) => any_may_hold(parts, &*columns),
        Cond::Not(_) | Cond::Empty(_) | Cond::Contains(..) => true,
        Cond::Compare { op, left, right } => {
            match (known(left, &*columns), known(right, &*columns)) {
                (Some(left), Some(right)) => may_compare(*op, left, right),
                _ => true,
            }
        }
        Cond::Relate { pred, left, right } => {
            match (known(left, &*columns), known(right, &*columns)) {
                (Some(left), Some(right)) => may_relate(*pred, left, right),
                _ => true,
            }
        }
    }
}

// Whether each of the conditions may hold of the columns.
#[cycle(bounds)]
pub(crate) fn all_may_hold(parts: &Items<Cond>, columns: &Columns<'_>) -> bool
    ensures { result ≡ list_all (meant.may_hold columns.now) parts.now }
{
    'parts: for part in parts.as_slice() {
        if !may_hold(part, &*columns) {
            return false;
        }
    }
    true
}

// Whether one of the conditions may hold of the columns.
#[cycle(bounds)]
fn any_may_hold(parts: &Items<Cond>, columns: &Columns<'_>) -> bool
    ensures { result ≡ list_any (meant.may_hold columns.now) parts.now }
{
    'parts: for part in parts.as_slice() {
        if may_hold(part, &*columns) {
            return true;
        }
    }
    false
}

// The value of an expression that is a column or a literal; None of a call.
fn known<'a>(expr: &'a Expr, columns: &Columns<'a>) -> Option<&'a Value>
    ensures { option_map (λ v. v.now) result ≡ meant.known columns.now expr.now }
{
    match expr {
        Expr::Column(place) => columns.get(*place),
        Expr::Lit(value) => Some(value),
        Expr::Call { .. } => None,
    }
}

// Whether the values may compare so.
fn may_compare(op: Cmp, left: &Value, right: &Value) -> bool
    ensures { result ≡ meant.may_compare op left.now right.now }
{
    match (left, right) {
        (Value::Int(m), Value::Int(n)) => allows(op, m.cmp(n)),
        (Value::Text(s), Value::Text(t)) => allows(op, s.cmp(t)),
        (Value::Point(_), Value::Point(_)) => true,
        _ => false,
    }
}

// Whether the values may be periods in this relation.
fn may_relate(pred: Pred, left: &Value, right: &Value) -> bool
    ensures { result ≡ meant.may_relate pred left.now right.now }
{
    match (left, right) {
        (Value::Period(i), Value::Period(j)) => may_stand(pred, outer(*i), outer(*j)),
        _ => false,
    }
}

// The fixed period round the values of a period on all days.
fn outer(period: OngoingPeriod) -> FixedPeriod
    ensures { result ≡ meant.outer period }
{
    period.ordered();
    period.outer()
}

// Whether periods inside these two may stand in this relation. In any relation the first begins before
// the second ends, and but for BEFORE and MEETS the second begins before the first ends.
fn may_stand(pred: Pred, first: FixedPeriod, second: FixedPeriod) -> bool
    ensures { result ≡ meant.may_stand pred first second }
{
    if first.start >= second.end {
        return false;
    }
    match pred {
        Pred::Before | Pred::Meets => true,
        Pred::Overlaps | Pred::Starts | Pred::Finishes | Pred::During | Pred::Equals => {
            second.start < first.end
        }
    }
}
