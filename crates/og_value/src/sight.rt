//! Rows as they are on a day, put in order without a copy of their values.
ghost use Rattle.std.specs.Prelude.{◌≡◌, ℤ, List};
ghost use Rattle.og_base.specs.Set.{IsExactOrder};
ghost use Rattle.og_value.specs.Heights.{IsListHeight, IsValueHeight};
ghost use Rattle.og_value.specs.Order as order;
ghost use Rattle.og_value.specs.Order.{row_order, value_order};
ghost use Rattle.og_value.specs.Values.{row_at, value_at};
ghost use Rattle.og_value.specs.declared.value.FixedValue as fixed;

use crate::height::{Height, height_on};
use crate::row::Row;
use crate::value::Value;
use og_base::RefDay;
use std::cmp::Ordering;
use std::marker::Model;

/// A row as it is on a day, seen as the list of its values on that day. Sights are ordered as rows of one day
/// are. The height of the first value stands beside the row, so that most are told apart by it.
#[derive(Drop)]
pub struct Sight<'r> {
    height: Height,
    row: &'r Row,
    day: RefDay,
}

impl<'r> Model for Sight<'r> {
    ghost use Rattle.std.specs.Prelude.{List};
    ghost use Rattle.og_value.specs.Heights.{IsListHeight, IsValueHeight};
    ghost use Rattle.og_value.specs.Values.{row_at};
    ghost use Rattle.og_value.specs.declared.value.FixedValue.{FixedValue};

    ghost Value = { List FixedValue };

    ghost view = { λ s. row_at s.row.now s.day };

    ghost invariant = { λ s. IsListHeight IsValueHeight (row_at s.row.now s.day) s.height };
}

impl<'r> Sight<'r> {
    /// The row as it is on the day. Takes no memory.
    pub fn new(row: &'r Row, day: RefDay) -> Sight<'r>
        ensures { result ≡ row_at row.now day }
    {
        Sight {
            height: Height::of(first_height(row.as_slice(), day)),
            row,
            day,
        }
    }

    /// The row, and the day on which it is seen.
    pub fn parts(&self) -> (&'r Row, RefDay)
        ensures { row_at result.0.now result.1 ≡ self.now }
    {
        (self.row, self.day)
    }
}

// The height of the first of the values on the day, and 0 where there is none.
fn first_height(values: &[Value], day: RefDay) -> u128
    ensures { IsListHeight IsValueHeight (row_at values.now day) result }
{
    match values.first() {
        Some(value) => height_on(value, day),
        None => 0,
    }
}

impl<'r> PartialEq for Sight<'r> {
    ghost use Rattle.std.specs.Cmp.{partial_equiv_from_equiv};
    ghost use Rattle.std.specs.Ordering.{eq_by_cmp};
    ghost use Rattle.og_value.specs.Exact.{rows_equal};
    ghost use Rattle.og_value.specs.Order.{row_order};

    ghost eq = { eq_by_cmp row_order };

    ghost laws = { partial_equiv_from_equiv rows_equal };

    fn eq(&self, other: &Self) -> bool {
        self.cmp(other) == Ordering::Equal
    }
}

impl<'r> Eq for Sight<'r> {
    ghost use Rattle.og_value.specs.Exact.{rows_equal};

    ghost laws = { rows_equal };
}

impl<'r> PartialOrd for Sight<'r> {
    ghost use Rattle.std.specs.Ordering.{as_partial_cmp};
    ghost use Rattle.og_value.specs.Exact.{rows_partial};
    ghost use Rattle.og_value.specs.Order.{row_order};

    ghost partial_cmp = { as_partial_cmp row_order };

    ghost laws = { rows_partial };

    fn partial_cmp(&self, other: &Self) -> Option<Ordering> {
        Some(self.cmp(other))
    }
}

impl<'r> Ord for Sight<'r> {
    ghost use Rattle.std.specs.Prelude.{refl};
    ghost use Rattle.og_value.specs.Exact.{rows_total};
    ghost use Rattle.og_value.specs.Order.{row_order};

    ghost cmp = { row_order };

    ghost total = { rows_total };

    ghost matches_partial_cmp = { λ x y. refl };

    ghost matches_eq = { λ x y. refl };

    fn cmp(&self, other: &Self) -> Ordering {
        let (height, other_height) = (self.height.number(), other.height.number());
        if height < other_height {
            return Ordering::Less;
        }
        if other_height < height {
            return Ordering::Greater;
        }
        compared(
            self.row.as_slice(),
            self.day,
            other.row.as_slice(),
            other.day,
        )
    }
}

// The order of two rows, each on a day.
fn compared(left: &[Value], left_day: RefDay, right: &[Value], right_day: RefDay) -> Ordering
    ensures { result ≡ row_order (row_at left.now left_day) (row_at right.now right_day) }
{
    'columns: for i in 0..left.len().min(right.len()) {
        let order = values_compared(&left[i], left_day, &right[i], right_day);
        if order != Ordering::Equal {
            return order;
        }
    }
    left.len().cmp(&right.len())
}

// The order of two values, each on a day.
fn values_compared(left: &Value, left_day: RefDay, right: &Value, right_day: RefDay) -> Ordering
    ensures { result ≡ value_order (value_at left.now left_day) (value_at right.now right_day) }
{
    match (left, right) {
        (Value::Int(m), Value::Int(n)) => m.cmp(n),
        (Value::Text(s), Value::Text(t)) => s.cmp(t),
        (Value::Point(p), Value::Point(q)) => p.at(left_day).cmp(&q.at(right_day)),
        (Value::Period(i), Value::Period(j)) => i.at(left_day).cmp(&j.at(right_day)),
        _ => rank(left).cmp(&rank(right)),
    }
}

// The place of the value's kind in the order of values.
fn rank(value: &Value) -> u8
    ensures { (d : ℤ) → result ≡ order.rank (value_at value.now d) }
{
    match value {
        Value::Int(_) => 0,
        Value::Text(_) => 1,
        Value::Point(_) => 2,
        Value::Period(_) => 3,
    }
}

/// Sights are ordered from the left by their values, and only sights of rows that are the same tie.
pub fn order_of_sights()
    ensures order { (x y : List fixed.FixedValue) → ⟦<Sight<'static> as Ord>⟧.cmp x y ≡ row_order x y }
    ensures exact { IsExactOrder ⟦<Sight<'static> as Ord>⟧.cmp }
{}
