//! Rows as they are on a day, set on all days.
ghost use Rattle.std.specs.Prelude.{◌≡◌, ◌∷◌, [], ℤ, IfOk};
ghost use Rattle.og_base.specs.Calendar.{IsRefDay};
ghost use Rattle.og_value.specs.Values.{value_at};
ghost use Rattle.og_time.specs.Point.{point_at};

use og_base::{NoMemory, RefDay};
use og_change::Freezer;
use og_time::{OngoingPeriod, OngoingPoint};
use og_value::{Row, Value};
use std::alloc::Global;

/// Makes of a row the one that has on every day the values of that row on the day.
#[derive(Drop)]
pub struct RowFreezer {
    alloc: Global,
}

impl RowFreezer {
    /// Takes no memory.
    pub fn new(alloc: Global) -> RowFreezer {
        RowFreezer { alloc }
    }
}

impl Freezer<Row> for RowFreezer {
    fn frozen(&self, row: &Row, d: RefDay) -> Result<Row, NoMemory> {
        let mut values = Vec::with_capacity(self.alloc, row.len())?;
        'values: for i in 0..row.len() {
            values.push(frozen_value(row.value(i), d)?)?;
        }
        Ok(Row::of(values))
    }
}

// The value that is on every day what the value is on the day.
fn frozen_value(value: &Value, d: RefDay) -> Result<Value, NoMemory>
    ensures { IfOk result (λ v. (e : ℤ) → IsRefDay e → value_at v e ≡ value_at value.now d) }
{
    match value {
        Value::Int(_) | Value::Text(_) => value.copy(),
        Value::Point(point) => Ok(Value::Point(frozen_point(*point, d))),
        Value::Period(period) => {
            let start = frozen_point(period.start(), d);
            let end = frozen_point(period.end(), d);
            Ok(Value::Period(OngoingPeriod::new(start, end)))
        }
    }
}

// The point that is on every day what the point is on the day.
fn frozen_point(point: OngoingPoint, d: RefDay) -> OngoingPoint
    ensures { (e : ℤ) → IsRefDay e → point_at result e ≡ point_at point d }
{
    let day = point.at(d);
    OngoingPoint::new(day, day).unwrap()
}
