//! Conditions, as the days on which they hold of a row.
ghost use Rattle.std.specs.Prelude.{◌≡◌, ℤ, IfOk};
ghost use Rattle.std.specs.List.{list_all, list_any};
ghost use Rattle.og_base.specs.Calendar.{IsRefDay};
ghost use Rattle.og_base.specs.Ranges.{holds_day};
ghost use Rattle.og_value.specs.Values.{row_at};
ghost use Rattle.og_query.specs.Conditions.{truth};

use crate::bounds::{all_may_hold, may_hold};
use crate::column_test::first_may_hold;
use crate::columns::Columns;
use crate::comparisons::{compare_days, contain_days, empty_days, relate_days};
use crate::values::value;
use og_base::{DayCond, NoMemory, RtSet};
use og_query::Cond;
use og_value::Row;
use sqlite_items::Items;
use std::alloc::Global;

/// A condition, as the days on which it holds of a row.
#[derive(Drop)]
pub struct CondDays<'a> {
    pub cond: &'a Cond,
}

impl DayCond<Row> for CondDays<'_> {
    ghost holds = { λ c d row. truth d row c.cond.now };

    fn days(&self, alloc: Global, row: &Row) -> Result<RtSet, NoMemory> {
        let none = Row::empty(alloc);
        let columns = Columns {
            left: row,
            right: &none,
        };
        days(alloc, self.cond, &columns)
    }

    fn days_of_pair(&self, alloc: Global, left: &Row, right: &Row) -> Result<RtSet, NoMemory> {
        days(alloc, self.cond, &Columns { left, right })
    }

    fn may_hold(&self, left: &Row, right: &Row) -> bool {
        may_hold(self.cond, &Columns { left, right })
    }
}

/// All of some conditions, as the days on which they hold of a row.
#[derive(Drop)]
pub struct PartDays<'a> {
    pub parts: &'a Items<Cond>,
}

impl DayCond<Row> for PartDays<'_> {
    ghost use Rattle.std.specs.List.{list_all};

    ghost holds = { λ c d row. list_all (truth d row) c.parts.now };

    fn days(&self, alloc: Global, row: &Row) -> Result<RtSet, NoMemory> {
        // These tests take no memory and refuse most rows, the first one by one column.
        if !first_may_hold(self.parts, row) {
            return Ok(RtSet::empty(alloc));
        }
        let none = Row::empty(alloc);
        let columns = Columns {
            left: row,
            right: &none,
        };
        if !all_may_hold(self.parts, &columns) {
            return Ok(RtSet::empty(alloc));
        }
        all_days(alloc, self.parts, &columns)
    }

    fn days_of_pair(&self, alloc: Global, left: &Row, right: &Row) -> Result<RtSet, NoMemory> {
        all_days(alloc, self.parts, &Columns { left, right })
    }

    fn may_hold(&self, left: &Row, right: &Row) -> bool {
        all_may_hold(self.parts, &Columns { left, right })
    }
}

// The days on which the condition holds of the columns.
#[cycle(conditions)]
fn days(alloc: Global, cond: &Cond, columns: &Columns<'_>) -> Result<RtSet, NoMemory>
    ensures { IfOk result (λ s. (d : ℤ) → IsRefDay d → holds_day s d ≡ truth d (row_at columns.now d) cond.now) }
{
    match cond {
        Cond::And(parts) => all_days(alloc, parts, columns),
        Cond::Or(parts) => any_days(alloc, parts, columns),
        Cond::Not(part) => days(alloc, part.get(), columns)?.complement(),
        Cond::Compare { op, left, right } => {
            let left = value(alloc, left, columns)?;
            let right = value(alloc, right, columns)?;
            compare_days(alloc, *op, &left, &right)
        }
        Cond::Relate { pred, left, right } => {
            let left = value(alloc, left, columns)?;
            let right = value(alloc, right, columns)?;
            relate_days(alloc, *pred, &left, &right)
        }
        Cond::Empty(period) => empty_days(alloc, &value(alloc, period, columns)?),
        Cond::Contains(period, day) => {
            let period = value(alloc, period, columns)?;
            let day = value(alloc, day, columns)?;
            contain_days(alloc, &period, &day)
        }
    }
}

// The days on which all of the conditions hold of the columns.
#[cycle(conditions)]
fn all_days(alloc: Global, parts: &Items<Cond>, columns: &Columns<'_>) -> Result<RtSet, NoMemory>
    ensures { IfOk result (λ s. (d : ℤ) → IsRefDay d → holds_day s d ≡ list_all (truth d (row_at columns.now d)) parts.now) }
{
    let mut held = RtSet::all(alloc)?;
    'parts: for part in parts.as_slice() {
        held = held.meet(&days(alloc, part, columns)?)?;
    }
    Ok(held)
}

// The days on which one of the conditions holds of the columns.
#[cycle(conditions)]
fn any_days(alloc: Global, parts: &Items<Cond>, columns: &Columns<'_>) -> Result<RtSet, NoMemory>
    ensures { IfOk result (λ s. (d : ℤ) → IsRefDay d → holds_day s d ≡ list_any (truth d (row_at columns.now d)) parts.now) }
{
    let mut held = RtSet::empty(alloc);
    'parts: for part in parts.as_slice() {
        held = held.union(&days(alloc, part, columns)?)?;
    }
    Ok(held)
}
