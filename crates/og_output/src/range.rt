//! On which days a relation is laid out the same.
ghost use Rattle.std.specs.Prelude.{◌≡◌, List, IfOk};
ghost use Rattle.og_value.specs.Order.{row_order};
ghost use Rattle.og_value.specs.Values.{row_at};
ghost use Rattle.og_value.specs.declared.schema.Column.{Column};
ghost use Rattle.og_rel.specs.Relations.{relation_at};
ghost use Rattle.og_change.specs.Same.{IsLongest};
ghost use Rattle.og_db.specs.Database.{HaveKinds};
ghost use Rattle.og_output.specs.Records.{layout};

use crate::calendar::of_calendar;
use crate::freeze::RowFreezer;
use og_base::{DayRange, NoMemory, RefDay};
use og_change::valid_range;
use og_db::fitting_rows;
use og_rel::Rel;
use og_value::{Row, one_text_a_cell, order_of_rows};
use std::alloc::Global;

/// The longest range of days around the day on all of which the rows are laid out as on the day, under any columns
/// that they fit. It is found among the lists of rows: two of them are the same where their layouts are, since a
/// row of the columns' kinds is told by the texts of its values.
pub fn layout_range(alloc: Global, rel: &Rel<Row>, day: RefDay) -> Result<DayRange, NoMemory>
    ensures { IfOk result (λ range. (columns : List Column) → HaveKinds columns rel.now →
        IsLongest (λ d. layout columns (relation_at row_order row_at rel.now d) ≡ layout columns (relation_at row_order row_at rel.now day)) day range) }
{
    order_of_rows();
    fitting_rows();
    one_text_a_cell();
    // For its clause: the day is a reference day.
    day.number();
    of_calendar(rel);
    valid_range(alloc, rel, day, &RowFreezer::new(alloc))
}
