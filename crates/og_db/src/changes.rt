//! What a change makes of rows: what is taken of them, what is left, and what assignments make of them.
ghost use Rattle.std.specs.Prelude.{◌≡◌, ◌≤◌, ℤ, List, IfOk, filter, length, map, not};
ghost use Rattle.std.specs.List.{All};
ghost use Rattle.og_base.specs.Calendar.{IsRefDay};
ghost use Rattle.og_base.specs.Set.{set_of};
ghost use Rattle.og_rel.specs.Relations.{relation_at};
ghost use Rattle.og_value.specs.Order.{row_order};
ghost use Rattle.og_value.specs.Values.{row_at};
ghost use Rattle.og_value.specs.declared.schema.Column.{Column};
ghost use Rattle.og_query.specs.Conditions.{truth};
ghost use Rattle.og_query.specs.Fits.{IsFitAssign};
ghost use Rattle.og_db.specs.Database.{HaveKinds};
ghost use Rattle.og_db.specs.Fits.{KeepsKinds};
ghost use Rattle.og_db.specs.Statements.{assigned};

use crate::assignments::Assignments;
use crate::laws::fitting_rows;
use og_base::NoMemory;
use og_expr::CondDays;
use og_ops::{Project, Restrict, Select, UnaryOp};
use og_query::{Assign, Cond};
use og_rel::Rel;
use og_value::Row;
use std::alloc::Global;

// The rows, each on the days on which the condition does not hold of it. Refused only for want of memory.
pub(crate) fn left_of(alloc: Global, rows: &Rel<Row>, cond: &Cond) -> Result<Rel<Row>, NoMemory>
    ensures law { IfOk result (λ left. (d : ℤ) → IsRefDay d → relation_at row_order row_at left d
        ≡ filter (λ row. not (truth d row cond.now)) (relation_at row_order row_at rows.now d)) }
    ensures kinds { IfOk result (λ left. (columns : List Column) → HaveKinds columns rows.now → HaveKinds columns left) }
    ensures size { IfOk result (λ left. length left ≤ length rows.now) }
{
    let left = Restrict {
        cond: CondDays { cond },
    };
    made_of(alloc, rows, &left)
}

// The rows, each on the days on which the condition holds of it. Refused only for want of memory.
pub(crate) fn gone_of(alloc: Global, rows: &Rel<Row>, cond: &Cond) -> Result<Rel<Row>, NoMemory>
    ensures law { IfOk result (λ gone. (d : ℤ) → IsRefDay d → relation_at row_order row_at gone d
        ≡ filter (λ row. truth d row cond.now) (relation_at row_order row_at rows.now d)) }
    ensures kinds { IfOk result (λ gone. (columns : List Column) → HaveKinds columns rows.now → HaveKinds columns gone) }
    ensures size { IfOk result (λ gone. length gone ≤ length rows.now) }
{
    let gone = Select {
        cond: CondDays { cond },
    };
    made_of(alloc, rows, &gone)
}

// What the assignments make of the rows. Refused only for want of memory.
pub(crate) fn assigned_of(
    alloc: Global,
    rows: &Rel<Row>,
    sets: &[Assign],
) -> Result<Rel<Row>, NoMemory>
    ensures law { IfOk result (λ made. (d : ℤ) → IsRefDay d → relation_at row_order row_at made d
        ≡ set_of row_order (map (assigned d sets.now) (relation_at row_order row_at rows.now d))) }
    ensures kinds { IfOk result (λ made. (columns : List Column) → All (IsFitAssign columns) sets.now →
        HaveKinds columns rows.now → HaveKinds columns made) }
    ensures size { IfOk result (λ made. length made ≤ length rows.now) }
{
    let assigned = Project {
        items: Assignments { sets },
    };
    made_of(alloc, rows, &assigned)
}

// What the operator makes of the rows: they fit columns where it keeps what fits them.
fn made_of<O: UnaryOp<Row>>(alloc: Global, rows: &Rel<Row>, op: &O) -> Result<Rel<Row>, NoMemory>
    ensures law { IfOk result (λ made. (d : ℤ) → IsRefDay d → relation_at row_order row_at made d
        ≡ O.plain op.now d (relation_at row_order row_at rows.now d)) }
    ensures kinds { IfOk result (λ made. (columns : List Column) → KeepsKinds columns (O.plain op.now) →
        HaveKinds columns rows.now → HaveKinds columns made) }
    ensures size { IfOk result (λ made. length made ≤ O.most op.now (length rows.now)) }
{
    fitting_rows();
    let made = op.apply(alloc, rows)?;
    made.some_days();
    Ok(made)
}
