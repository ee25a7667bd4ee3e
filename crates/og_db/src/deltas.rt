//! The deltas of statements that change the rows of a table.
ghost use Rattle.std.specs.Prelude.{◌≡◌, List, [], Some, IfOk};
ghost use Rattle.std.specs.List.{All};
ghost use Rattle.og_value.specs.declared.schema.Column.{Column};
ghost use Rattle.og_query.specs.Fits.{IsFitAssign, IsFitRow};
ghost use Rattle.og_query.specs.declared.typed.Typed.TheVariants as t;
ghost use Rattle.og_db.specs.Database.{HaveKinds, IsTableOf, Relation};
ghost use Rattle.og_db.specs.Deltas.{DoesStatement, IsDelta, TakesOut};
ghost use Rattle.og_db.specs.Held.{rows_of};

use crate::changes::{assigned_of, gone_of, left_of};
use crate::database::Db;
use crate::delta::Delta;
use crate::insertion::on_all_days;
use crate::touched::Touched;
use og_base::NoMemory;
use og_expr::bounds_hold;
use og_query::{Assign, Cond};
use og_rel::Rel;
use og_value::{Name, Row};
use std::alloc::Global;

/// The delta of an INSERT or an IMPORT: the rows, each present on all days. Refused only for want of memory.
pub fn delta_of_insert(
    alloc: Global,
    db: &Db,
    name: &Name,
    rows: Vec<Row>,
) -> Result<Delta, NoMemory>
    requires table { (columns : List Column) × IsTableOf columns db.now name.now × All (IsFitRow columns) rows.items }
    ensures delta { IfOk result (IsDelta db.now name.now) }
    ensures does { IfOk result (DoesStatement (t.Insert name.now rows.items, tt) db.now name.now) }
{
    db.names_differ();
    db.rows_fit();
    let _ = name;
    let at = Vec::new(alloc);
    let left = Rel::new(alloc);
    let gone = Rel::new(alloc);
    let added = on_all_days(alloc, rows)?;
    Ok(Delta {
        at,
        left,
        gone,
        added,
    })
}

/// The delta of a DELETE: the rows of which the condition holds are gone on the days on which it does. Refused
/// only for want of memory.
pub fn delta_of_delete(alloc: Global, db: &Db, name: &Name, cond: &Cond) -> Result<Delta, NoMemory>
    requires table { (columns : List Column) × IsTableOf columns db.now name.now }
    ensures delta { IfOk result (IsDelta db.now name.now) }
    ensures does { IfOk result (DoesStatement (t.Delete name.now cond.now, tt) db.now name.now) }
{
    db.names_differ();
    db.rows_fit();
    let taken = taken_out(alloc, db, name, cond)?;
    Ok(taken)
}

/// The delta of an UPDATE: the same rows are gone, and what the assignments make of them is new. Refused only
/// for want of memory.
pub fn delta_of_update(
    alloc: Global,
    db: &Db,
    name: &Name,
    sets: &[Assign],
    cond: &Cond,
) -> Result<Delta, NoMemory>
    requires table { (columns : List Column) × IsTableOf columns db.now name.now × All (IsFitAssign columns) sets.now }
    ensures delta { IfOk result (IsDelta db.now name.now) }
    ensures does { IfOk result (DoesStatement (t.Update name.now sets.now cond.now, tt) db.now name.now) }
{
    db.names_differ();
    db.rows_fit();
    let taken = taken_out(alloc, db, name, cond)?;
    let added = assigned_of(alloc, &taken.gone, sets)?;
    Ok(Delta {
        at: taken.at,
        left: taken.left,
        gone: taken.gone,
        added,
    })
}

// What a condition takes out of a table. The rows that it may hold of are looked up once, and copied once.
fn taken_out(alloc: Global, db: &Db, name: &Name, cond: &Cond) -> Result<Delta, NoMemory>
    requires table { (columns : List Column) × IsTableOf columns db.now name.now }
    ensures takes { IfOk result (λ delta. (rel : Relation) → rows_of db.now name.now ≡ Some rel → TakesOut cond.now rel delta) }
    ensures left { IfOk result (λ delta. (columns : List Column) → IsTableOf columns db.now name.now → HaveKinds columns delta.left) }
    ensures gone { IfOk result (λ delta. (columns : List Column) → IsTableOf columns db.now name.now → HaveKinds columns delta.gone) }
    ensures added { IfOk result (λ delta. delta.added ≡ []) }
{
    bounds_hold();
    let test = Touched::new(alloc, cond);
    let found = db.table(name).found(alloc, &test)?;
    let left = left_of(alloc, &found.rows, cond)?;
    let gone = gone_of(alloc, &found.rows, cond)?;
    let added = Rel::new(alloc);
    Ok(Delta {
        at: found.at,
        left,
        gone,
        added,
    })
}
