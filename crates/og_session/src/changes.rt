//! Statements that change the rows of a table.
ghost use Rattle.std.specs.Prelude.{◌≡◌, IfOk};
ghost use Rattle.og_query.specs.Fits.{IsFit};
ghost use Rattle.og_db.specs.Deltas.{DoesStatement, IsDelta};
ghost use Rattle.og_db.specs.Held.{known_of};
ghost use Rattle.og_db.specs.Statements.{IsOfNames};
ghost use Rattle.og_session.specs.Following.{IsChange, changed_name};

use og_base::NoMemory;
use og_db::{Db, Delta, delta_of_delete, delta_of_insert, delta_of_update};
use og_query::Typed;
use og_script::into_vec;
use og_value::Name;
use std::alloc::Global;

/// The name of the table that the statement changes, and the delta of it. The rows of an INSERT go into it
/// without a copy. Refused only for want of memory.
pub fn delta_of(alloc: Global, stmt: Typed, db: &Db) -> Result<(Name, Delta), NoMemory>
    requires change { IsChange stmt }
    requires fits { IsFit (known_of db.now) stmt }
    ensures name { IfOk result (λ one. one.0 ≡ changed_name stmt) }
    ensures delta { IfOk result (λ one. IsDelta db.now one.0 one.1) }
    ensures does { IfOk result (λ one. (of : IsOfNames stmt) → DoesStatement (stmt, of) db.now one.0 one.1) }
{
    match stmt {
        Typed::Insert { name, rows } => {
            let delta = delta_of_insert(alloc, db, &name, into_vec(alloc, rows)?)?;
            Ok((name, delta))
        }
        Typed::Delete { name, cond } => {
            let delta = delta_of_delete(alloc, db, &name, &cond)?;
            Ok((name, delta))
        }
        Typed::Update { name, sets, cond } => {
            let delta = delta_of_update(alloc, db, &name, sets.as_slice(), &cond)?;
            Ok((name, delta))
        }
        _ => unreachable!(),
    }
}
