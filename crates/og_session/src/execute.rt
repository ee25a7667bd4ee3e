//! What a statement does to the names.
ghost use Rattle.std.specs.Prelude.{◌≡◌, OnOk, OnErr};
ghost use Rattle.og_query.specs.Fits.{IsFit};
ghost use Rattle.og_query.specs.declared.typed.Typed.{Typed};
ghost use Rattle.og_query.specs.declared.typed.Typed.TheVariants as t;
ghost use Rattle.og_db.specs.Effects.{on_names};
ghost use Rattle.og_db.specs.Held.{known_of};
ghost use Rattle.og_db.specs.Runs.{stored};
ghost use Rattle.og_db.specs.Statements.{IsOfNames};
ghost use Rattle.og_session.specs.Following.{IsNoChange};
ghost use Rattle.og_session.specs.Lives.{IsLiveTyped};
ghost use Rattle.og_session.specs.Names.{IsDone};

use crate::answer::answer;
use crate::names::Names;
use og_base::NoMemory;
use og_par::{Crew, Gate};
use og_query::{Query, Typed};
use og_value::Name;
use std::thread::Threads;

/// Carries out a statement that acts on names alone and whose names and kinds fit. Refused only for want of
/// memory, and then the tables and the kept results are as they were.
pub fn execute<H: Threads + Sync, G: Gate + Sync>(
    crew: &Crew<'_, H, G>,
    stmt: Typed,
    names: &mut Names,
) -> Result<(), NoMemory>
    requires live { IsLiveTyped stmt }
    requires fits { IsFit (known_of names.old.names) stmt }
    ensures done { OnOk result ((of : IsOfNames stmt) → IsDone names.old names.new (on_names (stmt, of))) }
    ensures refused { OnErr result (stored names.new.names ≡ stored names.old.names) }
{
    match stmt {
        Typed::Insert { .. } | Typed::Delete { .. } | Typed::Update { .. } => {
            names.keep_columns();
            names.change(crew, stmt)
        }
        other => {
            let done = name_or_drop(crew, &other, names);
            drop(other);
            done
        }
    }
}

// Carries out a statement that changes no rows of a table.
fn name_or_drop<H: Threads + Sync, G: Gate + Sync>(
    crew: &Crew<'_, H, G>,
    stmt: &Typed,
    names: &mut Names,
) -> Result<(), NoMemory>
    requires other { IsNoChange stmt.now }
    requires live { IsLiveTyped stmt.now }
    requires fits { IsFit (known_of names.old.names) stmt.now }
    ensures done { OnOk result ((of : IsOfNames stmt.now) → IsDone names.old names.new (on_names (stmt.now, of))) }
    ensures refused { OnErr result (stored names.new.names ≡ stored names.old.names) }
{
    match stmt {
        Typed::Create { name, schema } => names.create(name.copy()?, schema.copy()?),
        Typed::Drop { name } => {
            names.drop_name(name);
            Ok(())
        }
        Typed::Keep { name, query } => keep(crew, name, query, names),
        Typed::Live { name, query } => names.live(crew, name, query),
        // A PRINT, TABLES, EXPLAIN or VALID only writes.
        _ => {
            names.stay();
            Ok(())
        }
    }
}

// Keeps the answer of a query under a name that is new.
fn keep<H: Threads + Sync, G: Gate + Sync>(
    crew: &Crew<'_, H, G>,
    name: &Name,
    query: &Query,
    names: &mut Names,
) -> Result<(), NoMemory>
    requires fits { IsFit (known_of names.old.names) (t.Keep name.now query.now) }
    ensures done { OnOk result (IsDone names.old names.new (on_names (t.Keep name.now query.now, tt))) }
    ensures refused { OnErr result (stored names.new.names ≡ stored names.old.names) }
{
    names.rows_fit();
    let rel = answer(crew, query, &*names)?;
    names.keep(name.copy()?, query.first.schema.copy()?, rel)
}
