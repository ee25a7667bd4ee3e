//! What VALID writes.
ghost use Rattle.std.specs.Prelude.{◌≡◌, List, IfOk};
ghost use Rattle.og_io.specs.declared.sink.PutRefusal.{PutRefusal};
ghost use Rattle.og_query.specs.Fits.{IsNamed};
ghost use Rattle.og_query.specs.declared.typed.Typed.TheVariants as t;
ghost use Rattle.og_db.specs.Database.{Relation};
ghost use Rattle.og_db.specs.Effects.{Effect, on_names};
ghost use Rattle.og_db.specs.Held.{Held, known_of};
ghost use Rattle.og_db.specs.Runs.{IsWorldOf};
ghost use Rattle.og_faults.specs.Counts.{IsFaultCount, is_unput};
ghost use Rattle.og_output.specs.Puts.{IsPut};
ghost use Rattle.og_session.specs.Headline.{HasGrown};
ghost use Rattle.og_session.specs.Output.{piece_of, valid_range};

use crate::names::Names;
use og_base::{DayRange, NoMemory, RefDay};
use og_io::{PutRefusal, Sink};
use og_output::{layout_range, put, range_text};
use og_rel::Tables;
use og_value::Name;
use std::alloc::Global;

/// Puts the longest range of days around the day on all of which a PRINT of the name, which is known, writes
/// the same. Where it is refused, a front of it was put.
pub fn put_valid<K: Sink>(
    alloc: Global,
    name: &Name,
    day: RefDay,
    names: &Names,
    out: &mut K,
) -> Result<(), PutRefusal>
    requires { IsNamed (known_of names.now.names) name.now }
    ensures put { (files : List (Held Relation)) (before : List Effect) → IsWorldOf names.now.names files before → IsPut (K.written out.old) (K.written out.new) (piece_of before (on_names (t.Valid name.now day, tt))) result }
    ensures counted { IsFaultCount (is_unput result) (K.faults out.old) (K.faults out.new) }
    ensures grown { HasGrown (K.written out.old) (K.written out.new) }
{
    let range = range_of(alloc, name, day, names)?;
    put(range_text(alloc, range)?.as_slice(), out)
}

// The range.
fn range_of(alloc: Global, name: &Name, day: RefDay, names: &Names) -> Result<DayRange, NoMemory>
    requires { IsNamed (known_of names.now.names) name.now }
    ensures { IfOk result (λ range. (files : List (Held Relation)) (before : List Effect) → IsWorldOf names.now.names files before → range ≡ valid_range before name.now day) }
{
    names.rows_fit();
    // For its clause: the day is a reference day.
    day.number();
    let Some(rel) = names.rel(name.bytes()) else {
        unreachable!();
    };
    layout_range(alloc, rel, day)
}
