//! The column that c or q.c stands for.
ghost use Rattle.std.specs.Prelude.{◌≡◌, ◌+◌, ◌*◌, ◌<◌, ◌≤◌, ◌^◌, ◌++◌, ◌∷◌, [], length, Some, if◌then◌else◌};
ghost use Rattle.std.specs.Str.{bytes_eq};
ghost use Rattle.og_value.specs.Limits.{max_columns};
ghost use Rattle.og_check.specs.Hits.{hits_of, with_found};
ghost use Rattle.og_check.specs.Limits.{max_tables};
ghost use Rattle.og_check.specs.Results.{Gives};
ghost use Rattle.og_check.specs.Sight as spec;
ghost use Rattle.og_check.specs.Sight.{looks_at, among, joined};
ghost use Rattle.og_check.specs.Steps.{pure};

use crate::hits::{Hits, one_more, or_hits};
use crate::refusal::CheckRefusal;
use crate::sight::{Item, Sight};
use og_value::{Column, Kind, Name, Schema, Text, TextRefusal};
use std::alloc::Global;

/// The place of the column in the row, and its kind. `NoSuchColumn` and `AmbiguousColumn` exactly
/// where it stands for none, and for several.
pub fn found(
    alloc: Global,
    sight: &Sight,
    table: &Option<Name>,
    name: &Name,
) -> Result<(usize, Kind), CheckRefusal>
    ensures { Gives result (spec.found sight.now table.now name.now) }
{
    let hits = candidates(sight, table, name);
    if let Hits::One { place, kind } = hits {
        return Ok((place, kind));
    }
    let name = written(alloc, table, name)?;
    match hits {
        Hits::More => Err(CheckRefusal::AmbiguousColumn { name }),
        _ => Err(CheckRefusal::NoSuchColumn { name }),
    }
}

// The column as it is written.
fn written(alloc: Global, table: &Option<Name>, name: &Name) -> Result<Text, CheckRefusal>
    ensures { Gives result (pure (spec.written table.now name.now)) }
{
    match table {
        Some(table) => dotted(alloc, table, name),
        None => text_of(alloc, name.as_str()),
    }
}

// The column with its table.
fn dotted(alloc: Global, table: &Name, name: &Name) -> Result<Text, CheckRefusal>
    ensures { Gives result (pure (spec.written (Some table.now) name.now)) }
{
    let both = format!(in alloc; "{}.{}", table.as_str(), name.as_str())?;
    text_of(alloc, both.as_str())
}

// The text of a string, which is always one.
fn text_of(alloc: Global, string: &str) -> Result<Text, CheckRefusal>
    ensures { Gives result (pure string.now) }
{
    match Text::of(alloc, string.as_bytes()) {
        Ok(text) => Ok(text),
        Err(TextRefusal::NoMemory) => Err(CheckRefusal::NoMemory),
        Err(TextRefusal::NotText) => unreachable!(),
    }
}

// The columns that c or q.c may stand for.
fn candidates(sight: &Sight, table: &Option<Name>, name: &Name) -> Hits
    ensures { result ≡ hits_of (spec.candidates sight.now table.now name.now) }
{
    let (in_core, end) = among(table, name, 0, sight.core);
    let (in_sub, _) = among(table, name, end, sight.sub);
    or_hits(in_sub, in_core)
}

// The columns that c or q.c may stand for among the items, whose first column has that place, and
// the place after their last column. Items are few, and so are their columns, so each has a place.
fn among(table: &Option<Name>, name: &Name, start: usize, items: &[Item]) -> (Hits, usize)
    requires near { start ≤ max_columns * max_tables }
    requires few { length items.now ≤ max_tables }
    ensures hits { result.0 ≡ hits_of (among table.now name.now start items.now) }
    ensures end { result.1 ≡ start + length (joined items.now) }
    ensures near { result.1 ≤ start + max_columns * length items.now }
{
    let mut hits = Hits::Nothing;
    let mut place = start;
    'items: for item in items {
        (hits, place) = item_hits(hits, table, name, place, item);
    }
    (hits, place)
}

// With those of the item, whose first column has that place, and the place after its last column.
fn item_hits(
    hits: Hits,
    table: &Option<Name>,
    name: &Name,
    place: usize,
    item: &Item,
) -> (Hits, usize)
    requires { place + max_columns < 2 ^ 64 }
    ensures hits { result.0 ≡ with_found hits (if looks_at table.now item.now then spec.named name.now place item.now.1 else []) }
    ensures end { result.1 ≡ place + length item.now.1 }
    ensures near { result.1 ≤ place + max_columns }
{
    let columns = item.columns();
    columns.bounded();
    let end = place + columns.len();
    if looks_at(table, item) {
        (more_named(hits, name, place, columns), end)
    } else {
        (hits, end)
    }
}

// Whether c or q.c looks at the item.
fn looks_at(table: &Option<Name>, item: &Item) -> bool
    ensures { result ≡ looks_at table.now item.now }
{
    match table {
        Some(table) => *item.alias() == *table,
        None => true,
    }
}

// With the columns of that name, where the first column has that place.
fn more_named(hits: Hits, name: &Name, place: usize, columns: &Schema) -> Hits
    requires { place + length columns.now < 2 ^ 64 }
    ensures { result ≡ with_found hits (spec.named name.now place columns.now) }
{
    let mut hits = hits;
    'columns: for i in 0..columns.len() {
        hits = next_hits(hits, name, place + i, columns.column(i));
    }
    hits
}

// With the column, which has that place, where it has the name.
fn next_hits(hits: Hits, name: &Name, place: usize, column: &Column) -> Hits
    ensures { result ≡ with_found hits (if bytes_eq column.now.name name.now then (place, column.now.kind) ∷ [] else []) }
{
    if column.name == *name {
        one_more(hits, place, column.kind)
    } else {
        hits
    }
}
