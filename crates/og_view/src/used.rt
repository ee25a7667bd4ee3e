//! The names that a query uses.
ghost use Rattle.std.specs.Prelude.{◌≡◌, ◌&&◌, filter, length};
ghost use Rattle.std.specs.List.{list_all, list_any};
ghost use Rattle.std.specs.Str.{bytes_eq};
ghost use Rattle.og_db.specs.Live as live;
ghost use Rattle.og_view.specs.Placed.{has_once};

use og_query::{Core, From1, Query, Rest, Semi};
use og_value::Name;

// Whether some table has that name.
fn tables_use(tables: &[From1], name: &Name) -> bool
    ensures { result ≡ list_any (λ table. bytes_eq name.now table.name) tables.now }
{
    tables.iter().any(|table| *name == table.name)
}

// Whether the table of some semi has that name.
fn semis_use(semis: &[Semi], name: &Name) -> bool
    ensures { result ≡ list_any (λ semi. bytes_eq name.now semi.table.name) semis.now }
{
    semis.iter().any(|semi| *name == semi.table.name)
}

// Whether some table of the core has that name.
fn core_uses(core: &Core, name: &Name) -> bool
    ensures { result ≡ live.core_uses core.now name.now }
{
    tables_use(core.tables.as_slice(), name) || semis_use(core.semis.as_slice(), name)
}

// Whether some table of a further core has that name.
fn rest_uses(rests: &[Rest], name: &Name) -> bool
    ensures { result ≡ list_any (λ rest. live.core_uses rest.core name.now) rests.now }
{
    rests.iter().any(|rest| core_uses(&rest.core, name))
}

/// Whether the query names the table, in FROM or in an EXISTS or NOT EXISTS.
pub fn uses(query: &Query, name: &Name) -> bool
    ensures { result ≡ live.uses query.now name.now }
{
    core_uses(&query.first, name) || rest_uses(query.rest.as_slice(), name)
}

// At how many places the core has the name.
fn places_of(core: &Core, name: &Name) -> usize
    ensures { result ≡ length (filter (λ table. bytes_eq name.now table.name) core.now.tables) }
{
    core.tables
        .as_slice()
        .iter()
        .filter(|table| *name == table.name)
        .count()
}

// Whether the core has the name at one place at most.
fn core_names_once(core: &Core, name: &Name) -> bool
    ensures { result ≡ has_once name.now core.now }
{
    places_of(core, name) <= 1
}

// Whether each further core has the name at one place at most.
fn rest_names_once(rests: &[Rest], name: &Name) -> bool
    ensures { result ≡ list_all (λ rest. has_once name.now rest.core) rests.now }
{
    rests.iter().all(|rest| core_names_once(&rest.core, name))
}

// Whether each core of the query has the name at one place at most.
pub(crate) fn names_once(query: &Query, name: &Name) -> bool
    ensures { result ≡ (has_once name.now query.now.first && list_all (λ rest. has_once name.now rest.core) query.now.rest) }
{
    core_names_once(&query.first, name) && rest_names_once(query.rest.as_slice(), name)
}
