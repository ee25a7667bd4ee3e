//! The checks of FROM, and of EXISTS and NOT EXISTS.
ghost use Rattle.std.specs.Prelude.{◌≡◌, ◌+◌, ◌<◌, ◌≤◌, length, map, IfOk, OnOk};
ghost use Rattle.std.specs.List.{list_any};
ghost use Rattle.std.specs.Str.{bytes_eq};
ghost use Rattle.og_check.specs.Cores as spec;
ghost use Rattle.og_check.specs.Limits.{max_tables};
ghost use Rattle.og_check.specs.Names.{schemas_in};
ghost use Rattle.og_check.specs.Results.{Gives, wrote};
ghost use Rattle.og_check.specs.Shown.{from_given, from_in};
ghost use Rattle.og_check.specs.Steps.{in_order};

use crate::conditions::{add_cond, where_of};
use crate::names::{Names, alias_of, known_columns};
use crate::refusal::CheckRefusal;
use crate::sight::{Item, Sight};
use og_base::NoMemory;
use og_query::{Cond, From1, Semi};
use og_syntax::{FromText, SemiText};
use og_value::{Catalog, Name, Schema};
use sqlite_items::Items;
use std::alloc::Global;

/// What FROM gives: its items, its tables, and the conditions of ON.
#[derive(Drop)]
pub struct Joined<'a> {
    pub items: Items<Item<'a>>,
    pub tables: Items<From1>,
    pub conds: Items<Cond>,
}

/// What FROM gives.
pub fn from_of<'a, C: Catalog>(
    alloc: Global,
    known: &'a C,
    names: Names,
    tables: &'a [FromText],
) -> Result<Joined<'a>, CheckRefusal>
    requires { length tables.now ≤ max_tables }
    ensures from { Gives (from_given result) (spec.from_of (schemas_in names (C.known known.now)) tables.now) }
    ensures few { IfOk result (λ from. length from.items ≤ max_tables) }
{
    let mut from = Joined {
        items: Items::new(alloc),
        tables: Items::new(alloc),
        conds: Items::new(alloc),
    };
    'each: for table in tables {
        add_table(alloc, known, names, table, &mut from)?;
    }
    Ok(from)
}

// Adds one more table.
fn add_table<'a, C: Catalog>(
    alloc: Global,
    known: &'a C,
    names: Names,
    table: &'a FromText,
    from: &mut Joined<'a>,
) -> Result<(), CheckRefusal>
    requires { length from.old.items < max_tables }
    ensures from { Gives (wrote (from_in from.new) result) (spec.with_table (schemas_in names (C.known known.now)) (from_in from.old) table.now) }
    ensures one { OnOk result (length from.new.items ≡ length from.old.items + 1) }
{
    let columns = known_columns(known, names, &table.name)?;
    let alias = alias_of(&table.name, &table.alias);
    unused(alias, from.items.as_slice())?;
    from.items.push(Item::of(alias, columns))?;
    add_cond(
        alloc,
        &Sight::of(from.items.as_slice()),
        &table.on,
        &mut from.conds,
    )?;
    from.tables.push(table_of(&table.name, columns)?)?;
    Ok(())
}

// The table of a name and its columns.
fn table_of(name: &Name, columns: &Schema) -> Result<From1, NoMemory>
    ensures { IfOk result (λ table. table ≡ record { name = name.now; schema = columns.now }) }
{
    let name = name.copy()?;
    let schema = columns.copy()?;
    Ok(From1 { name, schema })
}

// `NameTaken` exactly where one of the items has the alias.
fn unused(alias: &Name, items: &[Item]) -> Result<(), CheckRefusal>
    ensures { Gives result (spec.unused alias.now items.now) }
{
    if is_used(alias, items) {
        return Err(CheckRefusal::NameTaken {
            name: alias.copy()?,
        });
    }
    Ok(())
}

// Whether one of the items has the alias.
fn is_used(alias: &Name, items: &[Item]) -> bool
    ensures { result ≡ list_any (λ item. bytes_eq item.0 alias.now) items.now }
{
    items.iter().any(|item| *item.alias() == *alias)
}

/// EXISTS and NOT EXISTS after the items.
pub fn semis_of<C: Catalog>(
    alloc: Global,
    known: &C,
    names: Names,
    items: &[Item],
    semis: &[SemiText],
) -> Result<Items<Semi>, CheckRefusal>
    requires { length items.now ≤ max_tables }
    ensures { Gives result (in_order (map (spec.semi_of (schemas_in names (C.known known.now)) items.now) semis.now)) }
{
    let mut typed = Items::new(alloc);
    'each: for semi in semis {
        typed.push(semi_of(alloc, known, names, items, semi)?)?;
    }
    Ok(typed)
}

// EXISTS or NOT EXISTS after the items.
fn semi_of<C: Catalog>(
    alloc: Global,
    known: &C,
    names: Names,
    items: &[Item],
    semi: &SemiText,
) -> Result<Semi, CheckRefusal>
    requires { length items.now ≤ max_tables }
    ensures { Gives result (spec.semi_of (schemas_in names (C.known known.now)) items.now semi.now) }
{
    let columns = known_columns(known, names, &semi.name)?;
    let alias = alias_of(&semi.name, &semi.alias);
    unused(alias, items)?;
    let table = table_of(&semi.name, columns)?;
    let sub = [Item::of(alias, columns)];
    match where_of(alloc, &Sight::with_sub(items, &sub), &semi.cond) {
        Ok(cond) => Ok(Semi {
            positive: semi.positive,
            table,
            cond,
        }),
        Err(refusal) => {
            drop(table);
            Err(refusal)
        }
    }
}
