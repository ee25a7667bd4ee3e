//! The checks of a SELECT.
ghost use Rattle.std.specs.Prelude.{◌≡◌, ◌≤◌, ◌++◌, ◌∷◌, [], codes, length};
ghost use Rattle.std.specs.Fmt.{decimal};
ghost use Rattle.og_check.specs.Cores as spec;
ghost use Rattle.og_check.specs.Cores.{star_from};
ghost use Rattle.og_check.specs.Fronts.{parted, with_fronts, with_pair};
ghost use Rattle.og_check.specs.Limits.{max_tables};
ghost use Rattle.og_check.specs.Names.{schemas_in};
ghost use Rattle.og_check.specs.Results.{Gives, wrote};
ghost use Rattle.og_check.specs.Selects.{after_from, core_in, shown_of};
ghost use Rattle.og_check.specs.Shown.{from_in, shown, shown_in};
ghost use Rattle.og_check.specs.Sight.{joined};
ghost use Rattle.og_check.specs.Steps.{in_order, pure};

use crate::conditions::add_cond;
use crate::expressions::expr_of;
use crate::kinds::within;
use crate::limits::MAX_TABLES;
use crate::names::Names;
use crate::refusal::CheckRefusal;
use crate::sight::{Item, Sight};
use crate::tables::{Joined, from_of, semis_of};
use og_query::{Cond, Core, Expr, Semi};
use og_syntax::{CoreText, ExprText, ItemText, ItemsText};
use og_value::{Catalog, Column, MAX_COLUMNS, Name, NameRefusal, Schema};
use sqlite_items::Items;
use std::alloc::Global;

/// The items of a SELECT, and their columns.
#[derive(Drop)]
pub struct Shown {
    exprs: Items<Expr>,
    columns: Vec<Column>,
}

/// What follows FROM in a SELECT: EXISTS and NOT EXISTS, the items, and their schema.
#[derive(Drop)]
pub struct Selected {
    semis: Items<Semi>,
    exprs: Items<Expr>,
    schema: Schema,
}

/// A SELECT over the names that may be asked.
pub fn core_of<C: Catalog>(
    alloc: Global,
    known: &C,
    names: Names,
    core: &CoreText,
) -> Result<Core, CheckRefusal>
    ensures { Gives result (spec.core_of (schemas_in names (C.known known.now)) core.now) }
{
    within(MAX_TABLES, core.tables.len())?;
    let mut from = from_of(alloc, known, names, core.tables.as_slice())?;
    match selected_of(alloc, known, names, core, &mut from) {
        Ok(selected) => Ok(Core {
            tables: from.tables,
            cond: Cond::And(from.conds),
            semis: selected.semis,
            items: selected.exprs,
            schema: selected.schema,
        }),
        Err(refusal) => {
            drop(from);
            Err(refusal)
        }
    }
}

// What follows FROM, whose conditions get that of WHERE.
fn selected_of<C: Catalog>(
    alloc: Global,
    known: &C,
    names: Names,
    core: &CoreText,
    from: &mut Joined,
) -> Result<Selected, CheckRefusal>
    requires { length from.old.items ≤ max_tables }
    ensures { Gives (core_in from.new result) (after_from (schemas_in names (C.known known.now)) core.now (from_in from.old)) }
{
    add_cond(
        alloc,
        &Sight::of(from.items.as_slice()),
        &core.cond,
        &mut from.conds,
    )?;
    let items = from.items.as_slice();
    let semis = semis_of(alloc, known, names, items, core.semis.as_slice())?;
    match shown_of(alloc, items, &core.items) {
        Ok((exprs, schema)) => Ok(Selected {
            semis,
            exprs,
            schema,
        }),
        Err(refusal) => {
            drop(semis);
            Err(refusal)
        }
    }
}

// The items of SELECT, and their schema. `CountsDiffer` exactly where there is none, `TooMany` where
// there are more than `MAX_COLUMNS`.
fn shown_of(
    alloc: Global,
    items: &[Item],
    list: &ItemsText,
) -> Result<(Items<Expr>, Schema), CheckRefusal>
    requires { length items.now ≤ max_tables }
    ensures { Gives result (shown_of items.now list.now) }
{
    let shown = items_of(alloc, items, list)?;
    match within(MAX_COLUMNS, shown.columns.len()) {
        Ok(()) => Ok((shown.exprs, Schema::of(shown.columns))),
        Err(refusal) => {
            drop(shown);
            Err(refusal)
        }
    }
}

// The items of SELECT, of which * gives all columns.
fn items_of(alloc: Global, items: &[Item], list: &ItemsText) -> Result<Shown, CheckRefusal>
    requires { length items.now ≤ max_tables }
    ensures { Gives (shown result) (parted (spec.items_of items.now list.now)) }
{
    match list {
        ItemsText::Star => star_of(alloc, items),
        ItemsText::List(list) => list_of(alloc, &Sight::of(items), list.as_slice()),
    }
}

// Each column of the items.
fn star_of(alloc: Global, items: &[Item]) -> Result<Shown, CheckRefusal>
    ensures { Gives (shown result) (parted (pure (star_from 0 (joined items.now)))) }
{
    let mut all = Shown {
        exprs: Items::new(alloc),
        columns: Vec::new(alloc),
    };
    'items: for item in items {
        add_columns(item.columns(), &mut all)?;
    }
    Ok(all)
}

// Adds each of the columns, of which the first has the place after those that are shown.
fn add_columns(columns: &Schema, all: &mut Shown) -> Result<(), CheckRefusal>
    ensures { Gives (wrote (shown_in all.new) result) (with_fronts all.old.exprs all.old.columns.items (pure (star_from (length all.old.exprs) columns.now))) }
{
    'columns: for i in 0..columns.len() {
        add_column(columns.column(i), all)?;
    }
    Ok(())
}

// Adds the column, which has the place after those that are shown.
fn add_column(column: &Column, all: &mut Shown) -> Result<(), CheckRefusal>
    ensures { Gives (wrote (shown_in all.new) result) (with_fronts all.old.exprs all.old.columns.items (pure (star_from (length all.old.exprs) (column.now ∷ [])))) }
{
    let place = all.exprs.len();
    all.exprs.push(Expr::Column(place))?;
    all.columns.push(column.copy()?)?;
    Ok(())
}

// The items of a list.
fn list_of(alloc: Global, sight: &Sight, list: &[ItemText]) -> Result<Shown, CheckRefusal>
    ensures { Gives (shown result) (parted (in_order (spec.items_from sight.now 1 list.now))) }
{
    let mut all = Shown {
        exprs: Items::new(alloc),
        columns: Vec::new(alloc),
    };
    'each: for i in 0..list.len() {
        add_item(alloc, sight, i + 1, &list[i], &mut all)?;
    }
    Ok(all)
}

// Adds the item with that number, and its column.
fn add_item(
    alloc: Global,
    sight: &Sight,
    number: usize,
    item: &ItemText,
    all: &mut Shown,
) -> Result<(), CheckRefusal>
    ensures { Gives (wrote (shown_in all.new) result) (with_pair all.old.exprs all.old.columns.items (spec.item_of sight.now number item.now)) }
{
    let (expr, kind) = expr_of(alloc, sight, &item.expr)?;
    all.exprs.push(expr)?;
    let name = item_name(alloc, number, item)?;
    all.columns.push(Column { name, kind })?;
    Ok(())
}

// The name of the item's column: the one after AS, or that of a column, or c and the number.
fn item_name(alloc: Global, number: usize, item: &ItemText) -> Result<Name, CheckRefusal>
    ensures { Gives result (pure (spec.item_name number item.now)) }
{
    match (&item.name, &item.expr) {
        (Some(name), _) | (None, ExprText::Column { name, .. }) => Ok(name.copy()?),
        _ => numbered(alloc, number),
    }
}

// c and the number.
fn numbered(alloc: Global, number: usize) -> Result<Name, CheckRefusal>
    ensures { Gives result (pure (codes "c" ++ decimal number)) }
{
    let word = format!(in alloc; "c{number}")?;
    match Name::of(alloc, word.as_bytes()) {
        Ok(name) => Ok(name),
        Err(NameRefusal::NoMemory) => Err(CheckRefusal::NoMemory),
        Err(NameRefusal::NotAName) => unreachable!(),
    }
}
