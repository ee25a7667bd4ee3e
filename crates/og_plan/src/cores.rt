//! The plan of a query: a function of its text alone.
ghost use Rattle.std.specs.Prelude.{◌≡◌, ◌++◌, ◌+◌, ◌≤◌, ℤ, true, IfOk, OnOk, length, map};
ghost use Rattle.std.specs.List.{flat_map};
ghost use Rattle.og_query.specs.Fits.{core_kinds};
ghost use Rattle.og_query.specs.Kinds.{kinds_of};
ghost use Rattle.og_query.specs.Queries.{Named, ordinary_query};
ghost use Rattle.og_query.specs.Sizes.{Sizes, query_size};
ghost use Rattle.og_plan.specs.Meaning.{plan_rows};
ghost use Rattle.og_plan.specs.Sizes.{plan_size};
ghost use Rattle.og_plan.specs.Shapes.{is_sound, scans_of};
ghost use Rattle.og_plan.specs.Premises.{AreInRange, AllHaveFitRows, query_tables};
ghost use Rattle.og_plan.specs.Joins as joins;
ghost use Rattle.og_plan.specs.Homes as homes;
ghost use Rattle.og_plan.specs.Parts as of_parts;
ghost use Rattle.og_plan.specs.PlanOf as spec;
ghost use Rattle.og_plan.specs.PlanOf.{HaveTables};
ghost use Rattle.og_plan.specs.declared.plan.Home.TheVariants as home;
ghost use Rattle.og_plan.specs.declared.plan.Plan.TheVariants as plans;

use crate::homes::parts_at;
use crate::joins::{filtered, joined_by};
use crate::parts::{all_from, parts_of};
use crate::plan::{Home, Plan, PlanSemi};
use og_base::NoMemory;
use og_query::{Cond, Core, Expr, From1, Query, Rest, Semi, copy_expressions};
use og_value::{Kind, Schema};
use sqlite_items::{Boxed, Items};
use std::alloc::Global;

// How many columns each table has.
fn widths_of(alloc: Global, tables: &[From1]) -> Result<Vec<usize>, NoMemory>
    ensures { IfOk result (λ widths. widths.items ≡ spec.widths_of tables.now) }
{
    let mut widths = Vec::with_capacity(alloc, tables.len())?;
    'tables: for table in tables {
        widths.push(table.schema.len())?;
    }
    Ok(widths)
}

// Appends the kinds of the columns.
fn add_kinds(schema: &Schema, kinds: &mut Vec<Kind>) -> Result<(), NoMemory>
    ensures { OnOk result (kinds.new.items ≡ kinds.old.items ++ kinds_of schema.now) }
{
    'columns: for i in 0..schema.len() {
        kinds.push(schema.column(i).kind)?;
    }
    Ok(())
}

// The kinds of the tables' columns, one table after the other.
fn kinds_in(alloc: Global, tables: &[From1]) -> Result<Vec<Kind>, NoMemory>
    ensures { IfOk result (λ kinds. kinds.items ≡ flat_map (λ table. kinds_of table.schema) tables.now) }
{
    let mut kinds = Vec::new(alloc);
    'tables: for table in tables {
        add_kinds(&table.schema, &mut kinds)?;
    }
    Ok(kinds)
}

// Leaf k: the scan of a table whose columns begin at that place, under one filter with its parts.
fn leaf_of(
    alloc: Global,
    widths: &[usize],
    parts: &[Cond],
    k: usize,
    start: usize,
    table: &From1,
) -> Result<Plan, NoMemory>
    ensures { IfOk result (λ p. p ≡ spec.leaf_of widths.now parts.now k start table.now) }
{
    let below = all_from(
        alloc,
        start,
        &parts_at(alloc, widths, Home::Leaf(k), parts)?,
    )?;
    let From1 { name, schema } = table.copy()?;
    filtered(alloc, Plan::Scan { name, schema }, below)
}

// Leaf k, in a box.
fn boxed_leaf(
    alloc: Global,
    widths: &[usize],
    parts: &[Cond],
    k: usize,
    start: usize,
    table: &From1,
) -> Result<Boxed<Plan>, NoMemory>
    ensures { IfOk result (λ p. p ≡ spec.leaf_of widths.now parts.now k start table.now) }
{
    let leaf = leaf_of(alloc, widths, parts, k, start, table)?;
    Ok(Boxed::new(alloc, leaf)?)
}

// The tree of the items before item k, joined with leaf k.
fn joined_with(
    alloc: Global,
    kinds: &[Kind],
    widths: &[usize],
    parts: &[Cond],
    k: usize,
    start: usize,
    tree: Plan,
    table: &From1,
) -> Result<Plan, NoMemory>
    ensures { IfOk result (λ p. p ≡ joins.joined_by kinds.now start tree (spec.leaf_of widths.now parts.now k start table.now) (homes.parts_at widths.now (home.Join k) parts.now)) }
{
    let left = Boxed::new(alloc, tree)?;
    let right = boxed_leaf(alloc, widths, parts, k, start, table)?;
    let here = parts_at(alloc, widths, Home::Join(k), parts)?;
    joined_by(alloc, kinds, start, left, right, here)
}

// The tree of all items, of which there is at least one.
fn tree_of(
    alloc: Global,
    kinds: &[Kind],
    widths: &[usize],
    parts: &[Cond],
    tables: &[From1],
) -> Result<Plan, NoMemory>
    requires some { 1 ≤ length tables.now }
    requires kinds { kinds.now ≡ flat_map (λ table. kinds_of table.schema) tables.now }
    ensures { IfOk result (λ p. p ≡ spec.tree_of kinds.now widths.now parts.now tables.now) }
{
    let mut tree = leaf_of(alloc, widths, parts, 0, 0, &tables[0])?;
    let mut start = tables[0].schema.len();
    'tables: for k in 1..tables.len() {
        tree = joined_with(alloc, kinds, widths, parts, k, start, tree, &tables[k])?;
        start += tables[k].schema.len();
    }
    Ok(tree)
}

// A semi, with the parts of its condition.
fn semi_plan(alloc: Global, semi: &Semi) -> Result<PlanSemi, NoMemory>
    ensures { IfOk result (λ planned. planned ≡ spec.semi_plan semi.now) }
{
    let table = semi.table.copy()?;
    Ok(PlanSemi {
        positive: semi.positive,
        table,
        parts: parts_of(alloc, &semi.cond)?,
    })
}

// The semis, each with the parts of its condition.
fn semi_plans(alloc: Global, semis: &[Semi]) -> Result<Items<PlanSemi>, NoMemory>
    ensures { IfOk result (λ planned. planned ≡ map spec.semi_plan semis.now) }
{
    let mut planned = Items::new(alloc);
    'semis: for semi in semis {
        planned.push(semi_plan(alloc, semi)?)?;
    }
    Ok(planned)
}

// The tree under one node with the semis, where there are any.
fn sifted(alloc: Global, tree: Plan, semis: Items<PlanSemi>) -> Result<Plan, NoMemory>
    ensures { IfOk result (λ p. p ≡ spec.sifted tree semis) }
{
    if semis.is_empty() {
        return Ok(tree);
    }
    Ok(Plan::Semis {
        input: Boxed::new(alloc, tree)?,
        semis,
    })
}

// The tree under the projection to the items.
fn projected(alloc: Global, tree: Plan, items: &Items<Expr>) -> Result<Plan, NoMemory>
    ensures { IfOk result (λ p. p ≡ plans.Project tree items.now) }
{
    Ok(Plan::Project {
        input: Boxed::new(alloc, tree)?,
        items: copy_expressions(alloc, items)?,
    })
}

// The tree of the items of a core.
fn core_tree(alloc: Global, core: &Core) -> Result<Plan, NoMemory>
    requires { 1 ≤ length core.now.tables }
    ensures { IfOk result (λ p. p ≡ spec.tree_of (core_kinds core.now) (spec.widths_of core.now.tables) (of_parts.parts_of core.now.cond) core.now.tables) }
{
    let tables = core.tables.as_slice();
    let kinds = kinds_in(alloc, tables)?;
    let widths = widths_of(alloc, tables)?;
    let parts = parts_of(alloc, &core.cond)?;
    tree_of(
        alloc,
        kinds.as_slice(),
        widths.as_slice(),
        parts.as_slice(),
        tables,
    )
}

// A core: its tree, under one node with its semis, under the projection to its items.
fn core_plan(alloc: Global, core: &Core) -> Result<Plan, NoMemory>
    requires { 1 ≤ length core.now.tables }
    ensures { IfOk result (λ p. p ≡ spec.core_plan core.now) }
{
    let semis = semi_plans(alloc, core.semis.as_slice())?;
    let tree = core_tree(alloc, core)?;
    let under = sifted(alloc, tree, semis)?;
    projected(alloc, under, &core.items)
}

// The plan, combined with that of a further core.
fn combined(alloc: Global, plan: Plan, rest: &Rest) -> Result<Plan, NoMemory>
    requires { 1 ≤ length rest.now.core.tables }
    ensures { IfOk result (λ p. p ≡ plans.Combine rest.now.op plan (spec.core_plan rest.now.core)) }
{
    let left = Boxed::new(alloc, plan)?;
    let right = Boxed::new(alloc, core_plan(alloc, &rest.core)?)?;
    Ok(Plan::Combine {
        op: rest.op,
        left,
        right,
    })
}

/// The plan of the query, by its text alone (docs/LANGUAGE.md, "Plans"). Refused only for want of
/// memory.
pub fn plan_of(alloc: Global, query: &Query) -> Result<Plan, NoMemory>
    requires tables { HaveTables query.now }
    requires range { AreInRange query.now }
    ensures plan { IfOk result (λ p. p ≡ spec.plan_of query.now) }
    ensures meaning { IfOk result (λ p. (d : ℤ) (rows : Named) → AllHaveFitRows rows query.now → plan_rows d rows p ≡ ordinary_query d rows query.now) }
    ensures size { IfOk result (λ p. (sizes : Sizes) → plan_size sizes p ≡ query_size sizes query.now) }
    ensures sound { IfOk result (λ p. is_sound p ≡ true) }
    ensures scans { IfOk result (λ p. scans_of p ≡ query_tables query.now) }
{
    let mut plan = core_plan(alloc, &query.first)?;
    'rests: for rest in query.rest.as_slice() {
        plan = combined(alloc, plan, rest)?;
    }
    Ok(plan)
}
