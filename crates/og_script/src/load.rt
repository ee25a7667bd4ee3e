//! The tables and the query of the command `load`.
ghost use Rattle.std.specs.Prelude.{◌≡◌, ◌≤◌, ◌<◌, true, codes, Some, None, IfOk};
ghost use Rattle.og_base.specs.Calendar.{last_day};
ghost use Rattle.og_value.specs.Words.{is_word, folded};
ghost use Rattle.og_syntax.specs.Clauses.{column_of, item_of, table_of};
ghost use Rattle.og_syntax.specs.declared.tree.Stmt.TheVariants as s;
ghost use Rattle.og_script.specs.Commands as spec;

use og_base::{ExtDay, NoMemory, RefDay};
use og_syntax::{CondText, CoreText, ExprText, FromText, ItemText, ItemsText, QueryText, Stmt};
use og_time::{OngoingPeriod, OngoingPoint};
use og_value::{Column, Kind, Name, NameRefusal, Pred, Row, Value};
use sqlite_items::Items;
use std::alloc::Global;

/// One of the two tables.
#[derive(Clone, Copy)]
pub enum Side {
    /// The table `lefts`.
    Lefts,
    /// The table `rights`.
    Rights,
}

// ---- days and points

// The day so many days after 2000-01-01.
#[tactic(auto, unfolding(crate::specs::Commands::load_day))]
fn day(k: u32) -> RefDay
    requires { k ≤ 400_000 }
    ensures { result ≡ spec.load_day k }
{
    let Some(day) = RefDay::from_number(10_957 + k as i32) else {
        unreachable!()
    };
    day
}

// The point of two such days.
#[tactic(auto, unfolding(crate::specs::Commands::load_point, crate::specs::Commands::load_day))]
fn point(low: u32, high: u32) -> OngoingPoint
    requires rising { low ≤ high }
    requires most { high ≤ 400_000 }
    ensures { result ≡ spec.load_point low high }
{
    let Some(point) = OngoingPoint::new(ExtDay::of(day(low)), ExtDay::of(day(high))) else {
        unreachable!()
    };
    point
}

// ---- the tables

/// The statements that make one of the two tables and fill it with so many rows.
#[tactic(auto, unfolding(crate::specs::Commands::load_table))]
pub fn table(alloc: Global, side: Side, count: u32) -> Result<Items<Stmt>, NoMemory>
    requires { count ≤ 200_000 }
    ensures { IfOk result (λ stmts. stmts ≡ spec.load_table side count) }
{
    let mut stmts = Items::new(alloc);
    let name = name_of(alloc, side)?;
    let columns = columns(alloc)?;
    stmts.push(Stmt::Create { name, columns })?;
    let name = name_of(alloc, side)?;
    let rows = rows(alloc, side, count)?;
    stmts.push(Stmt::Insert { name, rows })?;
    Ok(stmts)
}

// The name of the table.
#[tactic(auto, unfolding(crate::specs::Commands::load_name))]
fn name_of(alloc: Global, side: Side) -> Result<Name, NoMemory>
    ensures { IfOk result (λ name. name ≡ spec.load_name side) }
{
    match side {
        Side::Lefts => word(alloc, "lefts"),
        Side::Rights => word(alloc, "rights"),
    }
}

// The columns of both tables.
#[tactic(auto, unfolding(crate::specs::Commands::load_columns))]
fn columns(alloc: Global) -> Result<Items<Column>, NoMemory>
    ensures { IfOk result (λ columns. columns ≡ spec.load_columns) }
{
    let mut columns = Items::new(alloc);
    let name = word(alloc, "id")?;
    let kind = Kind::Int;
    columns.push(Column { name, kind })?;
    let name = word(alloc, "vt")?;
    let kind = Kind::Period;
    columns.push(Column { name, kind })?;
    Ok(columns)
}

// So many rows of the table, from the row 0 on.
#[tactic(auto, using(crate::proofs::CommandLemmas::more_rows), unfolding(crate::specs::Commands::load_rows))]
fn rows(alloc: Global, side: Side, count: u32) -> Result<Items<Row>, NoMemory>
    requires { count ≤ 200_000 }
    ensures { IfOk result (λ rows. rows ≡ spec.load_rows side count) }
{
    let mut rows = Vec::with_capacity(alloc, count as usize)?;
    'rows: for i in 0..count {
        rows.push(row(alloc, side, i)?)?;
    }
    Ok(Items::from_vec(rows))
}

// The row i of the table.
#[tactic(auto, unfolding(crate::specs::Commands::load_row))]
fn row(alloc: Global, side: Side, i: u32) -> Result<Row, NoMemory>
    requires { i < 200_000 }
    ensures { IfOk result (λ row. row ≡ spec.load_row side i) }
{
    let period = OngoingPeriod::new(start(side, i), end(side, i));
    let mut values = Vec::with_capacity(alloc, 2)?;
    values.push(Value::Int(i64::from(i)))?;
    values.push(Value::Period(period))?;
    Ok(Row::of(values))
}

// The point at which the period of the row i starts.
#[tactic(auto, unfolding(crate::specs::Commands::load_start))]
fn start(side: Side, i: u32) -> OngoingPoint
    requires { i < 200_000 }
    ensures { result ≡ spec.load_start side i }
{
    match side {
        Side::Lefts => point(2 * i, 2 * i),
        Side::Rights => point(2 * i + 1, 2 * i + 1),
    }
}

// The point at which the period of the row i ends.
#[tactic(auto, unfolding(crate::specs::Commands::load_end))]
fn end(side: Side, i: u32) -> OngoingPoint
    requires { i < 200_000 }
    ensures { result ≡ spec.load_end side i }
{
    match side {
        Side::Lefts if i % 1000 == 0 => point(2 * i + 1, 2 * i + 2),
        Side::Lefts => point(2 * i + 1, 2 * i + 1),
        Side::Rights => point(2 * i + 2, 2 * i + 2),
    }
}

// ---- the query

/// The statements that keep the answer of the query as `hits` and print both.
#[tactic(auto, unfolding(crate::specs::Commands::load_answers))]
pub fn answers(alloc: Global, count: u32) -> Result<Items<Stmt>, NoMemory>
    requires { count ≤ 200_000 }
    ensures { IfOk result (λ stmts. stmts ≡ spec.load_answers count) }
{
    let mut stmts = Items::new(alloc);
    stmts.push(keep(alloc)?)?;
    let name = word(alloc, "hits")?;
    let day = day(count);
    stmts.push(Stmt::PrintName { name, day })?;
    stmts.push(print_last(alloc)?)?;
    Ok(stmts)
}

// KEEP hits AS the query.
fn keep(alloc: Global) -> Result<Stmt, NoMemory>
    ensures { IfOk result (λ stmt. stmt ≡ s.Keep (codes "hits") spec.load_query) }
{
    let name = word(alloc, "hits")?;
    let query = query(alloc)?;
    Ok(Stmt::Keep { name, query })
}

// PRINT the query AS OF the last day.
fn print_last(alloc: Global) -> Result<Stmt, NoMemory>
    ensures { IfOk result (λ stmt. stmt ≡ s.PrintQuery spec.load_query last_day) }
{
    let query = query(alloc)?;
    let day = RefDay::LAST;
    Ok(Stmt::PrintQuery { query, day })
}

// SELECT .. FROM .., without WHERE.
#[tactic(auto, unfolding(crate::specs::Commands::load_query))]
fn query(alloc: Global) -> Result<QueryText, NoMemory>
    ensures { IfOk result (λ query. query ≡ spec.load_query) }
{
    let items = ItemsText::List(items(alloc)?);
    let tables = tables(alloc)?;
    let first = CoreText {
        items,
        tables,
        cond: None,
        semis: Items::new(alloc),
    };
    Ok(QueryText {
        first,
        rest: Items::new(alloc),
    })
}

// x.id AS l, y.id AS r.
#[tactic(auto, unfolding(crate::specs::Commands::load_items))]
fn items(alloc: Global) -> Result<Items<ItemText>, NoMemory>
    ensures { IfOk result (λ items. items ≡ spec.load_items) }
{
    let mut items = Items::new(alloc);
    items.push(item(alloc, "x", "l")?)?;
    items.push(item(alloc, "y", "r")?)?;
    Ok(items)
}

// The column id of the table, under the name.
fn item(alloc: Global, table: &str, name: &str) -> Result<ItemText, NoMemory>
    requires table { is_word table.now ≡ true }
    requires lower_table { folded table.now ≡ table.now }
    requires name { is_word name.now ≡ true }
    requires lower_name { folded name.now ≡ name.now }
    ensures { IfOk result (λ item. item ≡ item_of (column_of table.now (Some (codes "id"))) (Some name.now)) }
{
    let name = Some(word(alloc, name)?);
    let expr = column(alloc, table, "id")?;
    Ok(ItemText { expr, name })
}

// lefts x JOIN rights y ON the condition.
#[tactic(auto, unfolding(crate::specs::Commands::load_tables))]
fn tables(alloc: Global) -> Result<Items<FromText>, NoMemory>
    ensures { IfOk result (λ tables. tables ≡ spec.load_tables) }
{
    let mut tables = Items::new(alloc);
    tables.push(first_table(alloc)?)?;
    tables.push(joined_table(alloc)?)?;
    Ok(tables)
}

// lefts x.
fn first_table(alloc: Global) -> Result<FromText, NoMemory>
    ensures { IfOk result (λ table. table ≡ table_of (codes "lefts", Some (codes "x")) None) }
{
    let name = word(alloc, "lefts")?;
    let alias = Some(word(alloc, "x")?);
    Ok(FromText {
        name,
        alias,
        on: None,
    })
}

// rights y ON the condition.
fn joined_table(alloc: Global) -> Result<FromText, NoMemory>
    ensures { IfOk result (λ table. table ≡ table_of (codes "rights", Some (codes "y")) (Some spec.load_cond)) }
{
    let name = word(alloc, "rights")?;
    let alias = Some(word(alloc, "y")?);
    let on = Some(cond(alloc)?);
    Ok(FromText { name, alias, on })
}

// x.vt OVERLAPS y.vt.
#[tactic(auto, unfolding(crate::specs::Commands::load_cond))]
fn cond(alloc: Global) -> Result<CondText, NoMemory>
    ensures { IfOk result (λ cond. cond ≡ spec.load_cond) }
{
    let left = column(alloc, "x", "vt")?;
    let right = column(alloc, "y", "vt")?;
    Ok(CondText::Relate {
        pred: Pred::Overlaps,
        left,
        right,
    })
}

// The column of the table.
fn column(alloc: Global, table: &str, name: &str) -> Result<ExprText, NoMemory>
    requires table { is_word table.now ≡ true }
    requires lower_table { folded table.now ≡ table.now }
    requires name { is_word name.now ≡ true }
    requires lower_name { folded name.now ≡ name.now }
    ensures { IfOk result (λ column. column ≡ column_of table.now (Some name.now)) }
{
    let table = Some(word(alloc, table)?);
    let name = word(alloc, name)?;
    Ok(ExprText::Column { table, name })
}

// ---- names

/// The name that the word is. The word is a name in lower case.
pub fn word(alloc: Global, word: &str) -> Result<Name, NoMemory>
    requires word { is_word word.now ≡ true }
    requires lower { folded word.now ≡ word.now }
    ensures { IfOk result (λ name. name ≡ word.now) }
{
    match Name::of(alloc, word.as_bytes()) {
        Ok(name) => Ok(name),
        Err(NameRefusal::NoMemory) => Err(NoMemory),
        Err(NameRefusal::NotAName) => unreachable!(),
    }
}
