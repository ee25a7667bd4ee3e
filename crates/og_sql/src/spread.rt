//! The statements whose SQL depends on where tables stand: those that make tables and results, and take them out.
ghost use Rattle.og_query.specs.Fits.{IsFitQuery, Schemas};

use crate::indexes::put_indexes;
use og_base::{NoMemory, RefDay};
use og_outline::Outline;
use og_plan::{fitting_queries, plan_of};
use og_query::Query;
use og_sql_live::{put_live_end, put_live_table};
use og_sql_query::{
    put_ordered_query, put_print_asked, put_print_query, put_query, put_sides, put_sides_end,
};
use og_sql_rows::Way;
use og_sql_spread::{
    Asked, At, Part, Why, part_of, put_ask, put_count, put_distribute, put_forget, put_gone,
    put_keep, put_make, put_merged, put_why,
};
use og_sql_text::{Columns, Sql, put_table};
use og_sql_words::{LiveForm, Spread, Target};
use og_value::{Catalog, Name, Schema};
use std::alloc::Global;

/// Appends the CREATE TABLE of a name.
pub fn put_create(way: Way, name: &Name, schema: &Schema, out: &mut Sql) {
    if let Way::Shards(key) = way {
        return put_make(name, schema, key, out);
    }
    let columns = Columns::of(schema, out);
    out.put("CREATE TABLE ");
    put_table(name, out);
    out.put(" (");
    columns.put_types(out);
    out.put(");\n");
    match way {
        Way::Citus(key) => put_distribute(name, schema, key, out),
        _ => {}
    }
}

/// Appends what keeps the rows of a SELECT.
pub fn put_selected(way: Way, name: &Name, schema: &Schema, select: &Sql, out: &mut Sql) {
    match way {
        Way::Here | Way::Citus(None) => {
            out.put("CREATE TABLE ");
            put_table(name, out);
            out.put(" AS\n");
        }
        Way::Shards(_) | Way::Citus(Some(_)) => {
            put_create(way, name, schema, out);
            out.put("INSERT INTO ");
            put_table(name, out);
            out.put("\n");
        }
    }
    out.put_sql(select);
    out.put(";\n");
    if let Way::Shards(_) = way {
        return put_count(name, out);
    }
    out.put("ANALYZE ");
    put_table(name, out);
    out.put(";\n")
}

/// Appends what keeps the rows of a query: each node its part, where the answer has what that is spread by.
pub fn put_kept(target: &Target, name: &Name, query: &Query, outline: &Outline, out: &mut Sql)
    requires fits { (schemas : Schemas) × IsFitQuery schemas query.now }
{
    let schema = &query.first.schema;
    let way = Way::of(target, schema);
    let part = put_before(target, query, outline, out);
    if part.at != At::Nodes {
        let select = kept_text(way, query, out.alloc());
        put_sides(query, out);
        put_selected(way, name, schema, &select, out);
        return put_sides_end(query, out);
    }
    let select = query_text(query, out.alloc());
    match way {
        Way::Shards(key) if part.has(key) => put_keep(name, schema, key, &select, out),
        _ => {
            put_ask(Asked::Once, schema, &select, out);
            let merged = merged_text(Asked::Once, schema, out.alloc());
            put_selected(way, name, schema, &merged, out);
            put_forget(Asked::Once, out)
        }
    }
}

/// Appends what gives a query a name.
pub fn put_live(target: &Target, name: &Name, query: &Query, outline: &Outline, out: &mut Sql)
    requires fits { (schemas : Schemas) × IsFitQuery schemas query.now }
{
    if is_live_table(target) {
        return put_live_table(name, query, out);
    }
    let schema = &query.first.schema;
    let part = put_before(target, query, outline, out);
    let mut select = query_text(query, out.alloc());
    if part.at == At::Nodes {
        put_ask(Asked::Live(name), schema, &select, out);
        select = merged_text(Asked::Live(name), schema, out.alloc());
    }
    out.put("CREATE VIEW ");
    put_table(name, out);
    out.put(" AS\n");
    out.put_sql(&select);
    out.put(";\n")
}

/// Appends the SELECTs that print the rows of a query on the day.
pub fn put_printed(target: &Target, query: &Query, day: RefDay, outline: &Outline, out: &mut Sql)
    requires fits { (schemas : Schemas) × IsFitQuery schemas query.now }
{
    let schema = &query.first.schema;
    let part = put_before(target, query, outline, out);
    if part.at != At::Nodes {
        return put_print_query(query, day, out);
    }
    let select = query_text(query, out.alloc());
    put_ask(Asked::Once, schema, &select, out);
    put_print_asked(schema, day, out);
    put_forget(Asked::Once, out)
}

// Appends what stands before a query that is not made on the nodes: why it is not, or indexes. Gives where it is made. What Citus
// is asked is made where Citus wants it, and tables without the column are on all of its nodes.
fn put_before(target: &Target, query: &Query, outline: &Outline, out: &mut Sql) -> Part
    requires fits { (schemas : Schemas) × IsFitQuery schemas query.now }
{
    match &target.spread {
        Spread::One => {
            put_indexes(query, outline, out);
            Part::here(out.alloc())
        }
        Spread::Shards(column) => {
            let part = part_of_query(column, query, outline, out);
            put_why(part.at, column, out);
            if part.at == At::Here {
                put_indexes(query, outline, out);
            }
            part
        }
        Spread::Citus(column) => {
            let part = part_of_query(column, query, outline, out);
            if part.at != At::Sent(Why::Mixed) {
                put_why(part.at, column, out);
            }
            put_indexes(query, outline, out);
            Part::here(out.alloc())
        }
    }
}

// Where a query is made over tables that are spread by the column.
fn part_of_query(column: &Name, query: &Query, outline: &Outline, out: &mut Sql) -> Part
    requires fits { (schemas : Schemas) × IsFitQuery schemas query.now }
{
    let part = planned_part(column, query, outline, out.alloc());
    match out.made(part) {
        Some(part) => part,
        None => Part::here(out.alloc()),
    }
}

// The same, by its plan.
fn planned_part(
    column: &Name,
    query: &Query,
    outline: &Outline,
    alloc: Global,
) -> Result<Part, NoMemory>
    requires fits { (schemas : Schemas) × IsFitQuery schemas query.now }
{
    fitting_queries();
    let plan = plan_of(alloc, query)?;
    let part = part_of(alloc, &plan, column, outline);
    drop(plan);
    part
}

// The SELECT of a query.
fn query_text(query: &Query, alloc: Global) -> Sql
    requires fits { (schemas : Schemas) × IsFitQuery schemas query.now }
{
    let mut text = Sql::new(alloc);
    put_query(query, &mut text);
    text
}

// The SELECT of a query whose rows are kept: a table on one server has them in rising order, as ongq mostly has.
fn kept_text(way: Way, query: &Query, alloc: Global) -> Sql
    requires fits { (schemas : Schemas) × IsFitQuery schemas query.now }
{
    let mut text = Sql::new(alloc);
    if way == Way::Here {
        put_ordered_query(query, &mut text);
    } else {
        put_query(query, &mut text);
    }
    text
}

// The SELECT of what the nodes answer.
fn merged_text(asked: Asked<'_>, schema: &Schema, alloc: Global) -> Sql {
    let mut text = Sql::new(alloc);
    put_merged(asked, schema, &mut text);
    text
}

/// Appends what takes a name out, and before it what keeps the rows of the live results whose query names it.
pub fn put_drop(target: &Target, name: &Name, outline: &Outline, out: &mut Sql) {
    let ending = outline.ending(name);
    let Some(ending) = out.made(ending) else {
        return;
    };
    'ending: for live in ending.as_slice() {
        put_settled(target, live, outline, out);
    }
    if outline.is_live(name) {
        return put_ended(target, name, out);
    }
    if let Some(schema) = outline.schema(name) {
        if let Way::Shards(_) = Way::of(target, schema) {
            return put_gone(name, out);
        }
    }
    out.put("DROP TABLE ");
    put_table(name, out);
    out.put(";\n")
}

// Whether live results are tables. Where tables are spread they are views: triggers here see no change on a node.
fn is_live_table(target: &Target) -> bool {
    match &target.spread {
        Spread::One => target.live == LiveForm::Table,
        Spread::Shards(_) | Spread::Citus(_) => false,
    }
}

// Appends what takes a live result out.
fn put_ended(target: &Target, name: &Name, out: &mut Sql) {
    if is_live_table(target) {
        put_live_end(name, out);
        out.put("DROP TABLE ");
        put_table(name, out);
        return out.put(";\n");
    }
    out.put("DROP VIEW ");
    put_table(name, out);
    out.put(";\n");
    match &target.spread {
        Spread::Shards(_) => put_forget(Asked::Live(name), out),
        _ => {}
    }
}

// Appends what makes a live result a table that nothing changes.
fn put_settled(target: &Target, name: &Name, outline: &Outline, out: &mut Sql) {
    if is_live_table(target) {
        return put_live_end(name, out);
    }
    out.put("CREATE TABLE settled$ AS SELECT * FROM ");
    put_table(name, out);
    out.put(";\n");
    put_ended(target, name, out);
    if let Some(schema) = outline.schema(name) {
        return put_settled_rows(Way::of(target, schema), name, schema, out);
    }
}

// Appends what gives the rows that were a view's its name.
fn put_settled_rows(way: Way, name: &Name, schema: &Schema, out: &mut Sql) {
    match way {
        Way::Here | Way::Citus(None) => {
            out.put("ALTER TABLE settled$ RENAME TO ");
            put_table(name, out);
            out.put(";\n")
        }
        Way::Shards(_) | Way::Citus(Some(_)) => {
            let mut select = Sql::new(out.alloc());
            select.put("SELECT * FROM settled$");
            put_selected(way, name, schema, &select, out);
            out.put("DROP TABLE settled$;\n")
        }
    }
}
