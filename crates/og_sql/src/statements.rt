//! The SQL of statements that act on names alone.
ghost use Rattle.std.specs.Prelude.{◌≡◌, Some};
ghost use Rattle.og_db.specs.Held.{known_of};
ghost use Rattle.og_query.specs.Fits.{IsFit, IsFitQuery, IsNamed, Schemas};

use crate::spread::{put_create, put_drop, put_kept, put_live, put_printed};
use og_base::NoMemory;
use og_outline::Outline;
use og_output::names_text;
use og_plan::{explain, fitting_queries, plan_of};
use og_query::{Query, Typed};
use og_sql_query::{put_print_name, put_query, put_sides, put_sides_end};
use og_sql_rows::{Way, put_delete, put_insert, put_update, put_valid};
use og_sql_text::Sql;
use og_sql_words::{ExplainForm, Target};
use og_value::{Catalog, Name, Schema};
use std::alloc::Global;

/// Appends the SQL of a statement that acts on names alone, over the names before it.
pub fn put_statement(target: &Target, typed: &Typed, outline: &Outline, out: &mut Sql)
    requires fits { IsFit (known_of outline.now.names) typed.now }
{
    match typed {
        Typed::Create { name, schema } => put_create(Way::of(target, schema), name, schema, out),
        Typed::Insert { name, rows } => {
            let schema = columns_of(outline, name);
            put_insert(Way::of(target, schema), name, schema, rows.as_slice(), out)
        }
        Typed::Delete { name, cond } => {
            let schema = columns_of(outline, name);
            put_delete(Way::of(target, schema), name, schema, cond, out)
        }
        Typed::Update { name, sets, cond } => {
            let schema = columns_of(outline, name);
            put_update(
                Way::of(target, schema),
                name,
                schema,
                sets.as_slice(),
                cond,
                out,
            )
        }
        Typed::Drop { name } => put_drop(target, name, outline, out),
        Typed::Keep { name, query } => put_kept(target, name, query, outline, out),
        Typed::Live { name, query } => put_live(target, name, query, outline, out),
        other => put_asked(target, other, outline, out),
    }
}

// The columns of a name that is known.
fn columns_of<'a>(outline: &'a Outline, name: &Name) -> &'a Schema
    requires { IsNamed (known_of outline.now.names) name.now }
{
    let Some(schema) = outline.schema(name) else {
        unreachable!();
    };
    schema
}

// Appends the SQL of a statement that only prints.
fn put_asked(target: &Target, typed: &Typed, outline: &Outline, out: &mut Sql)
    requires fits { IsFit (known_of outline.now.names) typed.now }
{
    match typed {
        Typed::Tables => put_names(outline, out),
        Typed::Explain { query } => put_explain(target, query, out),
        Typed::PrintName { name, day } => {
            put_print_name(name, columns_of(outline, name), *day, out)
        }
        Typed::PrintQuery { query, day } => put_printed(target, query, *day, outline, out),
        Typed::Valid { name, day } => put_valid(name, columns_of(outline, name), *day, out),
        _ => {}
    }
}

// Appends the SELECT of the names.
fn put_names(outline: &Outline, out: &mut Sql) {
    let text = names_of(outline, out.alloc());
    if let Some(text) = out.made(text) {
        put_text(text.as_slice(), out);
    }
}

// The text of the names.
fn names_of(outline: &Outline, alloc: Global) -> Result<Vec<u8>, NoMemory> {
    let db = outline.to_db()?;
    names_text(alloc, &db)
}

// Appends the SELECT of a text that is known.
fn put_text(text: &[u8], out: &mut Sql) {
    let (text, _) = text.split_at(text.len().saturating_sub(1));
    out.put("SELECT ");
    out.quoted(text);
    out.put(";\n")
}

// Appends the SELECT of the text of a plan, or what asks PostgreSQL for its own.
fn put_explain(target: &Target, query: &Query, out: &mut Sql)
    requires fits { (schemas : Schemas) × IsFitQuery schemas query.now }
{
    if target.explain == ExplainForm::PostgreSql {
        put_sides(query, out);
        out.put("EXPLAIN\n");
        put_query(query, out);
        out.put(";\n");
        return put_sides_end(query, out);
    }
    let text = plan_text(query, out.alloc());
    if let Some(text) = out.made(text) {
        put_text(text.as_slice(), out);
    }
}

// The text of the plan.
fn plan_text(query: &Query, alloc: Global) -> Result<Vec<u8>, NoMemory>
    requires fits { (schemas : Schemas) × IsFitQuery schemas query.now }
{
    fitting_queries();
    let plan = plan_of(alloc, query)?;
    explain(alloc, &plan)
}
