//! Indexes on what the plan of a query joins by: the outer ranges of the right side of an overlap join, and of the table of an
//! EXISTS that asks for an overlap and no key.
ghost use Rattle.og_query.specs.Fits.{IsFitQuery, Schemas};

use og_outline::Outline;
use og_plan::{Plan, PlanSemi, fitting_queries, plan_of};
use og_query::Query;
use og_sql_text::{Columns, Sight, Sql, outer_place, put_beside, put_table};
use og_value::{Name, Schema};

/// Appends the indexes on what the plan of the query joins by.
pub fn put_indexes(query: &Query, outline: &Outline, out: &mut Sql)
    requires fits { (schemas : Schemas) × IsFitQuery schemas query.now }
{
    fitting_queries();
    let plan = plan_of(out.alloc(), query);
    if let Some(plan) = out.made(plan) {
        put_below(&plan, outline, out);
    }
}

// Appends those of a plan. It goes as deep as the plan.
#[cycle(indexes)]
fn put_below(plan: &Plan, outline: &Outline, out: &mut Sql) {
    match plan {
        Plan::Scan { .. } => {}
        Plan::Filter { input, .. } | Plan::Project { input, .. } => {
            put_below(input.get(), outline, out)
        }
        Plan::Semis { input, semis } => {
            put_below(input.get(), outline, out);
            put_of_semis(input.get(), semis.as_slice(), outline, out)
        }
        Plan::Product { left, right }
        | Plan::KeyJoin { left, right, .. }
        | Plan::Combine { left, right, .. } => {
            put_below(left.get(), outline, out);
            put_below(right.get(), outline, out)
        }
        Plan::OverlapJoin {
            left,
            right,
            pair,
            ..
        } => {
            put_below(left.get(), outline, out);
            put_leaf(right.get(), pair.right, outline, out)
        }
    }
}

// Appends those of the tables of EXISTS over the plan.
fn put_of_semis(input: &Plan, semis: &[PlanSemi], outline: &Outline, out: &mut Sql) {
    let mut left = Columns::none(out.alloc());
    add_columns(input, &mut left, out);
    'semis: for i in 0..semis.len() {
        let place = place_of(&left, &semis[i], out);
        if i == 0
            || !is_of(&semis[i - 1], &semis[i])
            || place_of(&left, &semis[i - 1], out) != place
        {
            put_of_semi(place, &semis[i], outline, out);
        }
    }
}

// Whether both are of one table.
fn is_of(one: &PlanSemi, two: &PlanSemi) -> bool {
    one.table.name == two.table.name
}

// Adds the columns of the tables that a plan joins. It goes as deep as the plan.
#[cycle(columns)]
fn add_columns(plan: &Plan, columns: &mut Columns, out: &mut Sql) {
    match plan {
        Plan::Scan { schema, .. } => columns.add_schema(schema, out),
        Plan::Filter { input, .. } | Plan::Project { input, .. } | Plan::Semis { input, .. } => {
            add_columns(input.get(), columns, out)
        }
        Plan::Product { left, right }
        | Plan::KeyJoin { left, right, .. }
        | Plan::OverlapJoin { left, right, .. }
        | Plan::Combine { left, right, .. } => {
            add_columns(left.get(), columns, out);
            add_columns(right.get(), columns, out)
        }
    }
}

// The place of the column of its table that an EXISTS asks to overlap one of the rows, where it asks for no key.
fn place_of(left: &Columns, semi: &PlanSemi, out: &mut Sql) -> Option<usize> {
    let right = Columns::of(&semi.table.schema, out);
    let sight = Sight {
        left,
        right: &right,
    };
    outer_place(semi.parts.as_slice(), sight)
}

// Appends the index on the column at that place of the table of an EXISTS.
fn put_of_semi(place: Option<usize>, semi: &PlanSemi, outline: &Outline, out: &mut Sql) {
    match place {
        Some(place) => put_index(&semi.table.name, &semi.table.schema, place, outline, out),
        None => {}
    }
}

// Appends the index on a column of the table under a leaf. A view has none.
fn put_leaf(plan: &Plan, place: usize, outline: &Outline, out: &mut Sql) {
    match plan {
        Plan::Scan { name, schema } => put_index(name, schema, place, outline, out),
        Plan::Filter { input, .. } => match input.get() {
            Plan::Scan { name, schema } => put_index(name, schema, place, outline, out),
            _ => {}
        },
        _ => {}
    }
}

// Appends the index on the outer ranges of a column, under a name that no table has, where it is not there.
fn put_index(name: &Name, schema: &Schema, place: usize, outline: &Outline, out: &mut Sql) {
    if outline.is_live(name) {
        return;
    }
    let columns = Columns::of(schema, out);
    out.put("CREATE INDEX IF NOT EXISTS ");
    put_beside(name, "outer", out);
    out.number(place.saturating_add(1));
    out.put(" ON ");
    put_table(name, out);
    out.put(" USING gist (\"outer\"(");
    columns.put(place, out);
    out.put("));\nANALYZE ");
    put_table(name, out);
    out.put(";\n")
}
