//! Plans: a part of a WITH for each node, its inputs before it. Rows without days are left out at each.

use crate::combines::put_combine;
use crate::joins::{put_join, put_product};
use crate::node::{Count, Node};
use crate::semis::put_semis;
use crate::sides::side_of;
use og_plan::Plan;
use og_query::{Cond, Expr};
use og_sql_text::{Columns, Sight, Sql, has_days, put_expr, put_products, put_tests};

/// Appends the parts of a plan whose answer has these columns, and gives its last node. It goes as deep as the plan.
#[cycle(plans)]
pub fn put_plan(plan: &Plan, answer: &Columns, count: &mut Count, out: &mut Sql) -> Node {
    match plan {
        Plan::Scan { name, schema } => Node {
            source: count.next_place(name, out),
            columns: Columns::of(schema, out),
        },
        Plan::Filter { input, parts } => {
            let node = put_plan(input.get(), answer, count, out);
            put_filter(node, parts.as_slice(), count, out)
        }
        Plan::Project { input, items } => {
            let node = put_plan(input.get(), answer, count, out);
            put_projection(&node, items.as_slice(), answer, count, out)
        }
        Plan::Semis { input, semis } => {
            let node = put_plan(input.get(), answer, count, out);
            put_semis(node, semis.as_slice(), count, out)
        }
        Plan::Product { left, right }
        | Plan::KeyJoin { left, right, .. }
        | Plan::OverlapJoin { left, right, .. }
        | Plan::Combine { left, right, .. } => {
            let one = put_plan(left.get(), answer, count, out);
            let two = match side_of(plan, answer, count) {
                Some(source) => Node {
                    source,
                    columns: answer.copy(out),
                },
                None => put_plan(right.get(), answer, count, out),
            };
            put_two(plan, &one, &two, answer, count, out)
        }
    }
}

// Appends the part of a plan of two inputs, which were written before.
fn put_two(
    plan: &Plan,
    one: &Node,
    two: &Node,
    answer: &Columns,
    count: &mut Count,
    out: &mut Sql,
) -> Node {
    match plan {
        Plan::KeyJoin { pairs, rest, .. } => {
            put_join(one, two, pairs.as_slice(), rest.as_slice(), count, out)
        }
        Plan::OverlapJoin { rest, .. } => put_join(one, two, &[], rest.as_slice(), count, out),
        Plan::Combine { op, .. } => put_combine(*op, one, two, answer, count, out),
        _ => put_product(one, two, count, out),
    }
}

// Appends the part of the rows of which all conditions hold, on the days on which they do.
fn put_filter(node: Node, parts: &[Cond], count: &mut Count, out: &mut Sql) -> Node {
    let none = Columns::none(out.alloc());
    let sight = Sight {
        left: &node.columns,
        right: &none,
    };
    let source = count.begin("filter", "", out);
    let depends = has_days(parts, sight);
    out.put(if depends {
        "SELECT * FROM (SELECT "
    } else {
        "SELECT "
    });
    node.columns.put_all("l.", out);
    out.put(", l.days");
    put_products(parts, sight, out);
    out.put(if depends {
        " AS days\n    FROM "
    } else {
        "\n    FROM "
    });
    node.put(out);
    out.put(" AS l");
    put_tests("\n    WHERE ", parts, sight, out);
    out.put(if depends {
        ") AS kept WHERE NOT isempty(days))"
    } else {
        ")"
    });
    let Node { columns, .. } = node;
    Node { source, columns }
}

// Appends the part of the images of rows, of which equal ones are one.
fn put_projection(
    node: &Node,
    items: &[Expr],
    answer: &Columns,
    count: &mut Count,
    out: &mut Sql,
) -> Node {
    let none = Columns::none(out.alloc());
    let sight = Sight {
        left: &node.columns,
        right: &none,
    };
    let kept = count.by_itself();
    let source = count.begin("project", kept, out);
    out.put("SELECT ");
    put_items(items, answer, sight, out);
    out.put("range_agg(l.days) AS days\n    FROM ");
    node.put(out);
    out.put(" AS l GROUP BY ");
    answer.put_places(out);
    out.put(")");
    let columns = answer.copy(out);
    Node { source, columns }
}

// Appends items, each under its name and with a comma behind it.
fn put_items(items: &[Expr], answer: &Columns, sight: Sight<'_>, out: &mut Sql) {
    'items: for i in 0..items.len() {
        put_expr(&items[i], sight, out);
        put_as(&items[i], i, answer, sight, out);
        out.put(", ");
    }
}

// Appends the name of an item, where it is not that of the column that it is.
fn put_as(item: &Expr, place: usize, answer: &Columns, sight: Sight<'_>, out: &mut Sql) {
    if let Expr::Column(column) = item {
        if sight.left.is_same(*column, answer, place) {
            return;
        }
    }
    out.put(" AS ");
    answer.put(place, out)
}
