//! EXISTS and NOT EXISTS: the rows of the input are numbered, the days of what each finds are put together by its number.

use crate::joins::put_on;
use crate::node::{Count, Node, Source};
use og_plan::PlanSemi;
use og_sql_text::{Columns, Sight, Sql, put_products};

/// Appends the parts of the rows that meet all of the semis, on the days on which they do.
pub fn put_semis(node: Node, semis: &[PlanSemi], count: &mut Count, out: &mut Sql) -> Node {
    let mut base = put_numbered(node, count, out);
    'semis: for semi in semis {
        base = put_semi(base, semi, count, out);
    }
    base
}

/// Appends the part of the rows with a number for each, in the column `row$`.
pub fn put_numbered(node: Node, count: &mut Count, out: &mut Sql) -> Node {
    let source = count.begin("numbered", "MATERIALIZED ", out);
    out.put("SELECT row_number() OVER () AS row$, ");
    node.columns.put_all("l.", out);
    out.put(", l.days FROM ");
    node.put(out);
    out.put(" AS l)");
    let Node { columns, .. } = node;
    Node { source, columns }
}

// Appends the parts of one semi.
fn put_semi(base: Node, semi: &PlanSemi, count: &mut Count, out: &mut Sql) -> Node {
    let table = Node {
        source: Source::of_table(&semi.table.name, out),
        columns: Columns::of(&semi.table.schema, out),
    };
    let hits = put_hits(&base, &table, semi, count, out);
    put_met(base, &hits, semi.positive, count, out)
}

// Appends the part of the days on which a row finds one, by its number.
fn put_hits(
    base: &Node,
    table: &Node,
    semi: &PlanSemi,
    count: &mut Count,
    out: &mut Sql,
) -> Source {
    let sight = Sight {
        left: &base.columns,
        right: &table.columns,
    };
    let parts = semi.parts.as_slice();
    let kept = count.by_itself();
    let source = count.begin("found", kept, out);
    out.put("SELECT row$, range_agg(days) AS days FROM (SELECT l.row$, l.days * r.days");
    put_products(parts, sight, out);
    out.put(" AS days\n    FROM ");
    base.put(out);
    out.put(" AS l JOIN ");
    table.put(out);
    out.put(" AS r ON ");
    put_on("", true, parts, sight, out);
    out.put(" OFFSET 0) AS joined WHERE NOT isempty(days) GROUP BY 1)");
    source
}

/// Appends the part of the rows on the days that were found, or on all others.
pub fn put_met(
    base: Node,
    hits: &Source,
    is_positive: bool,
    count: &mut Count,
    out: &mut Sql,
) -> Node {
    let source = count.begin(if is_positive { "semi" } else { "anti" }, "", out);
    out.put("SELECT * FROM (SELECT l.row$, ");
    base.columns.put_all("l.", out);
    out.put(if is_positive {
        ", r.days"
    } else {
        ", CASE WHEN r.days IS NULL THEN l.days ELSE l.days - r.days END AS days"
    });
    out.put("\n    FROM ");
    base.put(out);
    out.put(if is_positive {
        " AS l JOIN "
    } else {
        " AS l LEFT JOIN "
    });
    hits.put(out);
    out.put(" AS r ON l.row$ = r.row$ OFFSET 0) AS met WHERE NOT isempty(days))");
    let Node { columns, .. } = base;
    Node { source, columns }
}
