//! Relations of rows of values: their rows on a day, and two rows that are glued.

use crate::listing::{is_text, lists};
use crate::texts::{cell, overlap, row};
use og_base::{NoMemory, RtSet, write_rt};
use og_expr::CondDays;
use og_ops::{Hit, test_pair};
use og_query::Expr;
use og_rel::Rel;
use og_value::{Kind, Row, write_cell};
use std::alloc::Global;
use std::process::Abort;

// All days.
fn all_days<H: AllocGlobal + Abort>(rt: &H) -> RtSet {
    RtSet::all(rt.alloc()).expect(rt, "memory")
}

// Appends the row on the days.
fn add_row<H: Abort>(rt: &H, row: Row, days: RtSet, rel: &mut Rel<Row>) {
    assert!(rt; rel.push(row, days).is_ok());
}

// The relation of the point now, twice on all days and once on none.
fn twice<H: AllocGlobal + Abort>(rt: &H) -> Rel<Row> {
    let mut rel = Rel::new(rt.alloc());
    add_row(
        rt,
        row(rt, [cell(rt, Kind::Date, "now")]),
        all_days(rt),
        &mut rel,
    );
    add_row(
        rt,
        row(rt, [cell(rt, Kind::Date, "now")]),
        all_days(rt),
        &mut rel,
    );
    add_row(rt, row(rt, []), RtSet::empty(rt.alloc()), &mut rel);
    rel
}

#[test]
fn a_row_that_stands_twice_is_listed_once_and_one_without_days_is_left_out(rt: HostRuntime) {
    let mut rel = twice(&rt);
    let copy = rel.copy().expect(&rt, "memory");
    assert!(rt; lists(rt.alloc(), &copy, 2, "2020-05-01", "2020-05-01\n"));
    rel.append(copy).expect(&rt, "memory");
    assert!(rt; lists(rt.alloc(), &rel, 4, "2020-05-02", "2020-05-02\n"));
}

// The bug or the patch of that number, in the spam filter, with its period.
fn filed<H: AllocGlobal + Abort>(rt: &H, number: &str, period: &str) -> Row {
    row(
        rt,
        [
            cell(rt, Kind::Int, number),
            cell(rt, Kind::Text, "Spam filter"),
            cell(rt, Kind::Period, period),
        ],
    )
}

// Appends the days of the glued row and its cells, with blanks between them.
fn add_hit(hit: &Hit<Row>, out: &mut Vec<u8>) -> Result<(), NoMemory> {
    write_rt(&hit.days, out)?;
    for i in 0..hit.row.len() {
        out.push(b' ')?;
        write_cell(hit.row.value(i), out)?;
    }
    Ok(())
}

// The two rows glued on the days on which their periods overlap, where there are such days.
fn glued<H: AllocGlobal + Abort>(rt: &H, bug: Row, patch: Row) -> Option<Hit<Row>> {
    let all = all_days(rt);
    let overlap = overlap(rt, Expr::Column(2), Expr::Column(5));
    let cond = CondDays { cond: &overlap };
    test_pair(rt.alloc(), &bug, &all, &patch, &all, &cond).expect(rt, "memory")
}

// Whether the text is that of the glued row; no bytes where there is none.
fn is_hit(alloc: Global, hit: Option<Hit<Row>>, text: &str) -> bool {
    match hit {
        Some(hit) => {
            let mut out = Vec::new(alloc);
            add_hit(&hit, &mut out).is_ok() && is_text(out.as_slice(), text)
        }
        None => text.is_empty(),
    }
}

#[test]
fn a_pair_is_glued_on_the_days_on_which_the_periods_overlap(rt: HostRuntime) {
    for (number, period, text) in &[
        (
            "500",
            "[2020-01-25,now)",
            "{[2020-08-25,infinity)} 500 Spam filter [2020-01-25,now) 202 Spam filter [2020-08-24,now)",
        ),
        ("501", "[2020-03-30,2020-08-21)", ""),
    ] {
        let bug = filed(&rt, number, period);
        let patch = filed(&rt, "202", "[2020-08-24,now)");
        assert!(rt;
            is_hit(rt.alloc(), glued(&rt, bug, patch), text),
            "{number}"
        );
    }
}
