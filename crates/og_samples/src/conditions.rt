//! Pairs of rows of a number, a point and a period of which a condition holds on no day.
use crate::texts::{cell, overlap, row};
use og_base::DayCond;
use og_expr::CondDays;
use og_query::{Cond, Expr};
use og_value::{Cmp, Kind, Row};
use std::process::Abort;

// Whether the condition may hold of the row beside itself.
fn may_hold(row: &Row, cond: Box<Cond>) -> bool {
    CondDays { cond: &cond }.may_hold(row, row)
}

// The condition that the two numbers differ.
fn differ<H: AllocGlobal + Abort>(rt: &H, left: Expr, right: Expr) -> Box<Cond> {
    let cond = Cond::Compare {
        op: Cmp::Ne,
        left,
        right,
    };
    Box::new(rt.alloc(), cond).expect(rt, "memory")
}

// Whether what is apart is told of the row beside itself: its period and one that ends before it begins, two equal
// numbers that are to differ, and a number and a period; and whether its period and itself are not.
fn are_told<H: AllocGlobal + Abort>(rt: &H, row: &Row) -> bool {
    let early = Expr::Lit(cell(rt, Kind::Period, "[2019-01-01,2020-01-25)"));
    !may_hold(row, overlap(rt, Expr::Column(5), early))
        && !may_hold(row, differ(rt, Expr::Column(0), Expr::Column(3)))
        && may_hold(row, overlap(rt, Expr::Column(2), Expr::Column(5)))
        && !may_hold(row, overlap(rt, Expr::Column(0), Expr::Column(5)))
}

#[test]
fn a_pair_that_is_apart_on_all_days_is_told_at_once(rt: HostRuntime) {
    let row = row(
        &rt,
        [
            cell(&rt, Kind::Int, "1"),
            cell(&rt, Kind::Date, "now"),
            cell(&rt, Kind::Period, "[2020-01-25,now)"),
        ],
    );
    assert!(rt; are_told(&rt, &row));
}
