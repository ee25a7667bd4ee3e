//! Sets of days by their texts.
use crate::texts::{assert_found, day, has_text, point, set};
use og_base::{NoMemory, RtRefusal, RtSet, meet_cuts, read_rt};
use std::alloc::Global;
use std::process::Abort;

// Whether the text is read as a set and written for it.
fn is_set_text(alloc: Global, text: &str) -> bool {
    match read_rt(alloc, text.as_bytes()) {
        Ok(set) => has_text(alloc, &set, text),
        Err(_) => false,
    }
}

#[test]
fn each_set_text_is_read_and_written(rt: HostRuntime) {
    for text in &[
        "{}",
        "{[-infinity,infinity)}",
        "{[2020-01-01,2020-01-05)}",
        "{[-infinity,2020-01-01),[2020-01-05,infinity)}",
        "{[0001-01-01,infinity)}",
    ] {
        assert!(rt; is_set_text(rt.alloc(), text), "{text}");
    }
}

// Whether the text is refused as one of no set.
fn is_no_set(alloc: Global, text: &str) -> bool {
    read_rt(alloc, text.as_bytes()).err() == Some(RtRefusal::NotASet)
}

#[test]
fn no_other_text_is_a_set(rt: HostRuntime) {
    for text in &[
        "{[-009999-01-01,infinity)}",
        "{[2020-01-01,2020-01-05),[2020-01-05,infinity)}",
        "{[2020-01-05,2020-01-01)}",
        "{[2020-01-01,2020-01-01)}",
        "{[2020-01-01,infinity)",
        "[2020-01-01,infinity)",
        "{ }",
        "{[2020-01-01,2020-01-05),}",
        "",
        "{[infinity,infinity)}",
        "{[2020-01-01,-infinity)}",
    ] {
        assert!(rt; is_no_set(rt.alloc(), text), "{text}");
    }
}

// Whether there is no day in the set that was found.
fn is_empty(found: Result<RtSet, NoMemory>) -> bool {
    match found {
        Ok(set) => set.is_empty(),
        Err(_) => false,
    }
}

// Asserts that there is no day in the set that was found.
fn assert_empty<H: Abort>(rt: &H, found: Result<RtSet, NoMemory>) {
    assert!(rt; is_empty(found));
}

#[test]
fn sets_that_touch_unite_to_one_range(rt: HostRuntime) {
    let first = set(&rt, "{[2020-01-01,2020-01-05)}");
    let second = set(&rt, "{[2020-01-05,infinity)}");
    assert_found(&rt, first.union(&second), "{[2020-01-01,infinity)}");
    assert_empty(&rt, first.meet(&second));
}

#[test]
fn a_set_is_taken_out_of_another_and_of_all_days(rt: HostRuntime) {
    let first = set(&rt, "{[2020-01-01,2020-01-05)}");
    let early = RtSet::below(rt.alloc(), day(&rt, "2020-01-03")).expect(&rt, "memory");
    assert_found(&rt, first.minus(&early), "{[2020-01-03,2020-01-05)}");
    assert_found(&rt, first.copy(), "{[2020-01-01,2020-01-05)}");
    let others = "{[-infinity,2020-01-01),[2020-01-05,infinity)}";
    assert_found(&rt, first.complement(), others);
}

#[test]
fn all_days_are_one_range_with_none_below_it_or_above_the_last(rt: HostRuntime) {
    assert_found(&rt, RtSet::all(rt.alloc()), "{[-infinity,infinity)}");
    assert_empty(&rt, RtSet::below(rt.alloc(), day(&rt, "-infinity")));
    assert_empty(&rt, RtSet::above(rt.alloc(), day(&rt, "9999-12-31")));
}

#[test]
fn the_days_of_four_cuts_are_one_set(rt: HostRuntime) {
    let now = point(&rt, "now");
    let august = point(&rt, "2020-08-15");
    let days = meet_cuts(
        rt.alloc(),
        point(&rt, "2020-01-25").lt_days(now),
        now.le_days(now),
        now.le_days(august),
        august.le_days(now),
    );
    assert_found(&rt, days, "{[2020-08-15,2020-08-16)}");
}

#[test]
fn the_days_of_two_parts_are_two_ranges(rt: HostRuntime) {
    let now = point(&rt, "now");
    let early = point(&rt, "2019-12-01+2020-01-31");
    let parts = early.lt_days(point(&rt, "2020-01-01+2020-03-01"));
    let round = now.eq_days(point(&rt, "2019-12-31+2020-02-01"));
    let all = now.le_days(now);
    let days = meet_cuts(rt.alloc(), parts, round, all, all);
    let wanted = "{[2019-12-31,2020-01-01),[2020-02-01,2020-02-02)}";
    assert_found(&rt, days, wanted);
}
