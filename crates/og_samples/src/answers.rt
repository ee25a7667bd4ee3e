//! The days on which something holds of points and periods.
use crate::texts::{assert_found, has_text, period, point};
use og_base::{NoMemory, RtSet};
use og_time::{OngoingBool, OngoingPeriod};
use og_value::Pred;
use std::alloc::Global;
use std::process::Abort;

// Whether these are the days on which the answer is true.
fn is_on(alloc: Global, answer: Result<OngoingBool, NoMemory>, text: &str) -> bool {
    match answer {
        Ok(answer) => has_text(alloc, &answer.into_days(), text),
        Err(_) => false,
    }
}

// Asserts that these are the days on which the answer is true.
fn assert_on<H: AllocGlobal + Abort>(rt: &H, answer: Result<OngoingBool, NoMemory>, text: &str) {
    assert!(rt; is_on(rt.alloc(), answer, text), "{text}");
}

// The answer of the predicate on the two periods.
fn answer(
    alloc: Global,
    pred: Pred,
    left: OngoingPeriod,
    right: OngoingPeriod,
) -> Result<OngoingBool, NoMemory> {
    match pred {
        Pred::Before => left.before(alloc, right),
        Pred::Meets => left.meets(alloc, right),
        Pred::Overlaps => left.overlaps(alloc, right),
        Pred::Starts => left.starts(alloc, right),
        Pred::Finishes => left.finishes(alloc, right),
        Pred::During => left.during(alloc, right),
        Pred::Equals => left.equals(alloc, right),
    }
}

#[test]
fn each_predicate_holds_on_its_days(rt: HostRuntime) {
    let growing = period(&rt, "[2020-01-25,now)");
    for (pred, other, days) in &[
        (
            Pred::Before,
            "[2020-08-15,2020-08-24)",
            "{[2020-01-26,2020-08-16)}",
        ),
        (
            Pred::Meets,
            "[2020-08-15,2020-08-24)",
            "{[2020-08-15,2020-08-16)}",
        ),
        (
            Pred::Overlaps,
            "[2020-08-15,2020-08-24)",
            "{[2020-08-16,infinity)}",
        ),
        (
            Pred::Finishes,
            "[2020-08-15,2020-08-24)",
            "{[2020-08-24,2020-08-25)}",
        ),
        (
            Pred::Starts,
            "[2020-01-25,2020-08-24)",
            "{[2020-01-26,infinity)}",
        ),
        (
            Pred::During,
            "[2020-01-25,2020-08-24)",
            "{[2020-01-26,2020-08-25)}",
        ),
        (
            Pred::Equals,
            "[2020-01-25,2020-08-24)",
            "{[2020-08-24,2020-08-25)}",
        ),
    ] {
        let answer = answer(rt.alloc(), *pred, growing, period(&rt, other));
        assert_on(&rt, answer, days);
    }
}

#[test]
fn a_period_contains_its_start_where_it_is_not_empty(rt: HostRuntime) {
    let growing = period(&rt, "[2020-01-25,now)");
    let contains = growing.contains(rt.alloc(), point(&rt, "2020-01-25"));
    assert_on(&rt, contains, "{[2020-01-26,infinity)}");
    let empty = RtSet::of_cut(rt.alloc(), &growing.empty_days());
    assert_found(&rt, empty, "{[-infinity,2020-01-26)}");
}

#[test]
fn answers_are_joined_by_and_and_or(rt: HostRuntime) {
    let growing = period(&rt, "[2020-01-25,now)");
    let other = period(&rt, "[2020-08-15,2020-08-24)");
    let before = growing.before(rt.alloc(), other).expect(&rt, "memory");
    let meets = growing.meets(rt.alloc(), other).expect(&rt, "memory");
    assert_on(&rt, before.and(&meets), "{[2020-08-15,2020-08-16)}");
    assert_on(&rt, before.or(&meets), "{[2020-01-26,2020-08-16)}");
}

#[test]
fn a_constant_answer_has_all_days_or_none(rt: HostRuntime) {
    let always = OngoingBool::constant(rt.alloc(), true);
    assert_on(&rt, always, "{[-infinity,infinity)}");
    let always = OngoingBool::constant(rt.alloc(), true).expect(&rt, "memory");
    assert_on(&rt, always.not(), "{}");
}
