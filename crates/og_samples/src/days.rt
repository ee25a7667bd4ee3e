//! Days: their numbers and their texts. Points and periods as they are written.
use crate::listing::is_text;
use crate::texts::{period, point};
use og_base::{ExtDay, RefDay, read_day, write_day};
use og_time::{write_period, write_point};
use std::alloc::Global;

// Whether the number is one of a reference day and of an extended day as it is said.
fn is_so(number: i32, is_reference: bool, is_extended: bool) -> bool {
    RefDay::from_number(number).is_some() == is_reference
        && ExtDay::from_number(number).is_some() == is_extended
}

#[test]
fn the_calendar_has_its_days_and_an_infinity_at_each_end(rt: HostRuntime) {
    for (number, is_reference, is_extended) in &[
        (-4_371_589, false, false),
        (-4_371_588, false, true),
        (-4_371_587, true, true),
        (2_932_896, true, true),
        (2_932_897, false, true),
        (2_932_898, false, false),
    ] {
        assert!(rt; is_so(*number, *is_reference, *is_extended), "{number}");
    }
    let ends = [
        RefDay::FIRST.number(),
        RefDay::LAST.number(),
        ExtDay::NEG.number(),
        ExtDay::POS.number(),
    ];
    assert!(rt; ends == [-4_371_587, 2_932_896, -4_371_588, 2_932_897]);
}

// Whether the day is written as the text.
fn is_written(alloc: Global, day: ExtDay, text: &str) -> bool {
    let mut out = Vec::new(alloc);
    write_day(day, &mut out).is_ok() && is_text(out.as_slice(), text)
}

// Whether the text is read as the day with the number, and is written for it.
fn is_day_text(alloc: Global, text: &str, number: i32) -> bool {
    match read_day(text.as_bytes()) {
        Ok(day) => day.number() == number && is_written(alloc, day, text),
        Err(_) => false,
    }
}

#[test]
fn each_day_text_has_its_number_and_is_written_again(rt: HostRuntime) {
    for (text, number) in &[
        ("2020-02-29", 18_321),
        ("1970-01-01", 0),
        ("0001-01-01", -719_162),
        ("0000-02-29", -719_469),
        ("-009999-01-01", -4_371_587),
        ("9999-12-31", 2_932_896),
        ("-infinity", -4_371_588),
        ("infinity", 2_932_897),
    ] {
        assert!(rt; is_day_text(rt.alloc(), text, *number), "{text}");
    }
}

#[test]
fn no_other_text_is_a_day(rt: HostRuntime) {
    for text in &["2019-02-29", "-000001-02-29", "-000000-01-01", "now", ""] {
        assert!(rt; read_day(text.as_bytes()).is_err(), "{text}");
    }
}

#[test]
fn a_point_and_a_period_are_written_as_they_are_read(rt: HostRuntime) {
    let mut out = Vec::new(rt.alloc());
    assert!(rt; write_point(point(&rt, "now"), &mut out).is_ok());
    assert!(rt; write_period(period(&rt, "[now,infinity)"), &mut out).is_ok());
    assert!(rt; is_text(out.as_slice(), "now[now,infinity)"));
}
