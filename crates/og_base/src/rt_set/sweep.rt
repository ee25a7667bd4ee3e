//! One pass over the boundaries of sets.
ghost use Rattle.std.specs.Prelude.{◌≡◌, ◌↔◌, ◌&&◌, ℤ, IsTrue, false, Bool, [], ◌∷◌, IfOk, IfNone, IfSome, OnOk};
ghost use Rattle.og_base.specs.Calendar.{before_all};
ghost use Rattle.og_base.specs.Ranges.{holds_day};
ghost use Rattle.og_base.specs.Boundaries.{ranges_of, Rises, inside_from, rest_after, inside_after, turned, IsNext, EachEnded};
ghost use Rattle.og_base.specs.SetOps.{op_holds};

use super::boundaries::{Boundaries, Room};
use crate::day::RefDay;
use crate::memory::NoMemory;
use std::alloc::Global;

/// An operation on two sets.
#[derive(Clone, Copy)]
pub enum Op {
    Union,
    Meet,
    Minus,
}

impl Op {
    // Whether the result holds a day, from whether the two sets hold it.
    fn holds(self, left: bool, right: bool) -> bool
        ensures { result ≡ op_holds self left right }
    {
        match self {
            Op::Union => left || right,
            Op::Meet => left && right,
            Op::Minus => left && !right,
        }
    }
}

// The boundaries of a set that are left, and whether the days before the first of them are inside.
#[derive(Clone, Copy)]
struct Side<'a> {
    rest: &'a [RefDay],
    inside: bool,
}

impl<'a> Side<'a> {
    // A set, before its first boundary.
    fn of(boundaries: &'a [RefDay]) -> Side<'a>
        ensures rest { result.rest.now ≡ boundaries.now }
        ensures inside { result.inside ≡ false }
    {
        Side {
            rest: boundaries,
            inside: false,
        }
    }

    // The side from a day on, which is at most its first boundary.
    fn pass(self, day: RefDay) -> Side<'a>
        ensures rest { result.rest.now ≡ rest_after day self.entry.rest.now }
        ensures inside { result.inside ≡ inside_after day self.entry.inside self.entry.rest.now }
    {
        let Some((first, rest)) = self.rest.split_first() else {
            return self;
        };
        if *first != day {
            return self;
        }
        Side {
            rest,
            inside: !self.inside,
        }
    }
}

/// The boundaries of what the operation makes of two sets, by one pass over the boundaries of both.
pub fn combine(
    alloc: Global,
    op: Op,
    left: &[RefDay],
    right: &[RefDay],
) -> Result<Boundaries, NoMemory>
    requires left_rises { Rises before_all left.now }
    requires right_rises { Rises before_all right.now }
    ensures rises { IfOk result (λ b. Rises before_all b) }
    ensures holds { IfOk result (λ b. (d : ℤ) →
        inside_from false b d ≡ op_holds op (inside_from false left.now d) (inside_from false right.now d)) }
{
    let mut left = Side::of(left);
    let mut right = Side::of(right);
    let mut inside = false;
    let room = Room {
        alloc,
        days: left.rest.len().saturating_add(right.rest.len()),
    };
    let mut boundaries = Boundaries::none();
    'pass: while let Some(day) = next_of(left.rest, right.rest) {
        left = left.pass(day);
        right = right.pass(day);
        let now = op.holds(left.inside, right.inside);
        turn(&mut boundaries, room, inside, now, day)?;
        inside = now;
    }
    boundaries.give_back();
    Ok(boundaries)
}

/// Whether two sets have no day in common, by one pass over the boundaries of both.
pub fn are_disjoint(left: &[RefDay], right: &[RefDay]) -> bool
    requires left_rises { Rises before_all left.now }
    requires right_rises { Rises before_all right.now }
    ensures { IsTrue result ↔ ((d : ℤ) →
        (holds_day (ranges_of left.now) d && holds_day (ranges_of right.now) d) ≡ false) }
{
    let mut left = Side::of(left);
    let mut right = Side::of(right);
    'pass: while let Some(day) = next_of(left.rest, right.rest) {
        left = left.pass(day);
        right = right.pass(day);
        if Op::Meet.holds(left.inside, right.inside) {
            return false;
        }
    }
    true
}

/// The boundaries of the days that all four sets hold, by one pass over the boundaries of all.
pub fn meet_four(
    alloc: Global,
    first: &[RefDay],
    second: &[RefDay],
    third: &[RefDay],
    fourth: &[RefDay],
) -> Result<Boundaries, NoMemory>
    requires first_rises { Rises before_all first.now }
    requires second_rises { Rises before_all second.now }
    requires third_rises { Rises before_all third.now }
    requires fourth_rises { Rises before_all fourth.now }
    ensures rises { IfOk result (λ b. Rises before_all b) }
    ensures holds { IfOk result (λ b. (d : ℤ) → inside_from false b d
        ≡ (inside_from false first.now d && inside_from false second.now d && inside_from false third.now d && inside_from false fourth.now d)) }
{
    let mut a = Side::of(first);
    let mut b = Side::of(second);
    let mut c = Side::of(third);
    let mut d = Side::of(fourth);
    let mut inside = false;
    let room = Room {
        alloc,
        days: first
            .len()
            .saturating_add(second.len())
            .saturating_add(third.len())
            .saturating_add(fourth.len()),
    };
    let mut boundaries = Boundaries::none();
    'pass: while let Some(day) = next_of_four(a.rest, b.rest, c.rest, d.rest) {
        a = a.pass(day);
        b = b.pass(day);
        c = c.pass(day);
        d = d.pass(day);
        let now = all_four(a.inside, b.inside, c.inside, d.inside);
        turn(&mut boundaries, room, inside, now, day)?;
        inside = now;
    }
    boundaries.give_back();
    Ok(boundaries)
}

// Whether all four are so.
fn all_four(first: bool, second: bool, third: bool, fourth: bool) -> bool
    ensures { result ≡ (first && second && third && fourth) }
{
    first && second && third && fourth
}

// The least boundary that is left, or none at the end of both.
fn next_of(left: &[RefDay], right: &[RefDay]) -> Option<RefDay>
    ensures ended { IfNone result (EachEnded (left.now ∷ right.now ∷ [])) }
    ensures next { IfSome result (λ day. IsNext day (left.now ∷ right.now ∷ [])) }
{
    let Some(first) = left.first() else {
        return right.first().copied();
    };
    let Some(other) = right.first() else {
        return Some(*first);
    };
    if *other < *first {
        Some(*other)
    } else {
        Some(*first)
    }
}

// The same of four sets.
fn next_of_four(
    first: &[RefDay],
    second: &[RefDay],
    third: &[RefDay],
    fourth: &[RefDay],
) -> Option<RefDay>
    ensures ended { IfNone result (EachEnded (first.now ∷ second.now ∷ third.now ∷ fourth.now ∷ [])) }
    ensures next { IfSome result (λ day. IsNext day (first.now ∷ second.now ∷ third.now ∷ fourth.now ∷ [])) }
{
    let Some(one) = next_of(first, second) else {
        return next_of(third, fourth);
    };
    let Some(other) = next_of(third, fourth) else {
        return Some(one);
    };
    if other < one { Some(other) } else { Some(one) }
}

// Adds the day as a boundary, where what is inside changes at it.
fn turn(
    boundaries: &mut Boundaries,
    room: Room,
    was: bool,
    now: bool,
    day: RefDay,
) -> Result<(), NoMemory>
    ensures { OnOk result (boundaries.new ≡ turned was now day boundaries.old) }
{
    if was != now {
        boundaries.push(room, day)?;
    }
    Ok(())
}
