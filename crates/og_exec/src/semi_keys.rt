//! Rows that find those they meet by the columns which conditions say are equal.
ghost use Rattle.std.specs.Prelude.{◌≡◌};
ghost use Rattle.std.specs.List.{list_any};
ghost use Rattle.std.specs.Option.{is_some};
ghost use Rattle.og_exec.specs.SemiKeys as meant;

use crate::keys::place_in;
use og_base::{DayCond, Groups, NoMemory, RtSet};
use og_expr::PartDays;
use og_ops::Matching;
use og_plan::{ColPair, across};
use og_query::{Cond, Expr};
use og_rel::Rel;
use og_value::{Cmp, Row, Value};
use sqlite_items::Items;
use std::alloc::Global;

// Two rows for which all parts hold when they are glued. Where the left row has so many values, they
// find each other by the columns that parts say are equal.
#[derive(Drop)]
pub(crate) struct EqualColumns<'a> {
    pub(crate) parts: &'a Items<Cond>,
    pub(crate) width: usize,
}

impl Matching<Row> for EqualColumns<'_> {
    ghost use Rattle.std.specs.Prelude.{◌++◌};
    ghost use Rattle.og_plan.specs.Meaning.{all_hold};
    ghost use Rattle.og_exec.specs.SemiKeys.{left_group, right_group};
    ghost use Rattle.og_exec.specs.SemiLaws.{columns_keyed};

    ghost meets = { λ m d x y. all_hold d m.parts.now (x ++ y) };

    ghost sought = { λ m left. left_group m.width m.parts.now left };

    ghost standing = { λ m right. right_group m.width m.parts.now right };

    fn meeting_days(&self, alloc: Global, left: &Row, right: &Row) -> Result<RtSet, NoMemory> {
        PartDays { parts: self.parts }.days_of_pair(alloc, left, right)
    }

    fn may_meet(&self, left: &Row, right: &Row) -> bool {
        PartDays { parts: self.parts }.may_hold(left, right)
    }

    fn seek(&self, left: &Row) -> Option<Groups> {
        if left.len() == self.width && say_equal(self.width, self.parts) {
            Some(group(digest(true, self.width, self.parts, left)))
        } else {
            None
        }
    }

    fn groups(&self, right: &Row) -> Groups {
        group(digest(false, self.width, self.parts, right))
    }

    ghost keyed = { λ m left right g d day. columns_keyed d left right m.width m.parts.now g };
}

// The group with that number, twice.
fn group(number: u64) -> Groups
    ensures { result ≡ meant.group number }
{
    Groups {
        first: number,
        second: number,
    }
}

// Whether one of the parts says that two columns are equal.
fn say_equal(width: usize, parts: &Items<Cond>) -> bool
    ensures { result ≡ list_any (λ part. is_some (meant.pair_of width part)) parts.now }
{
    'parts: for part in parts.as_slice() {
        if pair_of(width, part).is_some() {
            return true;
        }
    }
    false
}

// The columns that a part says are equal, one of the left row, which has so many values, and one of
// the right.
fn pair_of(width: usize, part: &Cond) -> Option<ColPair>
    ensures { result ≡ meant.pair_of width part.now }
{
    match part {
        Cond::Compare {
            op: Cmp::Eq,
            left: Expr::Column(m),
            right: Expr::Column(n),
        } => across(width, Some(*m), Some(*n)),
        _ => None,
    }
}

// A number that is made of the values in the columns of a left row, or of a right one, that parts say
// are equal.
fn digest(left: bool, width: usize, parts: &Items<Cond>, row: &Row) -> u64
    ensures { result ≡ meant.digest left width parts.now row.now }
{
    let mut digest = 0;
    'parts: for part in parts.as_slice() {
        digest = mixed_pair(left, row, digest, pair_of(width, part));
    }
    digest
}

// The number with the value in the left column of the pair mixed in, or in the right one.
fn mixed_pair(left: bool, row: &Row, seed: u64, pair: Option<ColPair>) -> u64
    ensures { result ≡ meant.mixed_pair left row.now seed pair }
{
    match pair {
        Some(pair) => mixed_at(row, seed, place_in(left, &pair)),
        None => seed,
    }
}

// The number with the value at the place mixed in, which counts as 0 where there is none.
fn mixed_at(row: &Row, seed: u64, place: usize) -> u64
    ensures { result ≡ meant.mixed_at row.now seed place }
{
    if place < row.len() {
        row.value(place).loose_digest(seed)
    } else {
        Value::Int(0).loose_digest(seed)
    }
}

// How many values the first row has, 0 where there is none.
pub(crate) fn first_width(rel: &Rel<Row>) -> usize
    ensures { result ≡ meant.first_width rel.now }
{
    if rel.len() == 0 { 0 } else { rel.row(0).len() }
}
