//! Rows of a relation on the days on which they meet some row of another, or none.
ghost use Rattle.std.specs.Prelude.{◌≡◌, ◌++◌, ◌+◌, ◌≤◌, ◌&&◌, ◌||◌, ℕ, ℤ, Bool, true, false, List, [], ◌∷◌, IfOk, OnOk, filter, length};
ghost use Rattle.std.specs.List.{list_any};
ghost use Rattle.std.specs.List.Sorted.{IsPartitionedBy, IsPartitionPoint};
ghost use Rattle.std.specs.Ordering.{eq_by_cmp, is_lt, is_le, nat_cmp};
ghost use Rattle.og_base.specs.Calendar.{IsRefDay};
ghost use Rattle.og_base.specs.Ranges.{Range, holds_day};
ghost use Rattle.og_rel.specs.Relations.{present, relation_at};
ghost use Rattle.og_ops.specs.Lending.{lent, ByKey};
ghost use Rattle.og_ops.specs.Members.{AreMembers};
ghost use Rattle.og_ops.specs.Wanted.{is_wanted};

use crate::each_row::{EachRow, each_row, each_row_by_workers};
use crate::matching::Matching;
use crate::puts::put_row;
use crate::sift::wanted_days;
use og_base::{Glue, Groups, NoMemory, RtSet};
use og_par::{Crew, Gate};
use og_rel::Rel;
use std::alloc::Global;
use std::cmp::Ordering;
use std::marker::Model;
use std::thread::Threads;

// How many rows are gone over one after the other: for more the days of each half are found first.
const FEW: usize = 16;

/// A row of a relation, its days, and its key.
#[derive(Drop)]
pub struct KeyedRow<'a, R, K> {
    pub key: K,
    pub row: &'a R,
    pub days: &'a RtSet,
}

/// The rows of the left on the days on which they meet some row of the right, where `wanted`, and
/// otherwise on those on which they meet none. The right rows are put in the order of their groups, so
/// that a left row is tried with those alone that stand in a group which it seeks. Refused only for
/// want of memory.
pub fn semijoin<R: Glue + Drop, M: Matching<R>>(
    alloc: Global,
    matching: &M,
    wanted: bool,
    left: &Rel<R>,
    right: &Rel<R>,
) -> Result<Rel<R>, NoMemory>
    ensures law { IfOk result (λ r. (d : ℤ) → IsRefDay d → relation_at R.Fixed.cmp R.meaning r d
        ≡ filter (λ x. is_wanted wanted (list_any (M.meets matching.now d x) (relation_at R.Fixed.cmp R.meaning right.now d))) (relation_at R.Fixed.cmp R.meaning left.now d)) }
    ensures size { IfOk result (λ r. length r ≤ length left.now) }
{
    let others = by_group(alloc, matching, right)?;
    let meeting = Meeting::of(matching, wanted, others.as_slice());
    each_row(alloc, &meeting, left)
}

/// What `semijoin` gives, made by 1 to 64 workers, which share out the left rows. Refused only for want of
/// memory.
pub fn semijoin_by_workers<
    H: Threads + Sync,
    R: Glue + Drop + Sync + Send,
    M: Matching<R> + Sync,
    G: Gate + Sync,
>(
    crew: &Crew<'_, H, G>,
    matching: &M,
    wanted: bool,
    left: &Rel<R>,
    right: &Rel<R>,
) -> Result<Rel<R>, NoMemory>
where
    R::Fixed: Send,
    ensures law { IfOk result (λ r. (d : ℤ) → IsRefDay d → relation_at R.Fixed.cmp R.meaning r d
        ≡ filter (λ x. is_wanted wanted (list_any (M.meets matching.now d x) (relation_at R.Fixed.cmp R.meaning right.now d))) (relation_at R.Fixed.cmp R.meaning left.now d)) }
    ensures size { IfOk result (λ r. length r ≤ length left.now) }
{
    let others = by_group(crew.alloc(), matching, right)?;
    let meeting = Meeting::of(matching, wanted, others.as_slice());
    each_row_by_workers(crew, &meeting, left)
}

// A matching, the wanted truth, and right rows in the order of their groups.
#[derive(Drop)]
struct Meeting<'a, R: Glue + Drop, M: Matching<R>> {
    matching: &'a M,
    wanted: bool,
    others: &'a [KeyedRow<'a, R, u64>],
}

impl<'a, R: Glue + Drop, M: Matching<R>> Model for Meeting<'a, R, M> {
    ghost use Rattle.std.specs.Prelude.{Bool, List, ℕ};
    ghost use Rattle.std.specs.Ordering.{nat_cmp};
    ghost use Rattle.og_ops.specs.Lending.{lent, ByKey};
    ghost use Rattle.og_ops.specs.Members.{AreMembers};
    ghost use Rattle.og_ops.specs.declared.semijoins.KeyedRow.{KeyedRow};

    ghost Value = { M × Bool × List (KeyedRow R ℕ) };

    ghost view = { λ s. (s.matching.now, s.wanted, s.others.now) };

    ghost invariant = { λ s. ByKey nat_cmp s.others.now × AreMembers (M.standing s.matching.now) (lent s.others.now) s.others.now };
}

impl<'a, R: Glue + Drop, M: Matching<R>> Meeting<'a, R, M> {
    // Of right rows in the order of their groups.
    fn of(matching: &'a M, wanted: bool, others: &'a [KeyedRow<'a, R, u64>]) -> Meeting<'a, R, M>
        requires rising { ByKey nat_cmp others.now }
        requires groups { AreMembers (M.standing matching.now) (lent others.now) others.now }
        ensures { result ≡ (matching.now, wanted, others.now) }
    {
        Meeting {
            matching,
            wanted,
            others,
        }
    }
}

impl<'a, R: Glue + Drop, M: Matching<R>> EachRow<R> for Meeting<'a, R, M> {
    ghost use Rattle.std.specs.Prelude.{filter};
    ghost use Rattle.std.specs.List.{list_any};
    ghost use Rattle.std.proofs.lemmas.List.Elements.{filter-append};
    ghost use Rattle.og_rel.specs.Relations.{present};
    ghost use Rattle.og_ops.specs.Lending.{lent};
    ghost use Rattle.og_ops.specs.Wanted.{is_wanted};

    ghost becomes = { λ s d xs. filter (λ x. is_wanted s.1 (list_any (M.meets s.0 d x) (present R.meaning (lent s.2) d))) xs };

    ghost most_of_one = { λ s. 1 };

    fn put(&self, alloc: Global, row: &R, days: &RtSet, made: &mut Rel<R>) -> Result<(), NoMemory> {
        keep_row_that_meets(
            alloc,
            self.matching,
            self.wanted,
            row,
            days,
            self.others,
            made,
        )
    }

    ghost along = { λ s d xs ys. filter-append (λ x. is_wanted s.1 (list_any (M.meets s.0 d x) (present R.meaning (lent s.2) d))) xs ys };
}

// Adds the row on those of its days on which it meets some of the other rows, or none of them.
fn keep_row_that_meets<R: Glue + Drop, M: Matching<R>>(
    alloc: Global,
    matching: &M,
    wanted: bool,
    row: &R,
    days: &RtSet,
    others: &[KeyedRow<'_, R, u64>],
    kept: &mut Rel<R>,
) -> Result<(), NoMemory>
    requires rising { ByKey nat_cmp others.now }
    requires groups { AreMembers (M.standing matching.now) (lent others.now) others.now }
    ensures rows { OnOk result ((d : ℤ) → IsRefDay d → present R.meaning kept.new d
        ≡ present R.meaning kept.old d ++ filter (λ x. is_wanted wanted (list_any (M.meets matching.now d x) (present R.meaning (lent others.now) d))) (present R.meaning ((row.now, days.now) ∷ []) d)) }
    ensures size { OnOk result (length kept.new ≤ length kept.old + 1) }
{
    let met = sought_days(alloc, matching, row, others)?;
    let left = wanted_days(days, &met, wanted)?;
    put_row(alloc, row, left, kept)
}

// The days on which the left row meets one of the members, which is present. It is tried with those
// alone that stand in a group which it seeks.
fn sought_days<R: Glue, M: Matching<R>>(
    alloc: Global,
    matching: &M,
    left: &R,
    members: &[KeyedRow<'_, R, u64>],
) -> Result<RtSet, NoMemory>
    requires rising { ByKey nat_cmp members.now }
    requires groups { AreMembers (M.standing matching.now) (lent members.now) members.now }
    ensures { IfOk result (λ s. (d : ℤ) → IsRefDay d → holds_day s d
        ≡ list_any (M.meets matching.now d (R.meaning left.now d)) (present R.meaning (lent members.now) d)) }
{
    let Some(groups) = matching.seek(left) else {
        return met_days(alloc, matching, left, members);
    };
    let first = with_key(&groups.first, members);
    if groups.second == groups.first {
        return met_days(alloc, matching, left, first);
    }
    let found = met_days(alloc, matching, left, first)?;
    let others = met_days(alloc, matching, left, with_key(&groups.second, members))?;
    found.union(&others)
}

// The rows of the relation, once for each of their groups, in the order of the groups.
fn by_group<'a, R: Glue + Drop, M: Matching<R>>(
    alloc: Global,
    matching: &M,
    rel: &'a Rel<R>,
) -> Result<Vec<KeyedRow<'a, R, u64>>, NoMemory>
    ensures rising { IfOk result (λ v. ByKey nat_cmp v.items) }
    ensures groups { IfOk result (λ v. AreMembers (M.standing matching.now) (lent v.items) v.items) }
    ensures rows { IfOk result (λ v. (t : R.Fixed → Bool) (d : ℤ) →
        list_any t (present R.meaning (lent v.items) d) ≡ list_any t (present R.meaning rel.now d)) }
{
    let mut members = members_of(alloc, matching, rel)?;
    members.sort_by(
        |a: &KeyedRow<R, u64>, b: &KeyedRow<R, u64>| -> Ordering
            ensures { result ≡ nat_cmp a.now.key b.now.key }
        { a.key.cmp(&b.key) },
    )?;
    Ok(members)
}

// The rows of the relation, once for each of their groups, in the order of the relation.
fn members_of<'a, R: Glue + Drop, M: Matching<R>>(
    alloc: Global,
    matching: &M,
    rel: &'a Rel<R>,
) -> Result<Vec<KeyedRow<'a, R, u64>>, NoMemory>
    ensures { IfOk result (λ v. AreMembers (M.standing matching.now) rel.now v.items) }
{
    let mut members = Vec::with_capacity(alloc, rel.len())?;
    'rows: for i in 0..rel.len() {
        let row = rel.row(i);
        enter(matching.groups(row), row, rel.days(i), &mut members)?;
    }
    Ok(members)
}

// Adds the row once for each of the groups.
fn enter<'a, R>(
    groups: Groups,
    row: &'a R,
    days: &'a RtSet,
    members: &mut Vec<KeyedRow<'a, R, u64>>,
) -> Result<(), NoMemory>
    ensures { OnOk result ((test : ℕ → R × List Range → Bool) →
        list_any (λ s. test s.key (s.row.now, s.days.now)) members.new.items
        ≡ (list_any (λ s. test s.key (s.row.now, s.days.now)) members.old.items || (test groups.first (row.now, days.now) || test groups.second (row.now, days.now)))) }
{
    let key = groups.first;
    members.push(KeyedRow { key, row, days })?;
    if groups.second != groups.first {
        let key = groups.second;
        members.push(KeyedRow { key, row, days })?;
    }
    Ok(())
}

/// Those of the rows, which stand in the order of their keys, that have the key.
pub fn with_key<'s, 'a, R, K: Ord>(
    key: &K,
    rows: &'s [KeyedRow<'a, R, K>],
) -> &'s [KeyedRow<'a, R, K>]
    requires { ByKey K.cmp rows.now }
    ensures { result.now ≡ filter (λ other. eq_by_cmp K.cmp other.key key.now) rows.now }
{
    let first = rows.partition_point(
        |other: &KeyedRow<R, K>| -> bool
            ensures { result ≡ is_lt (K.cmp other.now.key key.entry.now) }
        { other.key < *key },
    );
    let rest = &rows[first..];
    &rest[..count_within(key, rest)]
}

// How many of the first rows have a key at most so high. It steps from row to row, since few rows
// have one key.
fn count_within<R, K: Ord>(key: &K, rows: &[KeyedRow<'_, R, K>]) -> usize
    requires { IsPartitionedBy (λ other. is_le (K.cmp other.key key.now)) rows.now }
    ensures bound { result ≤ length rows.now }
    ensures within { IsPartitionPoint (λ other. is_le (K.cmp other.key key.now) ≡ true) (λ other. is_le (K.cmp other.key key.now) ≡ false) rows.now result }
{
    'rows: for i in 0..rows.len() {
        if !is_within(key, &rows[i]) {
            return i;
        }
    }
    rows.len()
}

// Whether the row has a key at most so high.
fn is_within<R, K: Ord>(key: &K, row: &KeyedRow<'_, R, K>) -> bool
    ensures { result ≡ is_le (K.cmp row.now.key key.now) }
{
    row.key <= *key
}

// The days on which the left row meets one of the rows, which is present. The days of many rows are put together by
// halves, so that each range is gone over some log n times.
fn met_days<R: Glue, M: Matching<R>>(
    alloc: Global,
    matching: &M,
    left: &R,
    rows: &[KeyedRow<'_, R, u64>],
) -> Result<RtSet, NoMemory>
    ensures { IfOk result (λ s. (d : ℤ) → IsRefDay d → holds_day s d
        ≡ list_any (M.meets matching.now d (R.meaning left.now d)) (present R.meaning (lent rows.now) d)) }
{
    if rows.len() <= FEW {
        return met_in_turn(alloc, matching, left, rows);
    }
    let (first, second) = rows.split_at(rows.len() / 2);
    let found = met_days(alloc, matching, left, first)?;
    let others = met_days(alloc, matching, left, second)?;
    found.union(&others)
}

// The same of a few rows, one after the other.
fn met_in_turn<R: Glue, M: Matching<R>>(
    alloc: Global,
    matching: &M,
    left: &R,
    rows: &[KeyedRow<'_, R, u64>],
) -> Result<RtSet, NoMemory>
    ensures { IfOk result (λ s. (d : ℤ) → IsRefDay d → holds_day s d
        ≡ list_any (M.meets matching.now d (R.meaning left.now d)) (present R.meaning (lent rows.now) d)) }
{
    let mut found = RtSet::empty(alloc);
    'rows: for other in rows {
        found = more_days(alloc, matching, found, left, other.row, other.days)?;
    }
    Ok(found)
}

// The days found so far, and those on which the other row is present and the two meet.
fn more_days<R: Glue, M: Matching<R>>(
    alloc: Global,
    matching: &M,
    found: RtSet,
    left: &R,
    other: &R,
    days: &RtSet,
) -> Result<RtSet, NoMemory>
    ensures { IfOk result (λ s. (d : ℤ) → IsRefDay d → holds_day s d
        ≡ (holds_day found d || list_any (M.meets matching.now d (R.meaning left.now d)) (present R.meaning ((other.now, days.now) ∷ []) d))) }
{
    if !matching.may_meet(left, other) {
        return Ok(found);
    }
    let shared = shared_days(alloc, matching, left, other, days)?;
    if shared.is_empty() {
        return Ok(found);
    }
    found.union(&shared)
}

// Those of the days on which the two rows meet.
fn shared_days<R: Glue, M: Matching<R>>(
    alloc: Global,
    matching: &M,
    left: &R,
    other: &R,
    days: &RtSet,
) -> Result<RtSet, NoMemory>
    ensures { IfOk result (λ s. (d : ℤ) → IsRefDay d → holds_day s d
        ≡ (M.meets matching.now d (R.meaning left.now d) (R.meaning other.now d) && holds_day days.now d)) }
{
    let met = matching.meeting_days(alloc, left, other)?;
    met.meet(days)
}
