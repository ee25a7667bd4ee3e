//! Sets of reference days.
ghost use Rattle.std.specs.Prelude.{◌≡◌, ℤ, Bool, true, false, not, ◌&&◌, ◌||◌, ◌↔◌, ◌<◌, int_lt, int_le, List, [], ◌∷◌, length, slice_get, slice_index_or, Some, IfOk, IfSome, IsTrue};
ghost use Rattle.og_base.specs.Calendar.{IsRefDay, first_day, before_all, after_all};
ghost use Rattle.og_base.specs.Ranges.{IsNormal, in_range, holds_day, ranges_of_cut};
ghost use Rattle.og_base.specs.Boundaries.{ranges_of, Rises};
ghost use Rattle.og_base.specs.SetOps.{op_holds};

mod boundaries;
mod cuts;
mod span;
mod sweep;

use crate::day::{ExtDay, RefDay};
use crate::memory::NoMemory;
use crate::range::{Cut, DayRange};
use boundaries::Few;
pub(crate) use boundaries::{Boundaries, Room};
use cuts::cut_boundaries;
use span::Span;
use std::alloc::Global;
use std::marker::Model;
use sweep::{Op, are_disjoint, combine, meet_four};

/// A set of reference days, seen as its ranges: they rise and do not touch. At most two ranges take no memory of
/// their own.
#[derive(Drop)]
pub struct RtSet {
    alloc: Global,
    boundaries: Boundaries,
}

impl Model for RtSet {
    ghost use Rattle.std.specs.Prelude.{List};
    ghost use Rattle.og_base.specs.Calendar.{before_all};
    ghost use Rattle.og_base.specs.Ranges.{Range};
    ghost use Rattle.og_base.specs.Boundaries.{ranges_of, Rises};

    ghost Value = { List Range };

    ghost view = { λ s. ranges_of s.boundaries };

    ghost invariant = { λ s. Rises before_all s.boundaries };
}

impl RtSet {
    /// The set without days. Takes no memory.
    pub fn empty(alloc: Global) -> RtSet
        ensures { result ≡ [] }
    {
        RtSet::of_boundaries(alloc, Boundaries::none())
    }

    /// The set of all reference days.
    pub fn all(alloc: Global) -> Result<RtSet, NoMemory>
        ensures { IfOk result (λ s. s ≡ record { lo = first_day; hi = after_all } ∷ []) }
    {
        let all = Boundaries::of(Few::one(RefDay::FIRST));
        Ok(RtSet::of_boundaries(alloc, all))
    }

    /// The days before `p`.
    pub fn below(alloc: Global, p: ExtDay) -> Result<RtSet, NoMemory>
        ensures { IfOk result (λ s. (d : ℤ) → IsRefDay d → holds_day s d ≡ int_lt d p) }
    {
        let days = Span {
            lo: RefDay::FIRST,
            hi: p,
        };
        Ok(RtSet::of_span(alloc, days))
    }

    /// The days after `p`.
    pub fn above(alloc: Global, p: ExtDay) -> Result<RtSet, NoMemory>
        ensures { IfOk result (λ s. (d : ℤ) → IsRefDay d → holds_day s d ≡ int_lt p d) }
    {
        match RefDay::from_number(p.number() + 1) {
            Some(next) => {
                let days = Span {
                    lo: next,
                    hi: ExtDay::POS,
                };
                Ok(RtSet::of_span(alloc, days))
            }
            None => Ok(RtSet::empty(alloc)),
        }
    }

    // The days of the span.
    fn of_span(alloc: Global, span: Span) -> RtSet
        ensures { (d : ℤ) → holds_day result d ≡ in_range span d }
    {
        if span.hi.number() <= span.lo.number() {
            return RtSet::empty(alloc);
        }
        let few = match span.hi.as_ref_day() {
            Some(end) => Few::two(span.lo, end),
            None => Few::one(span.lo),
        };
        RtSet::of_boundaries(alloc, Boundaries::of(few))
    }

    /// The days of a cut.
    pub fn of_cut(alloc: Global, c: &Cut) -> Result<RtSet, NoMemory>
        ensures { IfOk result (λ s. s ≡ ranges_of_cut c.now) }
    {
        let few = cut_boundaries(c);
        Ok(RtSet::of_boundaries(alloc, Boundaries::of(few)))
    }

    // The set with those boundaries.
    pub(crate) fn of_boundaries(alloc: Global, boundaries: Boundaries) -> RtSet
        requires { Rises before_all boundaries }
        ensures { result ≡ ranges_of boundaries }
    {
        RtSet { alloc, boundaries }
    }

    /// The same set, on its own memory.
    pub fn copy(&self) -> Result<RtSet, NoMemory>
        ensures { IfOk result (λ s. s ≡ self.now) }
    {
        let boundaries = self.boundaries.copy(self.alloc)?;
        Ok(RtSet {
            alloc: self.alloc,
            boundaries,
        })
    }

    // The set that the operation makes of two sets, given by their boundaries.
    fn combined(alloc: Global, op: Op, left: &[RefDay], right: &[RefDay]) -> Result<RtSet, NoMemory>
        requires left_rises { Rises before_all left.now }
        requires right_rises { Rises before_all right.now }
        ensures { IfOk result (λ s. (d : ℤ) →
            holds_day s d ≡ op_holds op (holds_day (ranges_of left.now) d) (holds_day (ranges_of right.now) d)) }
    {
        let boundaries = combine(alloc, op, left, right)?;
        Ok(RtSet { alloc, boundaries })
    }

    /// The days that at least one of the two sets holds.
    pub fn union(&self, other: &RtSet) -> Result<RtSet, NoMemory>
        ensures { IfOk result (λ s. (d : ℤ) → holds_day s d ≡ (holds_day self.now d || holds_day other.now d)) }
    {
        let (left, right) = (self.boundaries.as_slice(), other.boundaries.as_slice());
        RtSet::combined(self.alloc, Op::Union, left, right)
    }

    /// The days that both sets hold.
    pub fn meet(&self, other: &RtSet) -> Result<RtSet, NoMemory>
        ensures { IfOk result (λ s. (d : ℤ) → holds_day s d ≡ (holds_day self.now d && holds_day other.now d)) }
    {
        let (left, right) = (self.boundaries.as_slice(), other.boundaries.as_slice());
        match (Span::of(left), Span::of(right)) {
            (Some(mine), Some(theirs)) => Ok(RtSet::of_span(self.alloc, mine.meet(theirs))),
            (Some(mine), None) if mine.is_all() => other.copy(),
            (None, Some(theirs)) if theirs.is_all() => self.copy(),
            _ => RtSet::combined(self.alloc, Op::Meet, left, right),
        }
    }

    /// The days of this set that the other does not hold.
    pub fn minus(&self, other: &RtSet) -> Result<RtSet, NoMemory>
        ensures { IfOk result (λ s. (d : ℤ) → holds_day s d ≡ (holds_day self.now d && not (holds_day other.now d))) }
    {
        let (left, right) = (self.boundaries.as_slice(), other.boundaries.as_slice());
        RtSet::combined(self.alloc, Op::Minus, left, right)
    }

    /// The reference days that the set does not hold.
    pub fn complement(&self) -> Result<RtSet, NoMemory>
        ensures { IfOk result (λ s. (d : ℤ) → IsRefDay d → holds_day s d ≡ not (holds_day self.now d)) }
    {
        let whole = Few::one(RefDay::FIRST);
        RtSet::combined(
            self.alloc,
            Op::Minus,
            whole.as_slice(),
            self.boundaries.as_slice(),
        )
    }

    /// Each set of days is in the one normal form.
    pub fn normal(&self)
        ensures { IsNormal self.now }
    {
        let _ = &self.boundaries;
    }

    /// Two sets that hold the same days are equal.
    pub fn same_days(&self, other: &RtSet)
        ensures { ((d : ℤ) → IsRefDay d → holds_day self.now d ≡ holds_day other.now d) → self.now ≡ other.now }
    {
        let _ = &self.boundaries;
        let _ = &other.boundaries;
    }

    /// Whether the set holds no day.
    pub fn is_empty(&self) -> bool
        ensures days { IsTrue result ↔ ((d : ℤ) → holds_day self.now d ≡ false) }
        ensures ranges { IsTrue result ↔ (self.now ≡ []) }
    {
        self.boundaries.as_slice().is_empty()
    }

    /// Whether the two sets have no day in common. Takes no memory.
    pub fn is_disjoint(&self, other: &RtSet) -> bool
        ensures { IsTrue result ↔ ((d : ℤ) → (holds_day self.now d && holds_day other.now d) ≡ false) }
    {
        are_disjoint(self.boundaries.as_slice(), other.boundaries.as_slice())
    }

    /// How many ranges the set has.
    pub fn range_count(&self) -> usize
        ensures { result ≡ length self.now }
    {
        self.boundaries.as_slice().len().div_ceil(2)
    }

    /// The range at that place.
    pub fn range(&self, i: usize) -> DayRange
        requires { i < length self.now }
        ensures { slice_get self.now i ≡ Some result }
    {
        let boundaries = self.boundaries.as_slice();
        let lo = boundaries[2 * i];
        let hi = end_at(boundaries, 2 * i + 1);
        DayRange { lo, hi }
    }

    /// Whether the set holds the day.
    pub fn contains(&self, d: RefDay) -> bool
        ensures { result ≡ holds_day self.now d }
    {
        let day = d.number();
        let before = self.boundaries.as_slice().partition_point(
            |b: &RefDay| -> bool
                ensures { result ≡ int_le b.now day }
            { b.number() <= day },
        );
        before % 2 == 1
    }
}

/// The set of the days that all four cuts hold.
pub fn meet_cuts(
    alloc: Global,
    first: Cut,
    second: Cut,
    third: Cut,
    fourth: Cut,
) -> Result<RtSet, NoMemory>
    ensures { IfOk result (λ s. (d : ℤ) → holds_day s d ≡ (holds_day (ranges_of_cut first) d
        && holds_day (ranges_of_cut second) d && holds_day (ranges_of_cut third) d && holds_day (ranges_of_cut fourth) d)) }
{
    if let Some(span) = span_of_four(&first, &second, &third, &fourth) {
        return Ok(RtSet::of_span(alloc, span));
    }
    let a = cut_boundaries(&first);
    let b = cut_boundaries(&second);
    let c = cut_boundaries(&third);
    let d = cut_boundaries(&fourth);
    let boundaries = meet_four(
        alloc,
        a.as_slice(),
        b.as_slice(),
        c.as_slice(),
        d.as_slice(),
    )?;
    Ok(RtSet { alloc, boundaries })
}

// The days that all four cuts hold, where each has at most one range.
fn span_of_four(first: &Cut, second: &Cut, third: &Cut, fourth: &Cut) -> Option<Span>
    ensures { IfSome result (λ s. (d : ℤ) → in_range s d ≡ (holds_day (ranges_of_cut first.now) d
        && holds_day (ranges_of_cut second.now) d && holds_day (ranges_of_cut third.now) d && holds_day (ranges_of_cut fourth.now) d)) }
{
    let a = Span::of_cut(first)?;
    let b = Span::of_cut(second)?;
    let c = Span::of_cut(third)?;
    let d = Span::of_cut(fourth)?;
    Some(a.meet(b).meet(c).meet(d))
}

// The boundary at that place, or infinity past the last one.
fn end_at(boundaries: &[RefDay], i: usize) -> ExtDay
    ensures { result ≡ slice_index_or boundaries.now i after_all }
{
    match boundaries.get(i) {
        Some(day) => ExtDay::of(*day),
        None => ExtDay::POS,
    }
}
