//! What is made of two rows, on the days on which both are present.
ghost use Rattle.std.specs.Prelude.{◌≡◌, ◌&&◌, ℤ, Bool, false, IfOk, IfSome, IsNone};
ghost use Rattle.og_base.specs.Calendar.{IsRefDay};
ghost use Rattle.og_base.specs.Ranges.{holds_day};
ghost use Rattle.og_ops.specs.Days.{is_hit, OnSomeDay, OnNoDay};

use og_base::{DayCond, Glue, NoMemory, RtSet};
/// A row that was made of two, and its days.
pub use og_rel::Pair as Hit;
use std::alloc::Global;

/// A map of two rows to the one that is made of them.
pub trait PairMap<R: Glue> {
    /// What the two rows of a day, glued, are mapped to.
    ghost image: { Self → ℤ → R.Fixed → R.Fixed };

    /// The row that is, on each day, the image of the two rows of that day glued.
    fn map_pair(&self, alloc: Global, left: &R, right: &R) -> Result<R, NoMemory>
        ensures { IfOk result (λ r. (d : ℤ) → IsRefDay d →
            R.meaning r d ≡ image self.now d (R.glued (R.meaning left.now d) (R.meaning right.now d))) };
}

/// The two rows glued, as they are.
#[derive(Drop)]
pub struct Whole;

impl<R: Glue> PairMap<R> for Whole {
    ghost image = { λ whole d row. row };

    fn map_pair(&self, alloc: Global, left: &R, right: &R) -> Result<R, NoMemory> {
        left.glue(alloc, right)
    }
}

/// The glued row on the days on which both rows are present and the condition holds of it; None
/// where there is no such day. Refused only for want of memory.
pub fn test_pair<R: Glue + Drop, C: DayCond<R>>(
    alloc: Global,
    left: &R,
    left_days: &RtSet,
    right: &R,
    right_days: &RtSet,
    cond: &C,
) -> Result<Option<Hit<R>>, NoMemory>
    ensures row { IfOk result (λ o. IfSome o (λ h. (d : ℤ) → IsRefDay d →
        R.meaning h.row d ≡ R.glued (R.meaning left.now d) (R.meaning right.now d))) }
    ensures days { IfOk result (λ o. IfSome o (λ h. (d : ℤ) → IsRefDay d →
        holds_day h.days d ≡ is_hit R.glued (C.holds cond.now) (R.meaning left.now) (R.meaning right.now) left_days.now right_days.now d)) }
    ensures some_day { IfOk result (λ o. IfSome o (λ h.
        OnSomeDay (is_hit R.glued (C.holds cond.now) (R.meaning left.now) (R.meaning right.now) left_days.now right_days.now))) }
    ensures no_day { IfOk result (λ o. IsNone o →
        OnNoDay (is_hit R.glued (C.holds cond.now) (R.meaning left.now) (R.meaning right.now) left_days.now right_days.now)) }
{
    test_pair_with(alloc, left, left_days, right, right_days, cond, &Whole)
}

/// What is made of the two rows, on the days on which both are present and the condition holds of them
/// glued; None where there is no such day. Refused only for want of memory.
pub fn test_pair_with<R: Glue + Drop, C: DayCond<R>, M: PairMap<R>>(
    alloc: Global,
    left: &R,
    left_days: &RtSet,
    right: &R,
    right_days: &RtSet,
    cond: &C,
    pair_map: &M,
) -> Result<Option<Hit<R>>, NoMemory>
    ensures row { IfOk result (λ o. IfSome o (λ h. (d : ℤ) → IsRefDay d →
        R.meaning h.row d ≡ M.image pair_map.now d (R.glued (R.meaning left.now d) (R.meaning right.now d)))) }
    ensures days { IfOk result (λ o. IfSome o (λ h. (d : ℤ) → IsRefDay d →
        holds_day h.days d ≡ is_hit R.glued (C.holds cond.now) (R.meaning left.now) (R.meaning right.now) left_days.now right_days.now d)) }
    ensures some_day { IfOk result (λ o. IfSome o (λ h.
        OnSomeDay (is_hit R.glued (C.holds cond.now) (R.meaning left.now) (R.meaning right.now) left_days.now right_days.now))) }
    ensures no_day { IfOk result (λ o. IsNone o →
        OnNoDay (is_hit R.glued (C.holds cond.now) (R.meaning left.now) (R.meaning right.now) left_days.now right_days.now)) }
{
    // This test takes no memory and refuses most pairs.
    if !cond.may_hold(left, right) {
        return Ok(None);
    }
    let days = days_of_hit(alloc, left, left_days, right, right_days, cond)?;
    days.normal();
    if days.is_empty() {
        return Ok(None);
    }
    let row = pair_map.map_pair(alloc, left, right)?;
    Ok(Some(Hit { row, days }))
}

// The days on which both rows are present and the condition holds of them glued.
fn days_of_hit<R: Glue + Drop, C: DayCond<R>>(
    alloc: Global,
    left: &R,
    left_days: &RtSet,
    right: &R,
    right_days: &RtSet,
    cond: &C,
) -> Result<RtSet, NoMemory>
    ensures { IfOk result (λ days. (d : ℤ) → IsRefDay d →
        holds_day days d ≡ is_hit R.glued (C.holds cond.now) (R.meaning left.now) (R.meaning right.now) left_days.now right_days.now d) }
{
    let both = left_days.meet(right_days)?;
    if both.is_empty() {
        return Ok(both);
    }
    let met = cond.days_of_pair(alloc, left, right)?;
    both.meet(&met)
}

// The glued row on the days on which both rows are present; None where there is no such day.
pub(crate) fn glued_pair<R: Glue + Drop>(
    alloc: Global,
    left: &R,
    left_days: &RtSet,
    right: &R,
    right_days: &RtSet,
) -> Result<Option<Hit<R>>, NoMemory>
    ensures row { IfOk result (λ o. IfSome o (λ h. (d : ℤ) → IsRefDay d →
        R.meaning h.row d ≡ R.glued (R.meaning left.now d) (R.meaning right.now d))) }
    ensures days { IfOk result (λ o. IfSome o (λ h. (d : ℤ) →
        holds_day h.days d ≡ (holds_day left_days.now d && holds_day right_days.now d))) }
    ensures no_day { IfOk result (λ o. IsNone o → (d : ℤ) → (holds_day left_days.now d && holds_day right_days.now d) ≡ false) }
{
    let days = left_days.meet(right_days)?;
    if days.is_empty() {
        return Ok(None);
    }
    let row = left.glue(alloc, right)?;
    Ok(Some(Hit { row, days }))
}
