//! Conditions on a row of one relation and a row of another, and groups by which the rows that may meet
//! find each other.
ghost use Rattle.std.specs.Prelude.{◌≡◌, ℤ, Bool, true, false, Option, Some, IfOk};
ghost use Rattle.og_base.specs.Calendar.{IsRefDay};
ghost use Rattle.og_base.specs.Groups.{share_group};
ghost use Rattle.og_base.specs.Ranges.{holds_day};

use og_base::{DayCond, Glue, Grouped, Groups, Instant, NoMemory, RtSet};
use std::alloc::Global;

/// A condition on two rows of a day, one on the left and one on the right. A left row may seek groups,
/// and then meets only right rows that stand in one of them.
pub trait Matching<R: Instant> {
    ghost use Rattle.og_base.specs.declared.row.Groups.{Groups};

    /// Whether the rows of a day meet.
    ghost meets: { Self → ℤ → R.Fixed → R.Fixed → Bool };

    /// The groups that a left row seeks; None where it may meet rows of any group.
    ghost sought: { Self → R → Option Groups };

    /// The groups in which a right row stands.
    ghost standing: { Self → R → Groups };

    /// The days on which the two rows meet.
    fn meeting_days(&self, alloc: Global, left: &R, right: &R) -> Result<RtSet, NoMemory>
        ensures { IfOk result (λ s. (d : ℤ) → IsRefDay d →
            holds_day s d ≡ meets self.now d (R.meaning left.now d) (R.meaning right.now d)) };

    /// Whether the two rows may meet: where not, they meet on no day. Takes no memory.
    fn may_meet(&self, left: &R, right: &R) -> bool
        ensures { result ≡ false → (d : ℤ) → IsRefDay d →
            meets self.now d (R.meaning left.now d) (R.meaning right.now d) ≡ false };

    /// The groups that the left row seeks; None where it may meet rows of any group. Takes no memory.
    fn seek(&self, left: &R) -> Option<Groups>
        ensures { result ≡ sought self.now left.now };

    /// The groups in which the right row stands. Takes no memory.
    fn groups(&self, right: &R) -> Groups
        ensures { result ≡ standing self.now right.now };

    /// A right row that meets a left row stands in one of the groups which that row seeks.
    ghost keyed: { (m : Self) (left right : R) (g : Groups) (d : ℤ) → IsRefDay d → sought m left ≡ Some g →
        meets m d (R.meaning left d) (R.meaning right d) ≡ true → share_group g (standing m right) ≡ true };
}

/// Two rows that are equal. They find each other by their groups.
#[derive(Clone, Copy, Debug)]
pub struct Equality;

impl<R: Grouped> Matching<R> for Equality {
    ghost use Rattle.std.specs.Prelude.{Some};
    ghost use Rattle.std.specs.Ordering.{eq_by_cmp};
    ghost use Rattle.og_ops.specs.Keyed.{equal_keyed};

    ghost meets = { λ m d x y. eq_by_cmp R.Fixed.cmp x y };

    ghost sought = { λ m left. Some (R.seeking left) };

    ghost standing = { λ m right. R.standing right };

    fn meeting_days(&self, alloc: Global, left: &R, right: &R) -> Result<RtSet, NoMemory> {
        left.same(alloc, right)
    }

    fn may_meet(&self, left: &R, right: &R) -> bool {
        let _ = left;
        let _ = right;
        true
    }

    fn seek(&self, left: &R) -> Option<Groups> {
        Some(left.seeks_in())
    }

    fn groups(&self, right: &R) -> Groups {
        right.stands_in()
    }

    ghost keyed = { λ m left right g d day. equal_keyed R.exact (R.meaning left d) (R.meaning right d) (R.seeking left) (R.standing right) g (R.grouped left right d day) };
}

/// Two rows of which a condition holds when they are glued. No groups are known.
#[derive(Drop)]
pub struct Glued<'a, C> {
    pub cond: &'a C,
}

impl<'a, R: Glue + Drop, C: DayCond<R>> Matching<R> for Glued<'a, C> {
    ghost use Rattle.std.specs.Prelude.{None};
    ghost use Rattle.og_ops.specs.Keyed.{none_keyed};

    ghost meets = { λ m d x y. C.holds m.cond.now d (R.glued x y) };

    ghost sought = { λ m left. None };

    ghost standing = { λ m right. record { first = 0; second = 0 } };

    fn meeting_days(&self, alloc: Global, left: &R, right: &R) -> Result<RtSet, NoMemory> {
        self.cond.days_of_pair(alloc, left, right)
    }

    fn may_meet(&self, left: &R, right: &R) -> bool {
        self.cond.may_hold(left, right)
    }

    fn seek(&self, left: &R) -> Option<Groups> {
        let _ = left;
        None
    }

    fn groups(&self, right: &R) -> Groups {
        let _ = right;
        Groups {
            first: 0,
            second: 0,
        }
    }

    ghost keyed = { λ m left right g d day none met. none_keyed g none };
}
