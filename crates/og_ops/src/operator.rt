//! Operators.
ghost use Rattle.std.specs.Prelude.{◌≡◌, ◌≤◌, ℕ, ℤ, List, IfOk, length};
ghost use Rattle.og_base.specs.Calendar.{IsRefDay};
ghost use Rattle.og_rel.specs.Relations.{passing, relation_at};

use og_base::{Glue, NoMemory};
use og_rel::{Rel, RowTest};
use std::alloc::Global;

/// An operator on a relation.
pub trait UnaryOp<R: Glue> {
    /// What it is on one day, on the set of the rows of that day.
    ghost plain: { Self → ℤ → List R.Fixed → List R.Fixed };

    /// How many rows it gives at most, of so many.
    ghost most: { Self → ℕ → ℕ };

    /// The relation that is, on each day, the plain operator on the rows of that day. Refused only
    /// for want of memory.
    fn apply(&self, alloc: Global, rel: &Rel<R>) -> Result<Rel<R>, NoMemory>
        ensures law { IfOk result (λ r. (d : ℤ) → IsRefDay d →
            relation_at R.Fixed.cmp R.meaning r d ≡ plain self.now d (relation_at R.Fixed.cmp R.meaning rel.now d)) }
        ensures size { IfOk result (λ r. length r ≤ most self.now (length rel.now)) };

    /// What `apply` gives of the rows alone that pass the test, of which none is copied before. Refused only for
    /// want of memory.
    fn apply_passing<T: RowTest<R>>(
        &self,
        alloc: Global,
        rel: &Rel<R>,
        test: &T,
    ) -> Result<Rel<R>, NoMemory>
        ensures law { IfOk result (λ r. (d : ℤ) → IsRefDay d →
            relation_at R.Fixed.cmp R.meaning r d ≡ plain self.now d (relation_at R.Fixed.cmp R.meaning (passing (T.passes test.now) rel.now) d)) }
        ensures size { IfOk result (λ r. length r ≤ most self.now (length (passing (T.passes test.now) rel.now))) };
}

/// An operator on two relations.
pub trait BinaryOp<R: Glue> {
    /// What it is on one day, on the two sets of the rows of that day.
    ghost plain: { Self → ℤ → List R.Fixed → List R.Fixed → List R.Fixed };

    /// How many rows it gives at most, of so many on the left and so many on the right.
    ghost most: { Self → ℕ → ℕ → ℕ };

    /// The relation that is, on each day, the plain operator on the rows of that day. Refused only
    /// for want of memory.
    fn apply(&self, alloc: Global, left: &Rel<R>, right: &Rel<R>) -> Result<Rel<R>, NoMemory>
        ensures law { IfOk result (λ r. (d : ℤ) → IsRefDay d →
            relation_at R.Fixed.cmp R.meaning r d
            ≡ plain self.now d (relation_at R.Fixed.cmp R.meaning left.now d) (relation_at R.Fixed.cmp R.meaning right.now d)) }
        ensures size { IfOk result (λ r. length r ≤ most self.now (length left.now) (length right.now)) };
}
