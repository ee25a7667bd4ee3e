//! A list beside its height, a number that rises with it, so that most lists are put in order without a
//! look at their parts.
ghost use Rattle.std.specs.Prelude.{◌≡◌, ◌<◌, length, slice_get, Some};
ghost use Rattle.std.specs.Cmp.Lexicographic.{pointwise, slice_cmp, slice_partial_cmp, lists_per, lists_equiv, lists_po, lists_total, lists_agrees, lists_ties};
ghost use Rattle.og_value.specs.Heights.{IsListHeight};

use crate::height::Height;
use crate::listed::Listed;
use std::cmp::Ordering;
use std::fmt;
use std::marker::Model;

/// Parts of which each has a height, a number that rises with them.
pub(crate) trait HasHeight: Ord {
    ghost use Rattle.std.specs.Prelude.{ℕ};
    ghost use Rattle.std.specs.declared.cmp.Ordering.TheVariants.{Less};

    /// Whether the number is the height of the part.
    ghost is_height: { Self → ℕ → Type 0 };

    /// The height of the part.
    fn height(&self) -> u128
        ensures { is_height self.now result };

    /// A part with a lesser height than another comes first.
    ghost first: { (x y : Self) (m n : ℕ) → is_height x m → is_height y n → m < n → Self.cmp x y ≡ Less };
}

/// A list of parts with the height of the first one, seen as the list.
#[derive(Drop)]
pub(crate) struct Measured<T: HasHeight> {
    height: Height,
    parts: Listed<T>,
}

impl<T: HasHeight + fmt::Debug> fmt::Debug for Measured<T> {
    fn fmt<W: fmt::Write>(&self, f: &mut fmt::Formatter<W>) -> fmt::Result {
        self.parts.fmt(f)
    }
}

impl<T: HasHeight> Model for Measured<T> {
    ghost use Rattle.std.specs.Prelude.{List};
    ghost use Rattle.og_value.specs.Heights.{IsListHeight};

    ghost Value = { List T };

    ghost view = { λ f. f.parts };

    ghost invariant = { λ f. IsListHeight T.is_height f.parts f.height };
}

impl<T: HasHeight> Measured<T> {
    /// The same list.
    pub(crate) fn of(parts: Listed<T>) -> Measured<T>
        ensures { result ≡ parts }
    {
        Measured {
            height: Height::of(height_of(parts.as_slice())),
            parts,
        }
    }

    /// The number of parts.
    pub(crate) fn len(&self) -> usize
        ensures { result ≡ length self.now }
    {
        self.parts.len()
    }

    /// The part with that number, counted from 0.
    pub(crate) fn part(&self, i: usize) -> &T
        requires { i < length self.now }
        ensures { slice_get self.now i ≡ Some result.now }
    {
        self.parts.part(i)
    }
}

// The height of a list of the parts: that of the first one, and 0 where there is none.
fn height_of<T: HasHeight>(parts: &[T]) -> u128
    ensures { IsListHeight T.is_height parts.now result }
{
    match parts.first() {
        Some(part) => part.height(),
        None => 0,
    }
}

impl<T: HasHeight> PartialEq for Measured<T> {
    ghost eq = { pointwise T.eq };

    ghost laws = { lists_per T.PartialEq.laws };

    fn eq(&self, other: &Self) -> bool {
        self.parts == other.parts
    }
}

impl<T: HasHeight> Eq for Measured<T> {
    ghost laws = { lists_equiv T.Eq.laws };
}

impl<T: HasHeight> PartialOrd for Measured<T> {
    ghost partial_cmp = { slice_partial_cmp T.partial_cmp };

    ghost laws = { lists_po T.PartialOrd.laws };

    fn partial_cmp(&self, other: &Self) -> Option<Ordering> {
        Some(self.cmp(other))
    }
}

impl<T: HasHeight> Ord for Measured<T> {
    ghost cmp = { slice_cmp T.cmp };

    ghost total = { lists_total T.total };

    ghost matches_partial_cmp = { lists_agrees T.matches_partial_cmp };

    ghost matches_eq = { lists_ties T.cmp T.matches_eq };

    fn cmp(&self, other: &Self) -> Ordering {
        let (height, other_height) = (self.height.number(), other.height.number());
        if height < other_height {
            return Ordering::Less;
        }
        if other_height < height {
            return Ordering::Greater;
        }
        self.parts.cmp(&other.parts)
    }
}
