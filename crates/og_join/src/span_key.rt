//! Keys of rows with the spans of the rows.
ghost use Rattle.std.specs.Prelude.{◌≡◌, ◌↔◌, true};
ghost use Rattle.std.proofs.Common.{rules};
ghost use Rattle.std.specs.Cmp.Rules.{comparing};
ghost use Rattle.std.specs.Ordering.{on};
ghost use Rattle.og_join.specs.Joined.{DoOverlap};

use og_base::FixedPeriod;
use std::cmp::Ordering;

// The key of a row, and the span of the row. They are in the order of the keys alone.
#[derive(Drop)]
pub(crate) struct SpanKey<K> {
    pub(crate) key: K,
    pub(crate) span: FixedPeriod,
}

impl<K: PartialEq> PartialEq for SpanKey<K> {
    ghost eq = { on (λ s. s.key) K.eq };

    ghost laws = { Prim.search (comparing, rules) };

    fn eq(&self, other: &Self) -> bool {
        self.key == other.key
    }
}

impl<K: Eq> Eq for SpanKey<K> {
    ghost laws = { Prim.search (comparing, rules) };
}

impl<K: PartialOrd> PartialOrd for SpanKey<K> {
    ghost partial_cmp = { on (λ s. s.key) K.partial_cmp };

    ghost laws = { Prim.search (comparing, rules) };

    fn partial_cmp(&self, other: &Self) -> Option<Ordering> {
        self.key.partial_cmp(&other.key)
    }
}

impl<K: Ord> Ord for SpanKey<K> {
    ghost cmp = { on (λ s. s.key) K.cmp };

    ghost total = { Prim.search (comparing, rules) };

    ghost matches_partial_cmp = { Prim.search (comparing, rules) };

    ghost matches_eq = { Prim.search (comparing, rules) };

    fn cmp(&self, other: &Self) -> Ordering {
        self.key.cmp(&other.key)
    }
}

// Whether both spans have days, and each begins before the other ends.
pub(crate) fn do_overlap(a: &FixedPeriod, b: &FixedPeriod) -> bool
    ensures { (result ≡ true) ↔ DoOverlap a.now b.now }
{
    a.start < b.end && b.start < a.end && a.start < a.end && b.start < b.end
}
