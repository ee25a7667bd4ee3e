//! A law on the pairs that overlap, over their definition alone.
ghost use Rattle.std.specs.Prelude.{◌≡◌, ℕ, ℤ, List, count_by, if◌then◌else◌};
ghost use Rattle.og_join.specs.Overlaps.{overlaps};
ghost use Rattle.og_join.specs.Places.{is_pair, overlap_at};

/// Among the pairs that overlap, a pair of places stands once where there are spans at both places
/// and they overlap, and else not at all.
pub fn each_pair_once<E>()
    ensures { (lo hi : E → ℤ) (ls rs : List E) (i j : ℕ) → count_by (is_pair i j) (overlaps lo hi 0 0 ls rs) ≡ (if overlap_at lo hi ls rs i j then 1 else 0) }
{}
