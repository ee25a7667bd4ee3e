//! Laws on the texts of points and of periods, over their definitions alone.
ghost use Rattle.std.specs.Prelude.{◌≡◌, ◌≤ℤ◌, ℕ, ℤ, List};
ghost use Rattle.og_base.specs.OldTexts.{now_number, old_first, old_last};
ghost use Rattle.og_time.specs.OldTexts.{IsOldPoint, IsOldPointText, IsOldPeriod, IsOldPeriodText};
ghost use Rattle.og_time.specs.Period.{Period, IsPeriodText, period_at};
ghost use Rattle.og_time.specs.Point.{Point, IsPointText, point_at};

/// Each point text of the earlier calendar, whose first day was 0001-01-01, is a point text, and
/// each of its period texts is a period text. On each day of the earlier calendar the point has the
/// same value, and the period the same two ends, but that -infinity has its new number. Each of its
/// points and each of its periods has a text.
pub fn old_texts()
    ensures points { (text : List ℕ) (p : Point) → IsOldPointText text p →
        (q : Point) × IsPointText text q
        × ((d : ℤ) → old_first ≤ℤ d → d ≤ℤ old_last → point_at q d ≡ now_number (point_at p d)) }
    ensures each_point { (p : Point) → IsOldPoint p → (text : List ℕ) × IsOldPointText text p }
    ensures periods { (text : List ℕ) (i : Period) → IsOldPeriodText text i →
        (j : Period) × IsPeriodText text j
        × ((d : ℤ) → old_first ≤ℤ d → d ≤ℤ old_last →
        ((period_at j d).start ≡ now_number (period_at i d).start) × ((period_at j d).end ≡ now_number (period_at i d).end)) }
    ensures each_period { (i : Period) → IsOldPeriod i → (text : List ℕ) × IsOldPeriodText text i }
{}
