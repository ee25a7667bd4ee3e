//! Laws on the texts of days and of sets of days, over their definitions alone.
ghost use Rattle.std.specs.Prelude.{◌≡◌, ◌⊎◌, ◌↔◌, ◌≤ℤ◌, ◌<ℤ◌, ℕ, ℤ, pos, List, length};
ghost use Rattle.jiff_core.specs.Calendar.{IsBetween, days_from_civil};
ghost use Rattle.og_base.specs.Calendar.{IsRefDayText, IsDayText};
ghost use Rattle.og_base.specs.Ranges.{Range, IsNormal, BeginAfter, holds_day};
ghost use Rattle.og_base.specs.SetTexts.{set_text};
ghost use Rattle.og_base.specs.TextForms.{IsPlainDayText, day_bytes};
ghost use Rattle.og_base.specs.OldTexts.{IsOldDay, IsOldDayText, IsOldRefDayText, IsOldSetText, now_number, old_first, old_last, old_before};

/// The text of a reference day names a civil day: in a year from 0 on by ten bytes, four digits, a
/// dash, two digits, a dash and two digits; in a year before it by thirteen bytes, with a dash and
/// six digits of the year.
pub fn form_of_day_texts()
    ensures form { (text : List ℕ) (n : ℤ) → IsRefDayText text n ↔ IsPlainDayText text n }
    ensures ten { (y : ℤ) (m d : ℕ) → pos 0 ≤ℤ y → length (day_bytes y m d) ≡ 10 }
    ensures thirteen { (y : ℤ) (m d : ℕ) → y <ℤ pos 0 → length (day_bytes y m d) ≡ 13 }
{}

/// Any bytes are the text of a reference day, or of none; and they are the text of a day, the
/// infinities among them, or of none.
pub fn a_day_text_or_none()
    ensures reference { (text : List ℕ) → ((day : ℤ) × IsRefDayText text day) ⊎ ((day : ℤ) → ¬ IsRefDayText text day) }
    ensures extended { (text : List ℕ) → ((day : ℤ) × IsDayText text day) ⊎ ((day : ℤ) → ¬ IsDayText text day) }
{}

/// Each set of days has one text, and each set text is of one set.
pub fn one_text_a_set()
    ensures { (s t : List Range) → IsNormal s → IsNormal t → set_text s ≡ set_text t → s ≡ t }
{}

/// The texts of the earlier calendar, whose days are those from 0001-01-01 to 9999-12-31. Each of its day
/// texts is a day text with the same number; -infinity alone has its new number. Each of its set texts is a
/// set text, and the two sets hold the same days of the earlier calendar. Each of its days, and each set of
/// them, has a text.
pub fn old_texts()
    ensures first { days_from_civil (pos 1) 1 1 ≡ old_first }
    ensures last { days_from_civil (pos 9999) 12 31 ≡ old_last }
    ensures range { (text : List ℕ) (n : ℤ) → IsOldRefDayText text n → IsBetween old_first old_last n }
    ensures day { (text : List ℕ) (n : ℤ) → IsOldDayText text n → IsDayText text (now_number n) }
    ensures each_day { (n : ℤ) → IsOldDay n → (text : List ℕ) × IsOldDayText text n }
    ensures set { (text : List ℕ) → (s : List Range) → IsOldSetText text s →
        (t : List Range) × IsNormal t × (text ≡ set_text t)
        × ((d : ℤ) → old_first ≤ℤ d → d ≤ℤ old_last → holds_day s d ≡ holds_day t d) }
    ensures each_set { (s : List Range) → IsNormal s → BeginAfter old_before s → (text : List ℕ) × IsOldSetText text s }
{}
