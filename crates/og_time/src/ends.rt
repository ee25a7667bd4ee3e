//! The ends of points, compared.
ghost use Rattle.std.specs.Prelude.{◌≡◌};
ghost use Rattle.og_time.specs.FixedOperations.{least_of, greatest_of};
ghost use Rattle.og_time.specs.PointOrder as order;

use og_base::ExtDay;

/// The earlier of two days.
pub fn earlier(a: ExtDay, b: ExtDay) -> ExtDay
    ensures { result ≡ least_of a b }
{
    if b < a { b } else { a }
}

/// The later of two days.
pub fn later(a: ExtDay, b: ExtDay) -> ExtDay
    ensures { result ≡ greatest_of a b }
{
    if a < b { b } else { a }
}

/// The day before which the low ends of two points part them: that of the second, where the first is
/// before it, and -infinity otherwise.
pub fn parted_before(a: ExtDay, c: ExtDay) -> ExtDay
    ensures { result ≡ order.parted_before a c }
{
    if a < c { c } else { ExtDay::NEG }
}

/// The day after which the high ends of two points part them: that of the first, where it is before
/// the second, and infinity otherwise.
pub fn parted_after(b: ExtDay, e: ExtDay) -> ExtDay
    ensures { result ≡ order.parted_after b e }
{
    if b < e { b } else { ExtDay::POS }
}
