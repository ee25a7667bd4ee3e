//! Numbers that are made of what of values is the same on all days.
ghost use Rattle.std.specs.Prelude.{◌≡◌};
ghost use Rattle.std.specs.Int.{w64, cast_unsigned};
ghost use Rattle.std.specs.List.{list_all};
ghost use Rattle.og_value.specs.Groups as meant;
ghost use Rattle.og_value.specs.Steady as steady;

use crate::value::Value;
use og_base::ExtDay;
use og_time::OngoingPoint;

const FACTOR: u64 = 0x9e37_79b9_7f4a_7c15;

// The number with another mixed in.
fn mix(seed: u64, n: u64) -> u64
    ensures { result ≡ meant.mixed seed n }
{
    seed.wrapping_mul(FACTOR).wrapping_add(n)
}

// The number with the bytes of a text mixed in, and their number.
fn mix_text(seed: u64, text: &[u8]) -> u64
    ensures { result ≡ meant.text_mixed seed text.now }
{
    let mut digest = seed;
    'bytes: for byte in text {
        digest = mix(digest, *byte as u64);
    }
    mix(digest, text.len() as u64)
}

// The number with a day mixed in.
fn mix_day(seed: u64, day: ExtDay) -> u64
    ensures { result ≡ meant.mixed seed (cast_unsigned w64 day) }
{
    mix(seed, i64::from(day.number()).cast_unsigned())
}

impl Value {
    /// A number that is made of the seed and the value. Values that are equal on some day have one
    /// digest, and so have all points, and all periods. Takes no memory.
    pub fn loose_digest(&self, seed: u64) -> u64
        ensures { result ≡ meant.loose_digest seed self.now }
    {
        match self {
            Value::Int(n) => mix(seed, n.cast_unsigned()),
            Value::Text(text) => mix_text(seed, text.bytes()),
            Value::Point(_) => mix(seed, 1),
            Value::Period(_) => mix(seed, 2),
        }
    }

    // A number that is made of the seed and the whole of the value, where it is steady.
    fn whole_digest(&self, seed: u64) -> u64
        ensures { result ≡ meant.whole_digest seed self.now }
    {
        match self {
            Value::Int(n) => mix(seed, n.cast_unsigned()),
            Value::Text(text) => mix_text(seed, text.bytes()),
            Value::Point(point) => mix_day(seed, point.low()),
            Value::Period(period) => {
                let start = mix_day(seed, period.start().low());
                mix_day(start, period.end().low())
            }
        }
    }

    /// Whether the value is the same on all days.
    pub fn is_steady(&self) -> bool
        ensures { result ≡ steady.is_steady_value self.now }
    {
        match self {
            Value::Int(_) | Value::Text(_) => true,
            Value::Point(point) => is_fixed(*point),
            Value::Period(period) => is_fixed(period.start()) && is_fixed(period.end()),
        }
    }
}

// Whether the point is a fixed day.
fn is_fixed(point: OngoingPoint) -> bool
    ensures { result ≡ steady.is_fixed point }
{
    point.low() == point.high()
}

// The loose digest of the values.
pub(crate) fn loose(seed: u64, values: &[Value]) -> u64
    ensures { result ≡ meant.loose_row seed values.now }
{
    let mut digest = seed;
    'values: for value in values {
        digest = value.loose_digest(digest);
    }
    digest
}

// The whole digest of the values.
pub(crate) fn whole(seed: u64, values: &[Value]) -> u64
    ensures { result ≡ meant.whole_row seed values.now }
{
    let mut digest = seed;
    'values: for value in values {
        digest = value.whole_digest(digest);
    }
    digest
}

// Whether each value is the same on all days.
pub(crate) fn are_steady(values: &[Value]) -> bool
    ensures { result ≡ list_all steady.is_steady_value values.now }
{
    'values: for value in values {
        if !value.is_steady() {
            return false;
        }
    }
    true
}
