//! The heights of values of one day: numbers that rise with them, made of the kind and of the number, the
//! first 14 bytes, the day or the start.
ghost use Rattle.std.specs.Prelude.{◌≡◌, ℤ};
ghost use Rattle.og_value.specs.Heights as meant;
ghost use Rattle.og_value.specs.Values.{value_at};
ghost use Rattle.og_value.specs.declared.value.FixedValue.TheVariants as fixed;

use crate::measured::HasHeight;
use crate::text::Text;
use crate::value::{FixedValue, Value};
use og_base::{ExtDay, RefDay};
use std::marker::Model;

// What the high word of a height counts.
const WORD: u128 = 1 << 64;

/// A height, seen as the number. Two words begin at any word, where a number of 128 bits begins at every second one.
#[derive(Drop)]
pub(crate) struct Height {
    high: u64,
    low: u64,
}

impl Model for Height {
    ghost use Rattle.std.specs.Prelude.{ℕ, ◌+◌, ◌*◌, ◌^◌};

    ghost Value = { ℕ };

    ghost view = { λ h. h.high * 2 ^ 64 + h.low };
}

impl Height {
    /// The height of that number.
    pub(crate) fn of(number: u128) -> Height
        ensures { result ≡ number }
    {
        Height {
            high: (number / WORD) as u64,
            low: (number % WORD) as u64,
        }
    }

    /// The number.
    pub(crate) fn number(&self) -> u128
        ensures { result ≡ self.now }
    {
        u128::from(self.high) * WORD + u128::from(self.low)
    }
}

// What lies between the heights of one kind and those of the next.
const KIND: u128 = 1 << 112;

impl HasHeight for FixedValue {
    ghost use Rattle.og_value.specs.HeightLaws.{values_first};
    ghost use Rattle.og_value.specs.Heights.{IsValueHeight};

    ghost is_height = { λ v n. IsValueHeight v n };

    fn height(&self) -> u128 {
        match self {
            FixedValue::Int(n) => int_height(*n),
            FixedValue::Text(text) => text_height(text),
            FixedValue::Date(day) => day_height(*day),
            FixedValue::Period(period) => start_height(period.start),
        }
    }

    ghost first = { values_first };
}

/// The height of the value on the day. Takes no memory.
pub(crate) fn height_on(value: &Value, d: RefDay) -> u128
    ensures { meant.IsValueHeight (value_at value.now d) result }
{
    match value {
        Value::Int(n) => int_height(*n),
        Value::Text(text) => text_height(text),
        Value::Point(point) => day_height(point.at(d)),
        Value::Period(period) => start_height(period.at(d).start),
    }
}

// The height of a number.
fn int_height(n: i64) -> u128
    ensures { meant.IsValueHeight (fixed.Int n) result }
{
    u128::from(lifted(n))
}

// The height of a text.
fn text_height(text: &Text) -> u128
    ensures { meant.IsValueHeight (fixed.Text text.now) result }
{
    KIND + text.spelt()
}

// The height of a day.
fn day_height(day: ExtDay) -> u128
    ensures { meant.IsValueHeight (fixed.Date day) result }
{
    2 * KIND + u128::from(lifted(i64::from(day.number())))
}

// The height of a period that starts on the day.
fn start_height(start: ExtDay) -> u128
    ensures { (end : ℤ) → meant.IsValueHeight (fixed.Period (record { start = start; end = end })) result }
{
    3 * KIND + u128::from(lifted(i64::from(start.number())))
}

// The number moved up so that the least one is 0.
fn lifted(n: i64) -> u64
    ensures { result ≡ meant.lifted n }
{
    n.cast_unsigned().wrapping_add(1 << 63)
}
