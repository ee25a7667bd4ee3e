//! Numbers, by their digits.
ghost use Rattle.std.specs.Prelude.{◌≡◌, ◌-◌, ◌+◌, ◌<◌, ◌≤◌, ◌^◌, length, min, slice_index, IsTrue};
ghost use Rattle.std.specs.Char.{is_ascii_digit};
ghost use Rattle.og_lex.specs.Bytes.{value_after, signed};
ghost use Rattle.og_lex.specs.Front as spec;

use crate::front::{Fault, Front};
use crate::run::{Class, run_len};
use crate::token::TokenKind;

/// The number whose digits stand at the front, after a `-` where it is negative.
#[tactic(auto, unfolding(crate::specs::Front::number))]
pub fn number(z: &[u8], is_negative: bool) -> Front
    requires { IsTrue (is_ascii_digit (slice_index z.now 0)) }
    ensures value { result ≡ spec.number is_negative z.now }
    ensures within { spec.IsWithin result (spec.sign_len is_negative + length z.now) }
{
    let len = run_len(Class::Digit, z);
    let (digits, _) = z.split_at(len);
    match value_of(digits, is_negative) {
        Some(value) => Front::Piece(TokenKind::Number(value), sign_len(is_negative) + len),
        None => Front::Bad(Fault::NumberRange),
    }
}

// How many bytes the sign has.
fn sign_len(is_negative: bool) -> usize
    ensures { result ≡ spec.sign_len is_negative }
{
    if is_negative { 1 } else { 0 }
}

// The value of digits and their sign, within 64 bits.
fn value_of(digits: &[u8], is_negative: bool) -> Option<i64>
    ensures { result ≡ spec.in_64 (signed is_negative (value_after 0 digits.now)) }
{
    let size = magnitude(digits);
    if is_negative {
        0i64.checked_sub_unsigned(size)
    } else {
        0i64.checked_add_unsigned(size)
    }
}

// The value of the digits, or the last value of a u64 where it is greater.
fn magnitude(digits: &[u8]) -> u64
    ensures { result ≡ min (value_after 0 digits.now) (2 ^ 64 - 1) }
{
    let mut size: u64 = 0;
    'digits: for b in digits {
        size = size
            .saturating_mul(10)
            .saturating_add(u64::from(b.saturating_sub(48)));
    }
    size
}
