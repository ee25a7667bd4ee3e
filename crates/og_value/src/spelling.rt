//! Bytes as numbers that are in their order.
ghost use Rattle.std.specs.Prelude.{◌≡◌, ◌<◌, ◌^◌, slice_index};
ghost use Rattle.og_value.specs.Heights as meant;

// The number that the first 14 bytes spell, the greatest first; a byte that is missing counts as 0.
pub(crate) fn spelt(bytes: &[u8]) -> u128
    ensures number { result ≡ meant.spelt 14 0 bytes.now }
    ensures bound { result < 2 ^ 113 }
    ensures bytes { meant.AreBytes bytes.now }
{
    let high = u64::from_be_bytes([
        byte_at(bytes, 0),
        byte_at(bytes, 1),
        byte_at(bytes, 2),
        byte_at(bytes, 3),
        byte_at(bytes, 4),
        byte_at(bytes, 5),
        byte_at(bytes, 6),
        byte_at(bytes, 7),
    ]);
    let low = u64::from_be_bytes([
        0,
        0,
        byte_at(bytes, 8),
        byte_at(bytes, 9),
        byte_at(bytes, 10),
        byte_at(bytes, 11),
        byte_at(bytes, 12),
        byte_at(bytes, 13),
    ]);
    u128::from(high) * (1 << 48) + u128::from(low)
}

// The byte at the place, or 0 where it is missing.
fn byte_at(bytes: &[u8], i: usize) -> u8
    ensures { result ≡ slice_index bytes.now i }
{
    match bytes.get(i) {
        Some(byte) => *byte,
        None => 0,
    }
}
