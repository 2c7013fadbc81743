//! The word of 16 hex digits, all of them at once.
ghost use Rattle.std.specs.Prelude.{◌≡◌, map, length};
ghost use Rattle.std.specs.List.{list_any};
ghost use Rattle.image_reader.specs.Digits.{digit_or_255, is_no_value, bytes_by_pairs, word_in};

use std::simd::prelude::*;

// The value of each byte as a hex digit, or 255.
#[inline(always)]
fn values_of(digits: u8x16) -> u8x16
    ensures { result ≡ map digit_or_255 digits }
{
    let decimal = digits - u8x16::splat(b'0');
    let letter = (digits | u8x16::splat(0x20)) - u8x16::splat(b'a');
    let letter_or = letter
        .simd_lt(u8x16::splat(6))
        .select(letter + u8x16::splat(10), u8x16::splat(255));
    decimal.simd_lt(u8x16::splat(10)).select(decimal, letter_or)
}

// Whether a byte was no digit.
#[inline(always)]
fn is_any_refused(values: u8x16) -> bool
    ensures { result ≡ list_any is_no_value values }
{
    values.simd_ge(u8x16::splat(128)).to_bitmask() != 0
}

// The byte of each two values, the high one first.
#[inline(always)]
fn bytes_of(values: u8x16) -> u8x8
    ensures { result ≡ bytes_by_pairs values }
{
    let high = values.swizzle([0, 2, 4, 6, 8, 10, 12, 14]);
    let low = values.swizzle([1, 3, 5, 7, 9, 11, 13, 15]);
    high * u8x8::splat(16) + low
}

/// The word of 16 digits.
pub fn word_of(digits: &[u8]) -> Option<u64>
    requires { length digits.now ≡ 16 }
    ensures { result ≡ word_in digits.now }
{
    let values = values_of(u8x16::from_slice(digits));
    if is_any_refused(values) {
        return None;
    }
    Some(u64::from_le_bytes(bytes_of(values).to_array()))
}
