ghost use Rattle.std.specs.Prelude.{◌≡◌, ℕ, ◌+◌, ◌<◌, ◌≢◌, List, drop, true, MatchResult, slice_index};
ghost use lib.Lanes.{number_l};
ghost use Rattle.std.specs.List.{count_by};
ghost use Rattle.core.specs.Char.{is_ascii_digit};
ghost use Rattle.core.specs.Dec2flt.Digits.{IsEightDigits};
ghost use Rattle.core.specs.Int.Digits.{number_from_digits};
ghost use Rattle.core.specs.Str.Parse.{digits_value};
ghost use Rattle.fields.specs.Scan.{digits_behind, scan, spaces};
ghost use Rattle.fields.specs.Written.{Spells, RulesOut};

use std::simd::prelude::*;

// The number whose written form the sixteen bytes are, or the place of the first that rules every written form out.
pub(crate) fn digits(bytes: &[u8; 16]) -> Result<u64, usize>
    ensures is { result ≡ scan 0 0 bytes.now }
    ensures means { MatchResult result (λ n. Spells bytes.now n) (λ k. RulesOut bytes.now k) }
{
    let start = leading_spaces(bytes);
    if is_written(bytes, start) {
        Ok(number(bytes, start))
    } else {
        walk(bytes)
    }
}

// How many of the bytes are digits. All sixteen are compared at once.
fn digit_count(bytes: u8x16) -> usize
    ensures { result ≡ count_by is_ascii_digit bytes }
{
    let values = bytes ^ u8x16::splat(b'0');
    values.simd_le(u8x16::splat(9)).to_bitmask().count_ones() as usize
}

// Whether the bytes are a written form: digits behind the leading spaces, the first of them no zero but the last.
fn is_written(bytes: &[u8; 16], start: usize) -> bool
    requires { start ≡ spaces bytes.now }
    ensures { result ≡ true → (digits_behind bytes.now + spaces bytes.now ≡ 16) × (spaces bytes.now < 15 → slice_index bytes.now (spaces bytes.now) ≢ 48) }
{
    start + digit_count(u8x16::from_array(*bytes)) == 16 && (start == 15 || bytes[start] != b'0')
}

// The number that eight digits write, the first of them in the lowest byte: pairs of digits, then pairs of pairs, are put together.
fn number_of_eight(digits: u64) -> u64
    ensures { (ds : List ℕ) → IsEightDigits ds → digits ≡ number_l 256 ds → result ≡ number_from_digits 10 ds }
{
    let pairs = digits.wrapping_mul(10).wrapping_add(digits >> 8);
    let first = (pairs & 0x0000_00ff_0000_00ff).wrapping_mul(100 + (1_000_000 << 32));
    let second = ((pairs >> 16) & 0x0000_00ff_0000_00ff).wrapping_mul(1 + (10_000 << 32));
    first.wrapping_add(second) >> 32
}

// The number that digits behind spaces write: the low half of a digit's byte is the digit, and that of a space is 0. Behind eight
// spaces the first eight bytes write nothing.
fn number(bytes: &[u8; 16], start: usize) -> u64
    requires { start ≡ spaces bytes.now }
    ensures { digits_behind bytes.now + spaces bytes.now ≡ 16 → result ≡ digits_value 10 (drop (spaces bytes.now) bytes.now) }
{
    let values = u8x16::from_array(*bytes) & u8x16::splat(0x0f);
    let [high, low] = u64x2::from_le_bytes(values).to_array();
    let above = if start < 8 { number_of_eight(high) } else { 0 };
    above
        .wrapping_mul(100_000_000)
        .wrapping_add(number_of_eight(low))
}

// The same byte by byte, for bytes that are no written form: it comes to the place.
#[cold]
fn walk(bytes: &[u8; 16]) -> Result<u64, usize>
    ensures is { result ≡ scan 0 0 bytes.now }
    ensures means { MatchResult result (λ n. Spells bytes.now n) (λ k. RulesOut bytes.now k) }
{
    let start = leading_spaces(bytes);
    if start < 15 && bytes[start] == b'0' {
        return Err(start);
    }
    let mut n: u64 = 0;
    for i in start..16 {
        let b = bytes[i];
        if !b.is_ascii_digit() {
            return Err(i);
        }
        n = n * 10 + u64::from(b - b'0');
    }
    Ok(n)
}

// How many spaces the bytes begin with, the last byte aside. All sixteen are compared at once.
fn leading_spaces(bytes: &[u8; 16]) -> usize
    ensures { result ≡ spaces bytes.now }
{
    let others = u8x16::from_array(*bytes)
        .simd_ne(u8x16::splat(b' '))
        .to_bitmask();
    (others.trailing_zeros() as usize).min(15)
}
