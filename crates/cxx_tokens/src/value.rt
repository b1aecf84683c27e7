//! The numbers that digits mean.

ghost use Rattle.std.specs.Prelude.{◌≡◌, ◌+◌, ◌*◌, ◌^◌, ◌≤◌, true, false, min, chars, length, take};
ghost use Rattle.std.specs.Char.{digit_value};
ghost use Rattle.cxx_tokens.specs.Characters as spec;
ghost use Rattle.cxx_tokens.specs.Cuts.{IsRadix};

use crate::text::split_first;

// The number with one more digit, or 2^64 where that is less. What is no digit means nothing.
#[inline]
fn with_digit(radix: u32, value: u128, c: char) -> u128
    requires radix { IsRadix radix }
    requires value { value ≤ 2 ^ 64 }
    ensures digit { spec.is_digit_in radix c ≡ true → result ≡ min (radix * value + digit_value c) (2 ^ 64) }
    ensures other { spec.is_digit_in radix c ≡ false → result ≡ value }
{
    match c.to_digit(radix) {
        Some(digit) => (u128::from(radix) * value + u128::from(digit)).min(1 << 64),
        None => value,
    }
}

/// The number that the digits of the first characters mean, or 2^64 where that is less.
#[inline]
pub fn value_in(radix: u32, text: &str, count: usize) -> u128
    requires radix { IsRadix radix }
    requires within { count ≤ length (chars text.now) }
    ensures { result ≡ min (spec.value_in radix (take count (chars text.now))) (2 ^ 64) }
{
    let mut value: u128 = 0;
    let mut rest = text;
    for _passed in 0..count {
        match split_first(rest) {
            Some((c, after)) => {
                value = with_digit(radix, value, c);
                rest = after;
            }
            None => unreachable!(),
        }
    }
    value
}
