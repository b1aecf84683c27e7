//! Numbers of few digits, without prefix, separators and suffix.

ghost use Rattle.std.specs.Prelude.{◌≡◌, ◌≢◌, ◌==◌, ◌<◌, ◌+◌, ◌*◌, ◌∷◌, chars, drop, true, false, IfSome, IsTrue};
ghost use Rattle.std.specs.Char.{digit_value, is_ascii_digit};
ghost use Rattle.cxx_tokens.specs.Characters as spec;
ghost use Rattle.cxx_tokens.specs.Cuts.{IsCut};
ghost use Rattle.cxx_tokens.specs.Literals as literals;

use crate::character::continues_identifier;
use crate::text::{Cut, first_is, split_ascii};

/// A number, which is a zero, or decimal and small.
#[derive(Clone, Copy, Debug)]
pub struct ShortNumber<'a> {
    pub decimal: bool,
    pub value: u64,
    pub cut: Cut<'a>,
}

// Whether this is an ASCII character with which no number goes on.
#[inline(always)]
fn ends_number(c: char) -> bool
    ensures small { IsTrue result → c < 128 }
    ensures other { IsTrue result → spec.continues_identifier c ≡ false }
    ensures no_separator { IsTrue result → c ≢ 39 }
{
    c <= '\x7f' && !continues_identifier(c) && c != '\''
}

// A zero at the front of a text, with which no more of a number stands.
#[inline(always)]
#[tactic(auto, using(crate::proofs::ShortNumbers::ends_at))]
fn zero_at<'a>(text: &str, behind: &'a str) -> Option<ShortNumber<'a>>
    requires { chars text.now ≡ 48 ∷ chars behind.now }
    ensures number { IfSome result (λ found. literals.integer_at (chars text.now) ≡ record { length = found.cut.length; decimal = found.decimal; unsigned = false; longs = 0; value = found.value }) }
    ensures ends { IfSome result (λ found. spec.first_is spec.continues_identifier (drop found.cut.length (chars text.now)) ≡ false) }
    ensures cut { IfSome result (λ found. (0 < found.cut.length) × IsCut text.now found.cut) }
{
    let _text = text;
    let (next, _more) = split_ascii(behind)?;
    if ends_number(next) {
        Some(ShortNumber {
            decimal: false,
            value: 0,
            cut: Cut {
                length: 1,
                rest: behind,
            },
        })
    } else {
        None
    }
}

// The number with one more digit.
#[inline(always)]
#[tactic(auto, using(crate::proofs::ShortNumbers::least_digit, crate::proofs::ShortNumbers::greatest_digit, crate::proofs::ShortNumbers::digit_is))]
fn with_digit(value: u64, c: char) -> u64
    requires digit { is_ascii_digit c ≡ true }
    requires room { value < 100000000 }
    ensures value { result ≡ 10 * value + digit_value c }
    ensures small { result < 1000000000 }
{
    10 * value + (c as u64 - 48)
}

// A decimal number at the front of a text. One of too many digits is left, as at its last one no number ends.
#[inline(always)]
fn decimal_at(text: &str) -> Option<ShortNumber<'_>>
    requires { spec.first_is (λ c. c == 48) (chars text.now) ≡ false }
    ensures number { IfSome result (λ found. literals.integer_at (chars text.now) ≡ record { length = found.cut.length; decimal = found.decimal; unsigned = false; longs = 0; value = found.value }) }
    ensures ends { IfSome result (λ found. spec.first_is spec.continues_identifier (drop found.cut.length (chars text.now)) ≡ false) }
    ensures cut { IfSome result (λ found. (0 < found.cut.length) × IsCut text.now found.cut) }
{
    let mut length = 0;
    let mut value: u64 = 0;
    let mut rest = text;
    while let Some((c, after)) = split_ascii(rest) {
        if value >= 100_000_000 {
            break;
        }
        if !c.is_ascii_digit() {
            break;
        }
        if first_is('\'', after) {
            break;
        }
        value = with_digit(value, c);
        length += 1;
        rest = after;
    }
    if length == 0 {
        return None;
    }
    let (next, _more) = split_ascii(rest)?;
    if ends_number(next) {
        Some(ShortNumber {
            decimal: true,
            value,
            cut: Cut { length, rest },
        })
    } else {
        None
    }
}

/// The number at the front of a text, where it is a zero or a decimal one of few digits, without separators and suffix.
#[inline(always)]
pub fn short_number_at(text: &str) -> Option<ShortNumber<'_>>
    ensures number { IfSome result (λ found. literals.integer_at (chars text.now) ≡ record { length = found.cut.length; decimal = found.decimal; unsigned = false; longs = 0; value = found.value }) }
    ensures ends { IfSome result (λ found. spec.first_is spec.continues_identifier (drop found.cut.length (chars text.now)) ≡ false) }
    ensures cut { IfSome result (λ found. (0 < found.cut.length) × IsCut text.now found.cut) }
{
    let (c, behind) = split_ascii(text)?;
    if c == '0' {
        zero_at(text, behind)
    } else {
        decimal_at(text)
    }
}
