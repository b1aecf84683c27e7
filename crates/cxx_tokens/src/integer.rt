//! Integer literals ([lex.icon]).

ghost use Rattle.std.specs.Prelude.{◌≡◌, ◌^◌, ◌≤◌, ◌+◌, ◌*◌, true, false, min, chars, length, take, drop, is_some, IfSome};
ghost use Rattle.std.specs.Char.{digit_value};
ghost use Rattle.cxx_tokens.specs.Characters as spec;
ghost use Rattle.cxx_tokens.specs.Cuts.{IsCut, capped, seen_integer, seen_suffix, IsRadix};
ghost use Rattle.cxx_tokens.specs.Literals as literals;

use crate::text::{Cut, first_is, split_first, strip};
use crate::value::value_in;

/// The base of an integer literal.
#[derive(Clone, Copy, Debug)]
pub enum Base {
    Binary,
    Octal,
    Decimal,
    Hexadecimal,
}

/// What stands behind the digits of an integer literal.
#[derive(Clone, Copy, Debug)]
pub struct Suffix<'a> {
    pub unsigned: bool,
    pub longs: u32,
    pub cut: Cut<'a>,
}

/// An integer literal. A value of 2^64 stands for each that is not smaller.
#[derive(Clone, Copy, Debug)]
pub struct Integer<'a> {
    pub decimal: bool,
    pub unsigned: bool,
    pub longs: u32,
    pub value: u128,
    pub cut: Cut<'a>,
}

fn radix_of(base: Base) -> u32
    ensures radix { result ≡ literals.radix base }
    ensures small { IsRadix result }
{
    match base {
        Base::Binary => 2,
        Base::Octal => 8,
        Base::Decimal => 10,
        Base::Hexadecimal => 16,
    }
}

// Whether the first character is a digit of the base.
fn begins_with_digit(radix: u32, text: &str) -> bool
    requires { IsRadix radix }
    ensures { result ≡ spec.first_is (spec.is_digit_in radix) (chars text.now) }
{
    match split_first(text) {
        Some((c, _)) => c.is_digit(radix),
        None => false,
    }
}

fn is_decimal(base: Base) -> bool
    ensures { result ≡ literals.is_decimal base }
{
    match base {
        Base::Binary | Base::Octal | Base::Hexadecimal => false,
        Base::Decimal => true,
    }
}

// How many characters the prefix has.
fn prefix_len(base: Base) -> usize
    ensures { result ≡ literals.prefix_len_of base }
{
    match base {
        Base::Binary | Base::Hexadecimal => 2,
        Base::Octal | Base::Decimal => 0,
    }
}

// What follows a prefix, where that is a digit of the base.
#[inline(always)]
fn strip_prefix<'a>(prefix: &[u8], radix: u32, text: &'a str) -> Option<&'a str>
    requires { IsRadix radix }
    ensures some { is_some result ≡ literals.has_prefix prefix.now radix (chars text.now) }
    ensures rest { IfSome result (λ rest. chars rest.now ≡ drop (length prefix.now) (chars text.now)) }
{
    let rest = strip(prefix, text)?;
    if begins_with_digit(radix, rest) {
        Some(rest)
    } else {
        None
    }
}

// The base of the number at the front of a text, and the text from its digits on.
fn base_of(text: &str) -> (Base, &str)
    ensures base { result.0 ≡ literals.base_of (chars text.now) }
    ensures digits { chars result.1.now ≡ drop (literals.prefix_len_of result.0) (chars text.now) }
{
    if !first_is('0', text) {
        (Base::Decimal, text)
    } else if let Some(digits) = strip_prefix(b"0x", 16, text) {
        (Base::Hexadecimal, digits)
    } else if let Some(digits) = strip_prefix(b"0b", 2, text) {
        (Base::Binary, digits)
    } else {
        (Base::Octal, text)
    }
}

// The digits at the front of a text, with the single quotes between them.
fn digits(radix: u32, text: &str) -> Cut<'_>
    requires { IsRadix radix }
    ensures length { result.length ≡ literals.digits_len radix (chars text.now) }
    ensures cut { IsCut text.now result }
{
    let mut length = 0;
    let mut rest = text;
    while let Some((c, after)) = split_first(rest) {
        if !c.is_digit(radix) {
            break;
        }
        match strip_prefix(b"'", radix, after) {
            Some(behind) => {
                length += 2;
                rest = behind;
            }
            None => {
                length += 1;
                rest = after;
            }
        }
    }
    Cut { length, rest }
}

// `u` or `U`.
fn unsigned_at(text: &str) -> Cut<'_>
    ensures length { result.length ≡ literals.unsigned_len (chars text.now) }
    ensures cut { IsCut text.now result }
{
    match split_first(text) {
        Some(('u' | 'U', rest)) => Cut { length: 1, rest },
        _ => Cut {
            length: 0,
            rest: text,
        },
    }
}

// `l` or `L`, once or twice.
fn longs_at(text: &str) -> Cut<'_>
    ensures length { result.length ≡ literals.longs_len (chars text.now) }
    ensures few { result.length ≤ 2 }
    ensures cut { IsCut text.now result }
{
    match split_first(text) {
        Some((c @ ('l' | 'L'), rest)) => match split_first(rest) {
            Some((d, behind)) if d == c => Cut {
                length: 2,
                rest: behind,
            },
            _ => Cut { length: 1, rest },
        },
        _ => Cut {
            length: 0,
            rest: text,
        },
    }
}

// The suffix at the front of a text.
fn suffix_at(text: &str) -> Suffix<'_>
    ensures suffix { seen_suffix result ≡ literals.suffix_of (chars text.now) }
    ensures longs { result.longs ≤ 2 }
    ensures cut { IsCut text.now result.cut }
{
    let before = unsigned_at(text);
    let longs = longs_at(before.rest);
    let behind = if before.length == 0 {
        unsigned_at(longs.rest)
    } else {
        Cut {
            length: 0,
            rest: longs.rest,
        }
    };
    Suffix {
        unsigned: before.length + behind.length > 0,
        longs: longs.length as u32,
        cut: Cut {
            length: before.length + longs.length + behind.length,
            rest: behind.rest,
        },
    }
}

/// The integer literal at the front of a text that begins with a digit.
pub fn integer_at(text: &str) -> Integer<'_>
    ensures integer { seen_integer result ≡ capped (literals.integer_at (chars text.now)) }
    ensures longs { result.longs ≤ 2 }
    ensures cut { IsCut text.now result.cut }
{
    let (base, behind_prefix) = base_of(text);
    let radix = radix_of(base);
    let digits = digits(radix, behind_prefix);
    let suffix = suffix_at(digits.rest);
    Integer {
        decimal: is_decimal(base),
        unsigned: suffix.unsigned,
        longs: suffix.longs,
        value: value_in(radix, behind_prefix, digits.length),
        cut: Cut {
            length: prefix_len(base) + digits.length + suffix.cut.length,
            rest: suffix.cut.rest,
        },
    }
}
