//! Escapes and character literals ([lex.ccon]).

ghost use Rattle.std.specs.Prelude.{◌≡◌, ◌+◌, ◌<◌, ◌≤◌, ◌^◌, true, false, take, drop, chars, codes, IfSome, IfNone};
ghost use Rattle.cxx_tokens.specs.Characters.{begins_with};
ghost use Rattle.cxx_tokens.specs.Cuts.{IsCut, IsRadix, seen_escape};
ghost use Rattle.cxx_tokens.specs.Literals as spec;

use crate::run::{Class, run, run_of_at_most};
use crate::text::{Cut, split_first, strip};
use crate::value::value_in;

/// The byte that an escape or a character means, and what follows it.
#[derive(Clone, Copy, Debug)]
pub struct Escape<'a> {
    pub byte: u8,
    pub cut: Cut<'a>,
}

// The byte of an escape of one character.
fn simple_escape(c: char) -> Option<u8>
    ensures { result ≡ spec.simple_escape c }
{
    match c {
        'n' => Some(b'\n'),
        't' => Some(b'\t'),
        'r' => Some(b'\r'),
        'a' => Some(0x07),
        'b' => Some(0x08),
        'f' => Some(0x0c),
        'v' => Some(0x0b),
        '\\' | '\'' | '"' | '?' => Some(c as u8),
        _ => None,
    }
}

// The escape whose last characters are these digits of a text, behind others.
fn numeric_escape<'a>(others: usize, radix: u32, text: &str, digits: Cut<'a>) -> Option<Escape<'a>>
    requires radix { IsRadix radix }
    requires cut { IsCut text.now digits }
    requires few { others ≤ 1 }
    ensures escape { seen_escape result ≡ spec.numeric_escape others radix (take digits.entry.length (chars text.now)) }
    ensures cut { IfSome result (λ found. (found.cut.length ≡ others + digits.entry.length) × (found.cut.rest ≡ digits.entry.rest)) }
{
    let value = value_in(radix, text, digits.length);
    if digits.length > 0 && value < 256 {
        Some(Escape {
            byte: value as u8,
            cut: Cut {
                length: others + digits.length,
                rest: digits.rest,
            },
        })
    } else {
        None
    }
}

/// The escape behind a backslash.
pub fn escape_at(text: &str) -> Option<Escape<'_>>
    ensures escape { seen_escape result ≡ spec.escape_at (chars text.now) }
    ensures cut { IfSome result (λ found. IsCut text.now found.cut) }
{
    let (c, rest) = split_first(text)?;
    if c.is_digit(8) {
        numeric_escape(0, 8, text, run_of_at_most(3, Class::Octal, text))
    } else if c == 'x' {
        numeric_escape(1, 16, rest, run(Class::Hexadecimal, rest))
    } else {
        let byte = simple_escape(c)?;
        Some(Escape {
            byte,
            cut: Cut { length: 1, rest },
        })
    }
}

fn is_plain(c: char) -> bool
    ensures { result ≡ spec.is_plain c }
{
    c.is_ascii() && !matches!(c, '\'' | '\\' | '\n')
}

// The character with the single quote behind it, and others before.
fn closed<'a>(others: usize, escape: Escape<'a>) -> Option<Escape<'a>>
    requires few { others ≤ 1 }
    requires short { escape.cut.length < 2 ^ 63 }
    ensures none { IfNone result (begins_with (codes "'") (chars escape.entry.cut.rest.now) ≡ false) }
    ensures some { IfSome result (λ found. (begins_with (codes "'") (chars escape.entry.cut.rest.now) ≡ true)
        × (found.byte ≡ escape.entry.byte) × (found.cut.length ≡ others + escape.entry.cut.length + 1) × (chars found.cut.rest.now ≡ drop 1 (chars escape.entry.cut.rest.now))) }
{
    let rest = strip(b"'", escape.cut.rest)?;
    Some(Escape {
        byte: escape.byte,
        cut: Cut {
            length: others + escape.cut.length + 1,
            rest,
        },
    })
}

/// The character literal behind its first quote, with the second one.
pub fn character_at(text: &str) -> Option<Escape<'_>>
    ensures character { seen_escape result ≡ spec.character_at (chars text.now) }
    ensures cut { IfSome result (λ found. IsCut text.now found.cut) }
{
    match split_first(text) {
        Some(('\\', rest)) => closed(1, escape_at(rest)?),
        Some((c, rest)) if is_plain(c) => closed(
            0,
            Escape {
                byte: c as u8,
                cut: Cut { length: 1, rest },
            },
        ),
        _ => None,
    }
}
