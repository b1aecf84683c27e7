//! Texts as lists of characters.

ghost use Rattle.std.specs.Prelude.{◌≡◌, ◌≤◌, ◌<◌, ◌+◌, ◌^◌, [], ◌∷◌, ◌++◌, chars, length, take, drop, slice_get, MatchOption, IfSome, is_some, ◌==◌, encode_utf8_all};
ghost use Rattle.std.specs.Char.{is_ascii};
ghost use Rattle.std.specs.List.{prefix_len};
ghost use Rattle.cxx_base.specs.declared.limits.TheConstants.{MAX_SOURCE};
ghost use Rattle.cxx_tokens.specs.Characters as spec;
ghost use Rattle.cxx_tokens.specs.Cuts.{IsCut};

use cxx_base::Place;

/// Where a text is cut: how many characters stand before, and what follows.
#[derive(Clone, Copy, Debug)]
pub struct Cut<'a> {
    pub length: usize,
    pub rest: &'a str,
}

// The first character of a text, and what follows it, by the decoder of all characters.
fn split_wide(text: &str) -> Option<(char, &str)>
    ensures { MatchOption result (chars text.now ≡ []) (λ found. chars text.now ≡ found.0 ∷ chars found.1.now) }
{
    let mut characters = text.chars();
    match characters.next() {
        Some(first) => Some((first, characters.as_str())),
        None => None,
    }
}

/// The first character of a text, and what follows it. An ASCII one is told by its byte.
#[inline(always)]
pub fn split_first(text: &str) -> Option<(char, &str)>
    ensures { MatchOption result (chars text.now ≡ []) (λ found. chars text.now ≡ found.0 ∷ chars found.1.now) }
{
    let bytes = text.as_bytes();
    if bytes.is_empty() {
        return None;
    }
    let byte = bytes[0];
    if byte < 0x80 {
        Some((char::from(byte), behind_ascii(text, 1)))
    } else {
        split_wide(text)
    }
}

/// The first character of a text, and what follows it, where it is ASCII.
#[inline(always)]
pub fn split_ascii(text: &str) -> Option<(char, &str)>
    ensures { IfSome result (λ found. chars text.now ≡ found.0 ∷ chars found.1.now) }
{
    let bytes = text.as_bytes();
    if bytes.is_empty() {
        return None;
    }
    let byte = bytes[0];
    if byte < 0x80 {
        Some((char::from(byte), behind_ascii(text, 1)))
    } else {
        None
    }
}

/// The first character of a text.
#[inline]
pub fn first(text: &str) -> Option<char>
    ensures { result ≡ slice_get (chars text.now) 0 }
{
    match split_first(text) {
        Some((first, _)) => Some(first),
        None => None,
    }
}

/// Whether a text begins with this character.
#[inline]
pub fn first_is(character: char, text: &str) -> bool
    ensures { result ≡ spec.first_is (λ c. c == character) (chars text.now) }
{
    match split_first(text) {
        Some((first, _)) => first == character,
        None => false,
    }
}

/// What follows these ASCII characters, where a text begins with them.
#[inline(always)]
pub fn strip<'a>(front: &[u8], text: &'a str) -> Option<&'a str>
    ensures begins { is_some result ≡ spec.begins_with front.now (chars text.now) }
    ensures rest { IfSome result (λ rest. chars rest.now ≡ drop (length front.now) (chars text.now)) }
    ensures within { IfSome result (λ rest. length front.now ≤ length (chars text.now)) }
{
    let mut rest = text;
    for byte in front {
        match split_first(rest) {
            Some((first, after)) => {
                if first != char::from(*byte) {
                    return None;
                }
                rest = after;
            }
            None => return None,
        }
    }
    Some(rest)
}

/// What follows the first bytes of a text, which are ASCII, so each of them is a character.
#[inline(always)]
pub fn behind_ascii(text: &str, count: usize) -> &str
    requires { count ≤ prefix_len is_ascii text.now }
    ensures characters { chars text.now ≡ take count text.now ++ chars result.now }
    ensures bytes { result.now ≡ drop count text.now }
{
    &text[count..]
}

/// The first characters of a text, which stand before its rest.
#[inline]
pub fn front<'a>(text: &'a str, count: usize, rest: &str) -> &'a str
    requires { chars rest.now ≡ drop count (chars text.now) }
    ensures characters { chars result.now ≡ take count (chars text.now) }
    ensures bytes { result.now ≡ encode_utf8_all (take count (chars text.now)) }
{
    &text[..text.len() - rest.len()]
}

/// The place after a character.
#[inline]
pub fn after_one(place: Place, character: char) -> Place
    requires line { place.line + 1 < 2 ^ 32 }
    requires column { place.column + 1 < 2 ^ 32 }
    ensures { result ≡ spec.after place character }
{
    if character == '\n' {
        Place {
            line: place.line + 1,
            column: 1,
        }
    } else {
        Place {
            line: place.line,
            column: place.column + 1,
        }
    }
}

/// The place after the first characters of a text. A line feed begins a line.
#[inline]
pub fn after(place: Place, text: &str, count: usize) -> Place
    requires within { count ≤ length (chars text.now) }
    requires line { place.line + count < 2 ^ 32 }
    requires column { place.column + count < 2 ^ 32 }
    ensures place { result ≡ spec.after_all place (take count (chars text.now)) }
    ensures line { result.line ≤ place.line + count }
    ensures column { result.column ≤ place.column + count }
{
    let mut next = place;
    let mut rest = text;
    for _passed in 0..count {
        match split_first(rest) {
            Some((character, behind)) => {
                next = after_one(next, character);
                rest = behind;
            }
            None => unreachable!(),
        }
    }
    next
}

/// The place just past a text.
pub fn end_of(text: &str) -> Place
    requires { length (chars text.now) ≤ MAX_SOURCE }
    ensures { result ≡ spec.after_all spec.start (chars text.now) }
{
    let mut next = Place::START;
    let mut rest = text;
    while let Some((character, behind)) = split_first(rest) {
        next = after_one(next, character);
        rest = behind;
    }
    next
}

/// A text without a byte order mark at its start.
pub fn without_byte_order_mark(text: &str) -> &str
    ensures characters { chars result.now ≡ spec.without_byte_order_mark (chars text.now) }
    ensures shorter { length (chars result.now) ≤ length (chars text.now) }
{
    match split_first(text) {
        Some(('\u{feff}', rest)) => rest,
        _ => text,
    }
}
