//! Punctuators ([lex.operators]).

ghost use Rattle.std.specs.Prelude.{◌≡◌, ◌≢◌, ◌<◌, ◌∷◌, chars, length, map, take, get_or, true, false, is_some, IfSome, Some};
ghost use Rattle.cxx_base.specs.Texts.{Text};
ghost use Rattle.cxx_tokens.specs.Cuts.{IsCut, seen_punctuator, seen_punctuators};
ghost use Rattle.cxx_tokens.specs.Search.{IsOfTwo, combined, goes_on, longest_among};
ghost use Rattle.cxx_tokens.specs.Punctuators as spec;
ghost use Rattle.cxx_tokens.specs.Turns.{IsMark};
ghost use Rattle.cxx_tokens.specs.Words.{AreBelow};
ghost use Rattle.cxx_tokens.specs.declared.punctuator.TheConstants.{PUNCTUATORS, BY_FIRST, ALONE, SHORTEST, WITH_EQUAL, DOUBLED};

use crate::mark::{ARROW, LEFT_BRACKET};
use crate::text::{Cut, first, first_is, split_ascii, strip};

/// The punctuators, in the order in which they are numbered.
pub const PUNCTUATORS: [&[u8]; 49] = [
    b"{", b"}", b"[", b"]", b"[:", b":]", b"(", b")", b";", b":", b"::", b",", b".", b"?", b"->",
    b"+", b"-", b"*", b"/", b"%", b"^", b"^^", b"&", b"|", b"~", b"!", b"=", b"<", b">", b"<=",
    b">=", b"==", b"!=", b"<<", b">>", b"&&", b"||", b"++", b"--", b"+=", b"-=", b"*=", b"/=",
    b"%=", b"^=", b"&=", b"|=", b"<<=", b">>=",
];

// The numbers of the punctuators that begin with each ASCII character.
const BY_FIRST: [&[u32]; 128] = [
    &[],
    &[],
    &[],
    &[],
    &[],
    &[],
    &[],
    &[],
    &[],
    &[],
    &[],
    &[],
    &[],
    &[],
    &[],
    &[],
    &[],
    &[],
    &[],
    &[],
    &[],
    &[],
    &[],
    &[],
    &[],
    &[],
    &[],
    &[],
    &[],
    &[],
    &[],
    &[],
    &[],
    &[25, 32],
    &[],
    &[],
    &[],
    &[19, 43],
    &[22, 35, 45],
    &[],
    &[6],
    &[7],
    &[17, 41],
    &[15, 37, 39],
    &[11],
    &[14, 16, 38, 40],
    &[12],
    &[18, 42],
    &[],
    &[],
    &[],
    &[],
    &[],
    &[],
    &[],
    &[],
    &[],
    &[],
    &[5, 9, 10],
    &[8],
    &[27, 29, 33, 47],
    &[26, 31],
    &[28, 30, 34, 48],
    &[13],
    &[],
    &[],
    &[],
    &[],
    &[],
    &[],
    &[],
    &[],
    &[],
    &[],
    &[],
    &[],
    &[],
    &[],
    &[],
    &[],
    &[],
    &[],
    &[],
    &[],
    &[],
    &[],
    &[],
    &[],
    &[],
    &[],
    &[],
    &[2, 4],
    &[],
    &[3],
    &[20, 21, 44],
    &[],
    &[],
    &[],
    &[],
    &[],
    &[],
    &[],
    &[],
    &[],
    &[],
    &[],
    &[],
    &[],
    &[],
    &[],
    &[],
    &[],
    &[],
    &[],
    &[],
    &[],
    &[],
    &[],
    &[],
    &[],
    &[],
    &[],
    &[],
    &[0],
    &[23, 36, 46],
    &[1],
    &[24],
    &[],
];

// The number of the punctuator that is an ASCII character, where that begins no other one; else 49.
const ALONE: [u8; 128] = [
    49, 49, 49, 49, 49, 49, 49, 49, 49, 49, 49, 49, 49, 49, 49, 49, 49, 49, 49, 49, 49, 49, 49, 49,
    49, 49, 49, 49, 49, 49, 49, 49, 49, 49, 49, 49, 49, 49, 49, 49, 6, 7, 49, 49, 11, 49, 12, 49,
    49, 49, 49, 49, 49, 49, 49, 49, 49, 49, 49, 8, 49, 49, 49, 13, 49, 49, 49, 49, 49, 49, 49, 49,
    49, 49, 49, 49, 49, 49, 49, 49, 49, 49, 49, 49, 49, 49, 49, 49, 49, 49, 49, 49, 49, 3, 49, 49,
    49, 49, 49, 49, 49, 49, 49, 49, 49, 49, 49, 49, 49, 49, 49, 49, 49, 49, 49, 49, 49, 49, 49, 49,
    49, 49, 49, 0, 49, 1, 24, 49,
];

// The number of the punctuator that is an ASCII character, where that begins others too, but no comment; else 49.
const SHORTEST: [u8; 128] = [
    49, 49, 49, 49, 49, 49, 49, 49, 49, 49, 49, 49, 49, 49, 49, 49, 49, 49, 49, 49, 49, 49, 49, 49,
    49, 49, 49, 49, 49, 49, 49, 49, 49, 25, 49, 49, 49, 19, 22, 49, 49, 49, 17, 15, 49, 16, 49, 49,
    49, 49, 49, 49, 49, 49, 49, 49, 49, 49, 9, 49, 27, 26, 28, 49, 49, 49, 49, 49, 49, 49, 49, 49,
    49, 49, 49, 49, 49, 49, 49, 49, 49, 49, 49, 49, 49, 49, 49, 49, 49, 49, 49, 2, 49, 49, 20, 49,
    49, 49, 49, 49, 49, 49, 49, 49, 49, 49, 49, 49, 49, 49, 49, 49, 49, 49, 49, 49, 49, 49, 49, 49,
    49, 49, 49, 49, 23, 49, 49, 49,
];

// The number of the punctuator that is an ASCII character and `=`, else 49.
const WITH_EQUAL: [u8; 128] = [
    49, 49, 49, 49, 49, 49, 49, 49, 49, 49, 49, 49, 49, 49, 49, 49, 49, 49, 49, 49, 49, 49, 49, 49,
    49, 49, 49, 49, 49, 49, 49, 49, 49, 32, 49, 49, 49, 43, 45, 49, 49, 49, 41, 39, 49, 40, 49, 42,
    49, 49, 49, 49, 49, 49, 49, 49, 49, 49, 49, 49, 29, 31, 30, 49, 49, 49, 49, 49, 49, 49, 49, 49,
    49, 49, 49, 49, 49, 49, 49, 49, 49, 49, 49, 49, 49, 49, 49, 49, 49, 49, 49, 49, 49, 49, 44, 49,
    49, 49, 49, 49, 49, 49, 49, 49, 49, 49, 49, 49, 49, 49, 49, 49, 49, 49, 49, 49, 49, 49, 49, 49,
    49, 49, 49, 49, 46, 49, 49, 49,
];

// The number of the punctuator that is an ASCII character twice, but for `==`; else 49.
const DOUBLED: [u8; 128] = [
    49, 49, 49, 49, 49, 49, 49, 49, 49, 49, 49, 49, 49, 49, 49, 49, 49, 49, 49, 49, 49, 49, 49, 49,
    49, 49, 49, 49, 49, 49, 49, 49, 49, 49, 49, 49, 49, 49, 35, 49, 49, 49, 49, 37, 49, 38, 49, 49,
    49, 49, 49, 49, 49, 49, 49, 49, 49, 49, 10, 49, 33, 49, 34, 49, 49, 49, 49, 49, 49, 49, 49, 49,
    49, 49, 49, 49, 49, 49, 49, 49, 49, 49, 49, 49, 49, 49, 49, 49, 49, 49, 49, 49, 49, 49, 21, 49,
    49, 49, 49, 49, 49, 49, 49, 49, 49, 49, 49, 49, 49, 49, 49, 49, 49, 49, 49, 49, 49, 49, 49, 49,
    49, 49, 49, 49, 36, 49, 49, 49,
];

/// A punctuator, by its number, and what follows it.
#[derive(Clone, Copy, Debug)]
pub struct Punctuator<'a> {
    pub number: u32,
    pub cut: Cut<'a>,
}

// The longer one; of two of one length the first.
fn longer<'a>(found: Option<Punctuator<'a>>, other: Punctuator<'a>) -> Punctuator<'a>
    ensures longer { Some (seen_punctuator result) ≡ combined (seen_punctuators found.entry) (Some (seen_punctuator other.entry)) }
    ensures cut { (text : Text) → IfSome found.entry (λ found. IsCut text found.cut) → IsCut text other.entry.cut → IsCut text result.cut }
{
    match found {
        Some(best) if best.cut.length >= other.cut.length => best,
        _ => other,
    }
}

// The longest of the numbered texts with which a text begins.
fn longest_of<'a>(texts: &[&[u8]], numbers: &[u32], text: &'a str) -> Option<Punctuator<'a>>
    requires { AreBelow (length texts.now) numbers.now }
    ensures punctuator { seen_punctuators result ≡ longest_among texts.now numbers.now (chars text.now) }
    ensures cut { IfSome result (λ found. IsCut text.now found.cut) }
{
    let mut found: Option<Punctuator<'a>> = None;
    let mut left = numbers;
    while let [number, rest @ ..] = left {
        let listed = texts[*number as usize];
        if let Some(behind) = strip(listed, text) {
            let cut = Cut {
                length: listed.len(),
                rest: behind,
            };
            found = Some(longer(
                found,
                Punctuator {
                    number: *number,
                    cut,
                },
            ));
        }
        left = rest;
    }
    found
}

// Tries only the punctuators that begin as the text does.
fn longest_by_first<'a>(
    texts: &[&[u8]],
    by_first: &[&[u32]],
    text: &'a str,
) -> Option<Punctuator<'a>>
    requires texts { map (λ text. text.now) texts.now ≡ map (λ text. text.now) PUNCTUATORS }
    requires by_first { map (λ numbers. numbers.now) by_first.now ≡ map (λ numbers. numbers.now) BY_FIRST }
    ensures punctuator { seen_punctuators result ≡ spec.longest (chars text.now) }
    ensures cut { IfSome result (λ found. IsCut text.now found.cut) }
    ensures some { IfSome result (λ found. 0 < found.cut.length) }
{
    let c = first(text)? as usize;
    if c < by_first.len() {
        longest_of(texts, by_first[c], text)
    } else {
        None
    }
}

// The `[` of `[::`, unless a further colon follows.
fn bracket_before_scope(text: &str) -> Option<Punctuator<'_>>
    ensures some { is_some result ≡ spec.is_bracket_and_scope (chars text.now) }
    ensures punctuator { is_some result ≡ true → seen_punctuators result ≡ spec.longest (take 1 (chars text.now)) }
    ensures cut { IfSome result (λ found. (0 < found.cut.length) × IsCut text.now found.cut) }
{
    let rest = strip(b"[", text)?;
    let behind = strip(b"::", rest)?;
    if first_is(':', behind) {
        return None;
    }
    Some(Punctuator {
        number: LEFT_BRACKET,
        cut: Cut { length: 1, rest },
    })
}

// The punctuator at the front of a text, by the search.
#[inline(never)]
#[tactic(auto, unfolding(crate::specs::Punctuators::punctuator_at))]
fn searched(text: &str) -> Option<Punctuator<'_>>
    ensures punctuator { seen_punctuators result ≡ spec.punctuator_at (chars text.now) }
    ensures cut { IfSome result (λ found. (0 < found.cut.length) × IsCut text.now found.cut) }
{
    match bracket_before_scope(text) {
        Some(found) => Some(found),
        None => longest_by_first(&PUNCTUATORS, &BY_FIRST, text),
    }
}

// Whether a punctuator has the character behind its first one.
#[inline]
fn goes_on(c: char) -> bool
    ensures { result ≡ goes_on c }
{
    c == '='
        || (c == '+'
            || (c == '-'
                || (c == '>'
                    || (c == '<'
                        || (c == '&' || (c == '|' || (c == '^' || (c == ':' || c == ']'))))))))
}

// The number in the table, or 49.
#[inline]
fn number_in(table: &[u8], c: char) -> u32
    ensures { result ≡ get_or table.now c 49 }
{
    let at = c as usize;
    if at < table.len() {
        u32::from(table[at])
    } else {
        49
    }
}

// The number of the punctuator that is this character, where that begins no other one; else 49.
#[inline(always)]
fn lone_number(alone: &[u8], c: char) -> u32
    requires { alone.now ≡ ALONE }
    ensures { result ≡ get_or ALONE c 49 }
{
    number_in(alone, c)
}

// The punctuator of this number that the first character of a text is, which begins no other one.
#[inline]
fn lone_mark<'a>(number: u32, c: char, text: &str, rest: &'a str) -> Punctuator<'a>
    requires here { chars text.now ≡ c ∷ chars rest.now }
    requires told { number ≡ get_or ALONE c 49 }
    requires less { number < 49 }
    ensures mark { IsMark c }
    ensures punctuator { Some (seen_punctuator result) ≡ spec.punctuator_at (chars text.now) }
    ensures cut { (0 < result.cut.length) × IsCut text.now result.cut }
{
    let _text = text;
    Punctuator {
        number,
        cut: Cut { length: 1, rest },
    }
}

// The same of one that begins others too, where the next character goes on in none.
#[inline]
fn short_mark<'a>(
    number: u32,
    c: char,
    next: char,
    text: &str,
    rest: &'a str,
    more: &str,
) -> Punctuator<'a>
    requires here { chars text.now ≡ c ∷ chars rest.now }
    requires behind_it { chars rest.now ≡ next ∷ chars more.now }
    requires ends { goes_on next ≡ false }
    requires told { number ≡ get_or SHORTEST c 49 }
    requires less { number < 49 }
    ensures punctuator { Some (seen_punctuator result) ≡ spec.punctuator_at (chars text.now) }
    ensures cut { (0 < result.cut.length) × IsCut text.now result.cut }
{
    let _text = text;
    let _more = more;
    Punctuator {
        number,
        cut: Cut { length: 1, rest },
    }
}

/// The punctuator that the first character of a text is, where that begins nothing else.
#[inline(always)]
pub fn lone_punctuator<'a>(c: char, text: &str, rest: &'a str) -> Option<Punctuator<'a>>
    requires { chars text.now ≡ c ∷ chars rest.now }
    ensures mark { IfSome result (λ _. IsMark c) }
    ensures punctuator { IfSome result (λ found. Some (seen_punctuator found) ≡ spec.punctuator_at (chars text.now)) }
    ensures cut { IfSome result (λ found. (0 < found.cut.length) × IsCut text.now found.cut) }
{
    let number = lone_number(&ALONE, c);
    if number < 49 {
        Some(lone_mark(number, c, text, rest))
    } else {
        None
    }
}

// A punctuator of one character, where that character or the one behind it tells that it is no longer one.
#[inline(always)]
fn told_by_one<'a>(alone: &[u8], shortest: &[u8], text: &'a str) -> Option<Punctuator<'a>>
    requires alone { alone.now ≡ ALONE }
    requires shortest { shortest.now ≡ SHORTEST }
    ensures punctuator { IfSome result (λ found. Some (seen_punctuator found) ≡ spec.punctuator_at (chars text.now)) }
    ensures cut { IfSome result (λ found. (0 < found.cut.length) × IsCut text.now found.cut) }
{
    let (c, rest) = split_ascii(text)?;
    let lone = number_in(alone, c);
    if lone < 49 {
        return Some(lone_mark(lone, c, text, rest));
    }
    let (next, more) = split_ascii(rest)?;
    if goes_on(next) {
        return None;
    }
    let short = number_in(shortest, c);
    if short < 49 {
        Some(short_mark(short, c, next, text, rest, more))
    } else {
        None
    }
}

// The number of the punctuator that is this character and `=`, or 49.
#[inline]
fn number_with_equal(with_equal: &[u8], c: char) -> u32
    requires { with_equal.now ≡ WITH_EQUAL }
    ensures { result < 49 → IsOfTwo c 61 result }
{
    number_in(with_equal, c)
}

// The number of the punctuator that is this character twice, or 49.
#[inline]
fn number_doubled(doubled: &[u8], c: char) -> u32
    requires { doubled.now ≡ DOUBLED }
    ensures { result < 49 → IsOfTwo c c result }
{
    number_in(doubled, c)
}

// The number of the punctuator that is `-` and this character, where it is `->`, or 49.
#[inline]
fn number_of_arrow(next: char) -> u32
    ensures { result < 49 → IsOfTwo 45 next result }
{
    if next == '>' { ARROW } else { 49 }
}

// The number of the punctuator that is these two characters, or 49 where it is left to the search.
#[inline]
fn number_of_two(with_equal: &[u8], doubled: &[u8], c: char, next: char) -> u32
    requires with_equal { with_equal.now ≡ WITH_EQUAL }
    requires doubled { doubled.now ≡ DOUBLED }
    ensures { result < 49 → IsOfTwo c next result }
{
    if next == '=' {
        number_with_equal(with_equal, c)
    } else if next == c {
        number_doubled(doubled, c)
    } else if c == '-' {
        number_of_arrow(next)
    } else {
        49
    }
}

// The punctuator of this number that the first two characters of a text are, where no `=` stands behind them.
#[inline]
fn two_mark<'a>(
    number: u32,
    c: char,
    next: char,
    third: char,
    text: &str,
    rest: &str,
    behind: &'a str,
    more: &str,
) -> Punctuator<'a>
    requires here { chars text.now ≡ c ∷ chars rest.now }
    requires behind_it { chars rest.now ≡ next ∷ chars behind.now }
    requires last { chars behind.now ≡ third ∷ chars more.now }
    requires ends { third ≢ 61 }
    requires told { number < 49 → IsOfTwo c next number }
    requires less { number < 49 }
    ensures punctuator { Some (seen_punctuator result) ≡ spec.punctuator_at (chars text.now) }
    ensures cut { (0 < result.cut.length) × IsCut text.now result.cut }
{
    let _text = text;
    let _rest = rest;
    let _more = more;
    Punctuator {
        number,
        cut: Cut {
            length: 2,
            rest: behind,
        },
    }
}

// A punctuator of two characters, where what follows them is no `=`, so that it is no longer one.
#[inline(always)]
fn told_by_two<'a>(with_equal: &[u8], doubled: &[u8], text: &'a str) -> Option<Punctuator<'a>>
    requires with_equal { with_equal.now ≡ WITH_EQUAL }
    requires doubled { doubled.now ≡ DOUBLED }
    ensures punctuator { IfSome result (λ found. Some (seen_punctuator found) ≡ spec.punctuator_at (chars text.now)) }
    ensures cut { IfSome result (λ found. (0 < found.cut.length) × IsCut text.now found.cut) }
{
    let (c, rest) = split_ascii(text)?;
    let (next, behind) = split_ascii(rest)?;
    let (third, more) = split_ascii(behind)?;
    let number = number_of_two(with_equal, doubled, c, next);
    if number < 49 {
        if third == '=' {
            return None;
        }
        return Some(two_mark(number, c, next, third, text, rest, behind, more));
    }
    None
}

/// The punctuator at the front of a text, where its first characters and the one behind them tell it.
#[inline(always)]
pub fn short_punctuator_at(text: &str) -> Option<Punctuator<'_>>
    ensures punctuator { IfSome result (λ found. Some (seen_punctuator found) ≡ spec.punctuator_at (chars text.now)) }
    ensures cut { IfSome result (λ found. (0 < found.cut.length) × IsCut text.now found.cut) }
{
    match told_by_one(&ALONE, &SHORTEST, text) {
        Some(found) => Some(found),
        None => told_by_two(&WITH_EQUAL, &DOUBLED, text),
    }
}

/// The punctuator at the front of a text.
#[inline]
pub fn punctuator_at(text: &str) -> Option<Punctuator<'_>>
    ensures punctuator { seen_punctuators result ≡ spec.punctuator_at (chars text.now) }
    ensures cut { IfSome result (λ found. (0 < found.cut.length) × IsCut text.now found.cut) }
{
    match short_punctuator_at(text) {
        Some(found) => Some(found),
        None => searched(text),
    }
}
