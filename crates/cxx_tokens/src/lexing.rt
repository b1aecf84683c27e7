//! From bytes to tokens.

ghost use Rattle.std.specs.Prelude.{◌≡◌, ◌≢◌, ℕ, true, false, ◌&&◌, List, [], ◌∷◌, ◌++◌, ◌+◌, ◌≤◌, ◌<◌, ◌^◌, nat_lt, None, Some, Ok, min, chars, length, take, IfOk, IfErr, IfSome, IfNone, OnOk, IsTrue, IsFalse, MatchOption};
ghost use Rattle.std.specs.Char.{is_ascii_digit};
ghost use Rattle.std.specs.Str.{IsUtf8, is_utf8};
ghost use Rattle.std.specs.Prelude.{All};
ghost use Rattle.cxx_base.specs.declared.limits.TheConstants.{MAX_SOURCE};
ghost use Rattle.cxx_base.specs.Texts.{Text, has_text, number_of, with_texts};
ghost use Rattle.cxx_tokens.specs.Characters as characters;
ghost use Rattle.cxx_tokens.specs.Characters.{begins_identifier};
ghost use Rattle.cxx_tokens.specs.Cuts.{IsCut, IsCutBehindOne, seen_punctuator};
ghost use Rattle.cxx_tokens.specs.Gives.{GivesCut, GivesToken, GivesTokens, Keeps};
ghost use Rattle.cxx_tokens.specs.Lex as spec;
ghost use Rattle.cxx_tokens.specs.Literals as literals;
ghost use Rattle.cxx_tokens.specs.Punctuators as punctuators;
ghost use Rattle.cxx_tokens.specs.Turns.{Goes, IsMark, Passes, lexed_on, next_gap};
ghost use Rattle.cxx_tokens.specs.Usable.{IsKnown, Rise};
ghost use Rattle.cxx_tokens.specs.declared.token.Token.{Token};
ghost use Rattle.cxx_tokens.specs.declared.token.TokenKind.TheVariants as kind;

use crate::character::{begins_identifier, continues_identifier, is_blank};
use crate::escape::character_at;
use crate::fault::LexFault;
use crate::gap::{Gap, gap_at};
use crate::integer::{Integer, integer_at};
use crate::punctuator::{Punctuator, lone_punctuator, punctuator_at, short_punctuator_at};
use crate::quoted::string_at;
use crate::recent::Recent;
use crate::run::{Class, past, run, short_run};
use crate::short_number::short_number_at;
use crate::text::{Cut, after, end_of, front, split_ascii, split_first, without_byte_order_mark};
use crate::token::{Token, TokenKind, Tokens};
use crate::word::{key, reserved, reserved_by_key};
use containers::{Boxed, Items};
use cxx_base::{Bytes, MAX_IDENTIFIER, Name, Names, Place, Span};
use int_kinds::literal_kind;
use simdutf8::compat::from_utf8;
use std::alloc::{AllocError, Global};
use unicode_normalization::is_nfc;

/// A token without its place, and what follows it.
#[derive(Debug, Drop)]
struct FoundToken<'a> {
    kind: TokenKind,
    cut: Cut<'a>,
}

/// Where the lexer is, and the line of the token before, which is 0 where there is none.
#[derive(Clone, Copy, Debug)]
struct Position {
    place: Place,
    last: u32,
}

// A word of the list, or an identifier, which is numbered.
#[inline]
fn kind_of_word(names: &mut Names, recent: &mut Recent, text: &str) -> Result<TokenKind, LexFault>
    requires room { length names.old < 2 ^ 24 }
    ensures kind { IfOk result (λ kind. kind ≡ spec.word_kind names.old text.now (spec.reserved text.now)) }
    ensures names { OnOk result (names.new ≡ spec.names_with_word names.old text.now (spec.reserved text.now)) }
    ensures few { length names.new ≤ length names.old + 1 }
    ensures kept { Keeps names.old names.new }
    ensures memory { IfErr result (λ fault. fault ≡ LexFault.Memory) }
{
    match reserved(text.as_bytes()) {
        Some(number) => Ok(TokenKind::Word(number)),
        None => Ok(TokenKind::Identifier(recent.number(names, text)?)),
    }
}

// The first character, and all behind it that continue an identifier.
#[inline(always)]
fn word(text: &str) -> Cut<'_>
    ensures length { result.length ≡ spec.word_len (chars text.now) }
    ensures cut { IsCut text.now result }
{
    match split_first(text) {
        Some((_, rest)) => {
            let more = run(Class::Continuing, rest);
            Cut {
                length: 1 + more.length,
                rest: more.rest,
            }
        }
        None => Cut {
            length: 0,
            rest: text,
        },
    }
}

// Whether a character stands before the combining marks.
#[inline]
fn precedes_marks(c: char) -> bool
    ensures { result ≡ nat_lt c 0x300 }
{
    c < '\u{300}'
}

// Whether all characters stand before the combining marks, which begin at U+0300. Such a text is in normalization form C.
fn is_before_marks(text: &str) -> bool
    ensures { result ≡ characters.is_before_marks (chars text.now) }
{
    let mut rest = text;
    while let Some((c, after)) = split_first(rest) {
        if !precedes_marks(c) {
            return false;
        }
        rest = after;
    }
    true
}

// Whether a word of so many characters is short enough, and in normalization form C, as all ASCII is: that has a byte for each
// character.
#[inline(always)]
fn is_short_and_composed(alloc: Global, word: &str, count: usize) -> Result<bool, AllocError>
    requires { count ≡ length (chars word.now) }
    ensures { IfOk result (λ fit. fit ≡ spec.is_short_and_composed (chars word.now)) }
{
    if word.len() > MAX_IDENTIFIER {
        return Ok(false);
    }
    if word.len() == count {
        return Ok(true);
    }
    if is_before_marks(word) {
        return Ok(true);
    }
    is_nfc(alloc, word)
}

// The word at the front of a text.
#[inline]
fn word_at<'a>(
    alloc: Global,
    names: &mut Names,
    recent: &mut Recent,
    place: Place,
    text: &'a str,
) -> Result<FoundToken<'a>, LexFault>
    requires room { length names.old < 2 ^ 24 }
    ensures found { GivesToken result names.new (spec.word_token place names.old (take (spec.word_len (chars text.now)) (chars text.now))) }
    ensures length { IfOk result (λ found. found.cut.length ≡ spec.word_len (chars text.now)) }
    ensures few { length names.new ≤ length names.old + 1 }
    ensures kept { Keeps names.old names.new }
    ensures cut { IfOk result (λ found. IsCut text.now found.cut) }
{
    let cut = word(text);
    let spelled = front(text, cut.length, cut.rest);
    if !is_short_and_composed(alloc, spelled, cut.length)? {
        return Err(LexFault::L5(place));
    }
    match kind_of_word(names, recent, spelled) {
        Ok(kind) => Ok(FoundToken { kind, cut }),
        Err(fault) => Err(fault),
    }
}

// The kind of an integer literal, if some kind holds its value.
fn integer_kind(found: &Integer<'_>) -> Option<TokenKind>
    requires { found.now.longs ≤ 2 }
    ensures { (value : ℕ) → found.now.value ≡ min value (2 ^ 64) → result ≡ spec.integer_kind found.now.decimal found.now.unsigned found.now.longs value }
{
    if found.value >= 1 << 64 {
        return None;
    }
    let n = found.value as u64;
    literal_kind(found.decimal, found.unsigned, found.longs, n)?;
    Some(TokenKind::Integer {
        decimal: found.decimal,
        unsigned: found.unsigned,
        longs: found.longs,
        n,
    })
}

// The integer literal at the front of a text that begins with a digit.
#[inline(never)]
fn integer_token_at(place: Place, text: &str) -> Result<FoundToken<'_>, LexFault>
    ensures found { (names : List Text) → GivesToken result names (spec.integer_token place names (chars text.now) (literals.integer_at (chars text.now))) }
    ensures cut { IfOk result (λ found. IsCut text.now found.cut) }
    ensures length { IfOk result (λ found. found.cut.length ≡ (literals.integer_at (chars text.now)).length) }
{
    let found = integer_at(text);
    if let Some((next, _)) = split_first(found.cut.rest) {
        if continues_identifier(next) {
            return Err(LexFault::L2(place));
        }
    }
    match integer_kind(&found) {
        Some(kind) => Ok(FoundToken {
            kind,
            cut: found.cut,
        }),
        None => Err(LexFault::L3(place)),
    }
}

// The character literal whose first quote stands before a text.
#[inline(never)]
fn character_token_at(place: Place, text: &str) -> Result<FoundToken<'_>, LexFault>
    ensures found { (names : List Text) → GivesToken result names (spec.character_token place names (literals.character_at (chars text.now))) }
    ensures cut { IfOk result (λ found. IsCutBehindOne text.now found.cut) }
{
    match character_at(text) {
        Some(found) => Ok(FoundToken {
            kind: TokenKind::Character(found.byte),
            cut: behind_one(found.cut),
        }),
        None => Err(LexFault::L2(place)),
    }
}

// The same cut, counted from one character before.
fn behind_one(cut: Cut<'_>) -> Cut<'_>
    requires { cut.length < 2 ^ 63 }
    ensures length { result.length ≡ 1 + cut.entry.length }
    ensures rest { result.rest ≡ cut.entry.rest }
{
    Cut {
        length: 1 + cut.length,
        rest: cut.rest,
    }
}

// Whether a text may be a name.
fn is_name(alloc: Global, text: &str) -> Result<bool, AllocError>
    ensures { IfOk result (λ fit. fit ≡ spec.is_name text.now) }
{
    if !is_identifier(text) {
        return Ok(false);
    }
    match reserved(text.as_bytes()) {
        Some(_) => Ok(false),
        None => is_short_and_composed(alloc, text, text.chars().count()),
    }
}

// The text of bytes that may be a name.
fn name_of(alloc: Global, bytes: &[u8]) -> Result<Option<&str>, AllocError>
    ensures { IfOk result (λ found. MatchOption found ((is_utf8 bytes.now && spec.is_name bytes.now) ≡ false) (λ name. (name.now ≡ bytes.now) × ((is_utf8 bytes.now && spec.is_name bytes.now) ≡ true))) }
{
    match str::from_utf8(bytes) {
        Err(_) => Ok(None),
        Ok(text) => {
            if is_name(alloc, text)? {
                Ok(Some(text))
            } else {
                Ok(None)
            }
        }
    }
}

// Numbers the bytes of a string before its first zero byte, where they may be a name.
fn number_string(alloc: Global, names: &mut Names, bytes: &[u8]) -> Result<(), LexFault>
    requires room { length names.old < 2 ^ 24 }
    ensures names { OnOk result (names.new ≡ spec.names_with_string names.old bytes.now) }
    ensures few { length names.new ≤ length names.old + 1 }
    ensures kept { Keeps names.old names.new }
    ensures memory { IfErr result (λ fault. fault ≡ LexFault.Memory) }
{
    match name_of(alloc, before_zero(bytes)) {
        Ok(Some(name)) => match names.number(name) {
            Ok(_) => Ok(()),
            Err(_) => Err(LexFault::Memory),
        },
        Ok(None) => Ok(()),
        Err(_) => Err(LexFault::Memory),
    }
}

fn before_zero(bytes: &[u8]) -> &[u8]
    ensures { result.now ≡ spec.before_zero bytes.now }
{
    let mut end = 0;
    while end < bytes.len() && bytes[end] != 0 {
        end += 1;
    }
    &bytes[..end]
}

// Whether a text is a beginning of identifiers and what continues them.
fn is_identifier(text: &str) -> bool
    ensures { result ≡ spec.is_identifier (chars text.now) }
{
    match split_first(text) {
        Some((c, rest)) => begins_identifier(c) && past(Class::Continuing, rest).is_empty(),
        None => false,
    }
}

// A string literal with its bytes in a box.
fn text_token(alloc: Global, bytes: Bytes, cut: Cut<'_>) -> Result<FoundToken<'_>, LexFault>
    ensures found { IfOk result (λ found. (found.kind ≡ kind.Text bytes) × (found.cut ≡ cut.entry)) }
    ensures memory { IfErr result (λ fault. fault ≡ LexFault.Memory) }
{
    match Boxed::new(alloc, bytes) {
        Ok(boxed) => Ok(FoundToken {
            kind: TokenKind::Text(boxed),
            cut,
        }),
        Err(_) => Err(LexFault::Memory),
    }
}

// The string literal whose first quote stands before a text.
#[inline(never)]
fn string_token_at<'a>(
    alloc: Global,
    names: &mut Names,
    place: Place,
    text: &'a str,
) -> Result<FoundToken<'a>, LexFault>
    requires room { length names.old < 2 ^ 24 }
    ensures found { GivesToken result names.new (spec.string_token place names.old (chars text.now)) }
    ensures few { length names.new ≤ length names.old + 1 }
    ensures kept { Keeps names.old names.new }
    ensures cut { IfOk result (λ found. IsCutBehindOne text.now found.cut) }
{
    match string_at(alloc, place, text) {
        Ok(found) => match number_string(alloc, names, found.bytes.as_slice()) {
            Ok(()) => text_token(alloc, found.bytes, behind_one(found.cut)),
            Err(fault) => Err(fault),
        },
        Err(fault) => Err(fault),
    }
}

// The punctuator at the front of a text.
#[inline]
fn punctuator_token_at(place: Place, text: &str) -> Result<FoundToken<'_>, LexFault>
    ensures found { (names : List Text) → GivesToken result names (spec.punctuator_token place names (punctuators.punctuator_at (chars text.now))) }
    ensures cut { IfOk result (λ found. (0 < found.cut.length) × IsCut text.now found.cut) }
{
    match punctuator_at(text) {
        Some(found) => Ok(FoundToken {
            kind: TokenKind::Punctuator(found.number),
            cut: found.cut,
        }),
        None => Err(LexFault::L2(place)),
    }
}

// The token at the front of a text.
#[inline(always)]
fn token_at<'a>(
    alloc: Global,
    names: &mut Names,
    recent: &mut Recent,
    place: Place,
    text: &'a str,
) -> Result<FoundToken<'a>, LexFault>
    requires room { length names.old < 2 ^ 24 }
    ensures found { GivesToken result names.new (spec.token_at place names.old (chars text.now)) }
    ensures few { length names.new ≤ length names.old + 1 }
    ensures kept { Keeps names.old names.new }
    ensures cut { IfOk result (λ found. (0 < found.cut.length) × IsCut text.now found.cut) }
{
    match split_first(text) {
        None => Err(LexFault::L2(place)),
        Some((c, rest)) => {
            if begins_identifier(c) {
                word_at(alloc, names, recent, place, text)
            } else if c.is_ascii_digit() {
                integer_token_at(place, text)
            } else if c == '\'' {
                character_token_at(place, rest)
            } else if c == '"' {
                string_token_at(alloc, names, place, rest)
            } else {
                punctuator_token_at(place, text)
            }
        }
    }
}

// The place after so many characters without a line feed. No token has one.
#[inline]
fn in_line(place: Place, count: usize) -> Place
    requires { place.column + count < 2 ^ 32 }
    ensures { result ≡ record { line = place.line; column = place.column + count } }
{
    Place {
        line: place.line,
        column: place.column + count as u32,
    }
}

fn token_from(kind: TokenKind, place: Place, number: u32) -> Token
    requires { number + 1 < 2 ^ 32 }
    ensures { result ≡ spec.token_from kind place number }
{
    let span = Span {
        place,
        first: number,
        end: number + 1,
    };
    Token { kind, span }
}

// Puts the token at the front of a text at the end, and answers what follows it. No gap begins there. Without memory nothing
// changes.
#[inline(always)]
fn put<'a>(
    list: &mut Vec<Token>,
    at: &mut Position,
    kind: TokenKind,
    text: &str,
    cut: Cut<'a>,
) -> Option<&'a str>
    requires some { 0 < cut.length }
    requires cut { IsCut text.now cut }
    requires short { length list.old.items < 2 ^ 31 }
    requires line { at.old.place.line + length (chars text.now) < 2 ^ 32 }
    requires column { at.old.place.column + length (chars text.now) < 2 ^ 32 }
    ensures goes { (before : List Text) (after : List Text) → next_gap at.old (chars text.now) ≡ Ok None
        → spec.token_at at.old.place before (chars text.now) ≡ Ok (record { kind = kind; length = cut.entry.length; names = after })
        → Passes result (lexed_on list.old.items at.old before (chars text.now)) (lexed_on list.new.items at.new after) }
    ensures stays { IfNone result ((list.new.items ≡ list.old.items) × (at.new ≡ at.old)) }
    ensures taken { IfSome result (λ rest. length (chars rest.now) < length (chars text.now)) }
    ensures longer { length list.new.items ≤ length list.old.items + 1 }
    ensures line { IfSome result (λ rest. at.new.place.line + length (chars rest.now) ≤ at.old.place.line + length (chars text.now)) }
    ensures column { IfSome result (λ rest. at.new.place.column + length (chars rest.now) ≤ at.old.place.column + length (chars text.now)) }
{
    let token = token_from(kind, at.place, list.len() as u32);
    match list.push(token) {
        Ok(()) => {}
        Err(_) => return None,
    }
    *at = Position {
        place: in_line(at.place, cut.length),
        last: at.place.line,
    };
    Some(cut.rest)
}

// Passes the gap or the token at the front of a text, and answers what follows it, whatever stands there.
#[inline(never)]
fn any_turn<'a>(
    alloc: Global,
    names: &mut Names,
    recent: &mut Recent,
    list: &mut Vec<Token>,
    at: &mut Position,
    text: &'a str,
) -> Result<&'a str, LexFault>
    requires some { 0 < length text.now }
    requires room { length names.old < 2 ^ 24 }
    requires short { length list.old.items < 2 ^ 31 }
    requires line { at.old.place.line + length (chars text.now) < 2 ^ 32 }
    requires column { at.old.place.column + length (chars text.now) < 2 ^ 32 }
    ensures goes { Goes result (lexed_on list.old.items at.old names.old (chars text.now)) (lexed_on list.new.items at.new names.new) }
    ensures taken { IfOk result (λ rest. length (chars rest.now) < length (chars text.now)) }
    ensures kept { Keeps names.old names.new }
    ensures few { length names.new ≤ length names.old + 1 }
    ensures longer { length list.new.items ≤ length list.old.items + 1 }
    ensures line { IfOk result (λ rest. at.new.place.line + length (chars rest.now) ≤ at.old.place.line + length (chars text.now)) }
    ensures column { IfOk result (λ rest. at.new.place.column + length (chars rest.now) ≤ at.old.place.column + length (chars text.now)) }
{
    match gap_at(at.last != at.place.line, text) {
        Gap::Unended => Err(LexFault::L4(at.place)),
        Gap::InLine(gap) => {
            at.place = in_line(at.place, gap.length);
            Ok(gap.rest)
        }
        Gap::Block(gap) => {
            at.place = after(at.place, text, gap.length);
            Ok(gap.rest)
        }
        Gap::Absent => match token_at(alloc, names, recent, at.place, text) {
            Err(fault) => Err(fault),
            Ok(found) => match put(list, at, found.kind, text, found.cut) {
                Some(rest) => Ok(rest),
                None => Err(LexFault::Memory),
            },
        },
    }
}

// Whether a word has a byte for each of its characters, so that it is ASCII, and is short enough.
#[inline(always)]
fn is_short_ascii(word: &str, count: usize) -> bool
    requires { count ≡ length (chars word.now) }
    ensures { IsTrue result → spec.is_short_and_composed (chars word.now) ≡ true }
{
    if word.len() > MAX_IDENTIFIER {
        return false;
    }
    if word.len() == count {
        return true;
    }
    false
}

// The word of a character and what is behind it, where that is ASCII.
#[inline(always)]
fn ascii_word<'a>(c: char, text: &str, behind: &'a str) -> Option<Cut<'a>>
    requires { chars text.now ≡ c ∷ chars behind.now }
    ensures length { IfSome result (λ cut. cut.length ≡ spec.word_len (chars text.now)) }
    ensures cut { IfSome result (λ cut. IsCut text.now cut) }
{
    let _c = c;
    let _text = text;
    match short_run(Class::Continuing, behind) {
        Some(more) => Some(Cut {
            length: 1 + more.length,
            rest: more.rest,
        }),
        None => None,
    }
}

// Passes a word of the list, which has this number.
#[inline(always)]
fn put_listed<'a>(
    names: &Names,
    list: &mut Vec<Token>,
    at: &mut Position,
    c: char,
    text: &str,
    behind: &str,
    cut: Cut<'a>,
    spelled: &str,
    number: u32,
) -> Option<&'a str>
    requires here { chars text.now ≡ c ∷ chars behind.now }
    requires word { begins_identifier c ≡ true }
    requires no_gap { 64 < c }
    requires length { cut.length ≡ spec.word_len (chars text.now) }
    requires cut { IsCut text.now cut }
    requires spelled { chars spelled.now ≡ take cut.length (chars text.now) }
    requires fit { spec.is_short_and_composed (chars spelled.now) ≡ true }
    requires told { Some number ≡ spec.reserved spelled.now }
    requires short { length list.old.items < 2 ^ 31 }
    requires line { at.old.place.line + length (chars text.now) < 2 ^ 32 }
    requires column { at.old.place.column + length (chars text.now) < 2 ^ 32 }
    ensures goes { Passes result (lexed_on list.old.items at.old names.now (chars text.now)) (lexed_on list.new.items at.new names.now) }
    ensures stays { IfNone result ((list.new.items ≡ list.old.items) × (at.new ≡ at.old)) }
    ensures taken { IfSome result (λ rest. length (chars rest.now) < length (chars text.now)) }
    ensures longer { length list.new.items ≤ length list.old.items + 1 }
    ensures line { IfSome result (λ rest. at.new.place.line + length (chars rest.now) ≤ at.old.place.line + length (chars text.now)) }
    ensures column { IfSome result (λ rest. at.new.place.column + length (chars rest.now) ≤ at.old.place.column + length (chars text.now)) }
{
    let _names = names;
    let _c = c;
    let _behind = behind;
    let _spelled = spelled;
    put(list, at, TokenKind::Word(number), text, cut)
}

// Passes an identifier that is among the names, with this number.
#[inline(always)]
fn put_held<'a>(
    names: &Names,
    list: &mut Vec<Token>,
    at: &mut Position,
    c: char,
    text: &str,
    behind: &str,
    cut: Cut<'a>,
    spelled: &str,
    number: u32,
) -> Option<&'a str>
    requires here { chars text.now ≡ c ∷ chars behind.now }
    requires word { begins_identifier c ≡ true }
    requires no_gap { 64 < c }
    requires length { cut.length ≡ spec.word_len (chars text.now) }
    requires cut { IsCut text.now cut }
    requires spelled { chars spelled.now ≡ take cut.length (chars text.now) }
    requires fit { spec.is_short_and_composed (chars spelled.now) ≡ true }
    requires told { None ≡ spec.reserved spelled.now }
    requires number { number ≡ number_of names.now spelled.now }
    requires held { has_text names.now spelled.now ≡ true }
    requires short { length list.old.items < 2 ^ 31 }
    requires line { at.old.place.line + length (chars text.now) < 2 ^ 32 }
    requires column { at.old.place.column + length (chars text.now) < 2 ^ 32 }
    ensures goes { Passes result (lexed_on list.old.items at.old names.now (chars text.now)) (lexed_on list.new.items at.new names.now) }
    ensures stays { IfNone result ((list.new.items ≡ list.old.items) × (at.new ≡ at.old)) }
    ensures taken { IfSome result (λ rest. length (chars rest.now) < length (chars text.now)) }
    ensures longer { length list.new.items ≤ length list.old.items + 1 }
    ensures line { IfSome result (λ rest. at.new.place.line + length (chars rest.now) ≤ at.old.place.line + length (chars text.now)) }
    ensures column { IfSome result (λ rest. at.new.place.column + length (chars rest.now) ≤ at.old.place.column + length (chars text.now)) }
{
    let _names = names;
    let _c = c;
    let _behind = behind;
    let _spelled = spelled;
    put(list, at, TokenKind::Identifier(Name(number)), text, cut)
}

// Passes a word that begins with an ASCII letter or `_`, where it is ASCII and one of the list, or was used before.
#[inline(always)]
fn word_pass<'a>(
    names: &Names,
    recent: &Recent,
    list: &mut Vec<Token>,
    at: &mut Position,
    c: char,
    text: &'a str,
    behind: &'a str,
) -> Option<&'a str>
    requires here { chars text.now ≡ c ∷ chars behind.now }
    requires word { begins_identifier c ≡ true }
    requires no_gap { 64 < c }
    requires short { length list.old.items < 2 ^ 31 }
    requires line { at.old.place.line + length (chars text.now) < 2 ^ 32 }
    requires column { at.old.place.column + length (chars text.now) < 2 ^ 32 }
    ensures goes { Passes result (lexed_on list.old.items at.old names.now (chars text.now)) (lexed_on list.new.items at.new names.now) }
    ensures stays { IfNone result ((list.new.items ≡ list.old.items) × (at.new ≡ at.old)) }
    ensures taken { IfSome result (λ rest. length (chars rest.now) < length (chars text.now)) }
    ensures longer { length list.new.items ≤ length list.old.items + 1 }
    ensures line { IfSome result (λ rest. at.new.place.line + length (chars rest.now) ≤ at.old.place.line + length (chars text.now)) }
    ensures column { IfSome result (λ rest. at.new.place.column + length (chars rest.now) ≤ at.old.place.column + length (chars text.now)) }
{
    let cut = ascii_word(c, text, behind)?;
    let spelled = front(text, cut.length, cut.rest);
    if !is_short_ascii(spelled, cut.length) {
        return None;
    }
    let key = key(spelled.as_bytes());
    match reserved_by_key(key, spelled.as_bytes()) {
        Some(number) => put_listed(names, list, at, c, text, behind, cut, spelled, number),
        None => match recent.find(names, key, spelled) {
            Some(name) => put_held(names, list, at, c, text, behind, cut, spelled, name.0),
            None => None,
        },
    }
}

// Passes a punctuator that is told without a search, and begins with no character with which anything else begins.
#[inline(always)]
fn mark_pass<'a>(
    names: &Names,
    list: &mut Vec<Token>,
    at: &mut Position,
    c: char,
    text: &'a str,
    behind: &str,
) -> Option<&'a str>
    requires here { chars text.now ≡ c ∷ chars behind.now }
    requires mark { IsMark c }
    requires short { length list.old.items < 2 ^ 31 }
    requires line { at.old.place.line + length (chars text.now) < 2 ^ 32 }
    requires column { at.old.place.column + length (chars text.now) < 2 ^ 32 }
    ensures goes { Passes result (lexed_on list.old.items at.old names.now (chars text.now)) (lexed_on list.new.items at.new names.now) }
    ensures stays { IfNone result ((list.new.items ≡ list.old.items) × (at.new ≡ at.old)) }
    ensures taken { IfSome result (λ rest. length (chars rest.now) < length (chars text.now)) }
    ensures longer { length list.new.items ≤ length list.old.items + 1 }
    ensures line { IfSome result (λ rest. at.new.place.line + length (chars rest.now) ≤ at.old.place.line + length (chars text.now)) }
    ensures column { IfSome result (λ rest. at.new.place.column + length (chars rest.now) ≤ at.old.place.column + length (chars text.now)) }
{
    match short_punctuator_at(text) {
        Some(found) => put_mark(names, list, at, c, text, behind, found),
        None => None,
    }
}

// Passes this punctuator.
#[inline(always)]
fn put_mark<'a>(
    names: &Names,
    list: &mut Vec<Token>,
    at: &mut Position,
    c: char,
    text: &str,
    behind: &str,
    found: Punctuator<'a>,
) -> Option<&'a str>
    requires here { chars text.now ≡ c ∷ chars behind.now }
    requires mark { IsMark c }
    requires found { Some (seen_punctuator found) ≡ punctuators.punctuator_at (chars text.now) }
    requires some { 0 < found.cut.length }
    requires cut { IsCut text.now found.cut }
    requires short { length list.old.items < 2 ^ 31 }
    requires line { at.old.place.line + length (chars text.now) < 2 ^ 32 }
    requires column { at.old.place.column + length (chars text.now) < 2 ^ 32 }
    ensures goes { Passes result (lexed_on list.old.items at.old names.now (chars text.now)) (lexed_on list.new.items at.new names.now) }
    ensures stays { IfNone result ((list.new.items ≡ list.old.items) × (at.new ≡ at.old)) }
    ensures taken { IfSome result (λ rest. length (chars rest.now) < length (chars text.now)) }
    ensures longer { length list.new.items ≤ length list.old.items + 1 }
    ensures line { IfSome result (λ rest. at.new.place.line + length (chars rest.now) ≤ at.old.place.line + length (chars text.now)) }
    ensures column { IfSome result (λ rest. at.new.place.column + length (chars rest.now) ≤ at.old.place.column + length (chars text.now)) }
{
    let _names = names;
    let _c = c;
    let _behind = behind;
    put(
        list,
        at,
        TokenKind::Punctuator(found.number),
        text,
        found.cut,
    )
}

// Passes a number that is a zero or a small decimal one.
#[inline(always)]
fn number_pass<'a>(
    names: &Names,
    list: &mut Vec<Token>,
    at: &mut Position,
    c: char,
    text: &'a str,
    behind: &str,
) -> Option<&'a str>
    requires here { chars text.now ≡ c ∷ chars behind.now }
    requires digit { is_ascii_digit c ≡ true }
    requires short { length list.old.items < 2 ^ 31 }
    requires line { at.old.place.line + length (chars text.now) < 2 ^ 32 }
    requires column { at.old.place.column + length (chars text.now) < 2 ^ 32 }
    ensures goes { Passes result (lexed_on list.old.items at.old names.now (chars text.now)) (lexed_on list.new.items at.new names.now) }
    ensures stays { IfNone result ((list.new.items ≡ list.old.items) × (at.new ≡ at.old)) }
    ensures taken { IfSome result (λ rest. length (chars rest.now) < length (chars text.now)) }
    ensures longer { length list.new.items ≤ length list.old.items + 1 }
    ensures line { IfSome result (λ rest. at.new.place.line + length (chars rest.now) ≤ at.old.place.line + length (chars text.now)) }
    ensures column { IfSome result (λ rest. at.new.place.column + length (chars rest.now) ≤ at.old.place.column + length (chars text.now)) }
{
    let _names = names;
    let _behind = behind;
    match short_number_at(text) {
        None => None,
        Some(found) => match short_kind(found.decimal, found.value) {
            None => None,
            Some(kind) => put(list, at, kind, text, found.cut),
        },
    }
}

// The kind of a token of such a number, if some kind of integers holds it, as it always does.
#[inline(always)]
fn short_kind(decimal: bool, value: u64) -> Option<TokenKind>
    ensures { IfSome result (λ kind. Some kind ≡ spec.integer_kind decimal false 0 value) }
{
    match literal_kind(decimal, false, 0, value) {
        Some(_) => Some(TokenKind::Integer {
            decimal,
            unsigned: false,
            longs: 0,
            n: value,
        }),
        None => None,
    }
}

// Whether a character is an ASCII letter or `_`.
#[inline(always)]
#[tactic(auto, using(crate::proofs::Passing::letter_is_far))]
fn is_letter(c: char) -> bool
    ensures letter { IsTrue result → (begins_identifier c ≡ true) × (64 < c) }
    ensures other { IsFalse result → c < 128 → begins_identifier c ≡ false }
{
    c <= '\x7f' && begins_identifier(c)
}

// Whether only a punctuator begins with the character, and no comment.
#[inline(always)]
fn is_mark(c: char) -> bool
    requires no_word { c < 128 → begins_identifier c ≡ false }
    requires no_digit { is_ascii_digit c ≡ false }
    ensures { IsTrue result → IsMark c }
{
    ' ' < c && c <= '\x7f' && c != '"' && c != '#' && c != '\'' && c != '/'
}

// Passes a white-space character within a line, which is a gap.
#[inline(always)]
fn space_pass(at: &mut Position, c: char, text: &str, behind: &str)
    requires here { chars text.now ≡ c ∷ chars behind.now }
    requires blank { characters.is_blank c ≡ true }
    requires other { c ≢ 10 }
    requires line { at.old.place.line + length (chars text.now) < 2 ^ 32 }
    requires column { at.old.place.column + length (chars text.now) < 2 ^ 32 }
    ensures goes { (list : List Token) (names : List Text) → lexed_on list at.old names (chars text.now) ≡ lexed_on list at.new names (chars behind.now) }
    ensures line { at.new.place.line + length (chars behind.now) ≤ at.old.place.line + length (chars text.now) }
    ensures column { at.new.place.column + length (chars behind.now) ≤ at.old.place.column + length (chars text.now) }
{
    let _c = c;
    let _text = text;
    let _behind = behind;
    at.place = in_line(at.place, 1);
}

// Passes a line feed, which is a gap.
#[inline(always)]
fn line_pass(at: &mut Position, text: &str, behind: &str)
    requires here { chars text.now ≡ 10 ∷ chars behind.now }
    requires line { at.old.place.line + length (chars text.now) < 2 ^ 32 }
    requires column { at.old.place.column + length (chars text.now) < 2 ^ 32 }
    ensures goes { (list : List Token) (names : List Text) → lexed_on list at.old names (chars text.now) ≡ lexed_on list at.new names (chars behind.now) }
    ensures line { at.new.place.line + length (chars behind.now) ≤ at.old.place.line + length (chars text.now) }
    ensures column { at.new.place.column + length (chars behind.now) ≤ at.old.place.column + length (chars text.now) }
{
    let _text = text;
    let _behind = behind;
    at.place = next_line(at.place);
}

// The start of the next line.
#[inline(always)]
fn next_line(place: Place) -> Place
    requires { place.line + 1 < 2 ^ 32 }
    ensures { result ≡ record { line = place.line + 1; column = 1 } }
{
    Place {
        line: place.line + 1,
        column: 1,
    }
}

// Passes the gap or the token at the front of a text, where it is told by few characters: white space, most words and punctuators
// are. Nothing else changes.
#[inline(always)]
fn quick<'a>(
    names: &Names,
    recent: &Recent,
    list: &mut Vec<Token>,
    at: &mut Position,
    text: &'a str,
) -> Option<&'a str>
    requires short { length list.old.items < 2 ^ 31 }
    requires line { at.old.place.line + length (chars text.now) < 2 ^ 32 }
    requires column { at.old.place.column + length (chars text.now) < 2 ^ 32 }
    ensures goes { Passes result (lexed_on list.old.items at.old names.now (chars text.now)) (lexed_on list.new.items at.new names.now) }
    ensures stays { IfNone result ((list.new.items ≡ list.old.items) × (at.new ≡ at.old)) }
    ensures taken { IfSome result (λ rest. length (chars rest.now) < length (chars text.now)) }
    ensures longer { length list.new.items ≤ length list.old.items + 1 }
    ensures line { IfSome result (λ rest. at.new.place.line + length (chars rest.now) ≤ at.old.place.line + length (chars text.now)) }
    ensures column { IfSome result (λ rest. at.new.place.column + length (chars rest.now) ≤ at.old.place.column + length (chars text.now)) }
{
    let (c, behind) = split_ascii(text)?;
    if c == ' ' {
        space_pass(at, c, text, behind);
        Some(behind)
    } else if let Some(found) = lone_punctuator(c, text, behind) {
        put_mark(names, list, at, c, text, behind, found)
    } else if is_letter(c) {
        word_pass(names, recent, list, at, c, text, behind)
    } else if c.is_ascii_digit() {
        number_pass(names, list, at, c, text, behind)
    } else if is_mark(c) {
        mark_pass(names, list, at, c, text, behind)
    } else if c == '\n' {
        line_pass(at, text, behind);
        Some(behind)
    } else if is_blank(c) {
        space_pass(at, c, text, behind);
        Some(behind)
    } else {
        None
    }
}

// An injected class may need these names, and no source has to write them.
fn number_members(names: &mut Names) -> Result<(), LexFault>
    requires { length names.old + 2 ≤ 2 ^ 24 }
    ensures names { OnOk result (names.new ≡ with_texts names.old spec.members) }
    ensures kept { Keeps names.old names.new }
    ensures memory { IfErr result (λ fault. fault ≡ LexFault.Memory) }
{
    names.number("bytes")?;
    names.number("bits")?;
    Ok(())
}

// The tokens of a text without a byte order mark.
fn tokens_of(alloc: Global, names: &mut Names, text: &str) -> Result<Tokens, LexFault>
    requires short { length (chars text.now) ≤ MAX_SOURCE }
    requires room { length names.old < 2 ^ 23 }
    ensures tokens { GivesTokens result names.new (spec.lex_characters names.old (chars text.now)) }
    ensures few { IfOk result (λ found. length found.list ≤ length (chars text.now)) }
    ensures kept { Keeps names.old names.new }
{
    let mut list = Vec::new(alloc);
    let mut recent = Recent::new();
    let mut at = Position {
        place: Place::START,
        last: 0,
    };
    let mut rest = text;
    while !rest.is_empty() {
        match quick(names, &recent, &mut list, &mut at, rest) {
            Some(behind) => rest = behind,
            None => {
                let mut here = at;
                match any_turn(alloc, names, &mut recent, &mut list, &mut here, rest) {
                    Ok(behind) => rest = behind,
                    Err(fault) => return Err(fault),
                }
                at = here;
            }
        }
    }
    number_members(names)?;
    Ok(Tokens {
        list: Items::from_vec(list),
        end: at.place,
    })
}

// The place of the first byte that begins no character, which stands behind so many bytes.
fn fault_place(bytes: &[u8], valid: usize) -> Place
    requires short { length bytes.now ≤ MAX_SOURCE }
    requires within { valid ≤ length bytes.now }
    requires utf8 { IsUtf8 (take valid bytes.now) }
    ensures { result ≡ characters.after_all characters.start (characters.without_byte_order_mark (chars (take valid bytes.now))) }
{
    match str::from_utf8(&bytes[..valid]) {
        Ok(text) => end_of(without_byte_order_mark(text)),
        Err(_) => unreachable!(),
    }
}

// The tokens of a source, by the scan of its characters.
fn scanned(alloc: Global, names: &mut Names, bytes: &[u8]) -> Result<Tokens, LexFault>
    requires short { length bytes.now ≤ MAX_SOURCE }
    requires room { length names.old < 2 ^ 23 }
    ensures tokens { GivesTokens result names.new (spec.lex names.old bytes.now) }
    ensures kept { Keeps names.old names.new }
{
    match from_utf8(bytes) {
        Ok(text) => tokens_of(alloc, names, without_byte_order_mark(text)),
        Err(fault) => Err(LexFault::L1(fault_place(bytes, fault.valid_up_to()))),
    }
}

/// The tokens of a source text ([lex]): those of its one cut into gaps and tokens. Each identifier is numbered in `names`, of each
/// string the bytes before its first zero byte where they may be a name, and then `bytes` and `bits`. A source that is not UTF-8 is
/// refused `L1` at the first byte that begins no character; another one where its cut cannot go on. After a refusal `names` may
/// hold more texts than before.
pub fn tokens(alloc: Global, names: &mut Names, bytes: &[u8]) -> Result<Tokens, LexFault>
    requires short { length bytes.now ≤ MAX_SOURCE }
    requires room { length names.old < 2 ^ 23 }
    ensures cut { GivesCut result names.old names.new bytes.now }
    ensures known { IfOk result (λ found. All (λ token. IsKnown names.new token.kind) found.list) }
    ensures members { IfOk result (λ _. All (λ text. has_text names.new text ≡ true) spec.members) }
    ensures rise { IfOk result (λ found. Rise found.list found.end) }
    ensures few { IfOk result (λ found. length found.list ≤ length (characters.characters_of bytes.now)) }
    ensures kept { Keeps names.old names.new }
    ensures tokens { GivesTokens result names.new (spec.lex names.old bytes.now) }
{
    scanned(alloc, names, bytes)
}
