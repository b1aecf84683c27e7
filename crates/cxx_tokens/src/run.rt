//! Runs of characters of one class.

ghost use Rattle.std.specs.Prelude.{◌≡◌, false, nat_le, chars, min, IfSome};
ghost use Rattle.std.specs.List.{prefix_len};
ghost use Rattle.cxx_tokens.specs.Characters.{first_is};
ghost use Rattle.cxx_tokens.specs.Cuts.{IsCut, class_test, is_ascii_in};
ghost use Rattle.cxx_tokens.specs.Gaps.{past};
ghost use Rattle.cxx_tokens.specs.declared.run.TheConstants.{CONTINUES};

use crate::character::{continues_identifier, is_blank};
use crate::text::{Cut, behind_ascii, split_first};

/// The classes of characters over which a text is scanned.
#[derive(Clone, Copy, Debug)]
pub enum Class {
    /// What an identifier goes on with.
    Continuing,
    /// White space within a line.
    Blank,
    /// All but the line feed.
    InLine,
    /// All but the double quote.
    NoQuote,
    /// What stands for itself in a string: no double quote, no backslash and no line feed.
    Plain,
    /// `0` to `9`.
    Digit,
    /// `0` to `7`.
    Octal,
    /// `0` to `9`, and `a` to `f` in either case.
    Hexadecimal,
}

#[inline]
fn is_in(class: Class, c: char) -> bool
    ensures { result ≡ class_test class c }
{
    match class {
        Class::Continuing => continues_identifier(c),
        Class::Blank => is_blank(c),
        Class::InLine => c != '\n',
        Class::NoQuote => c != '"',
        Class::Plain => c != '"' && (c != '\\' && c != '\n'),
        Class::Digit => c.is_ascii_digit(),
        Class::Octal => c.is_digit(8),
        Class::Hexadecimal => c.is_digit(16),
    }
}

/// The longest run of characters of the class at the front of a text, of at most so many.
#[inline(always)]
pub fn run_of_at_most<'a>(most: usize, class: Class, text: &'a str) -> Cut<'a>
    ensures length { result.length ≡ min most (prefix_len (class_test class) (chars text.now)) }
    ensures cut { IsCut text.now result }
{
    let mut length = 0;
    let mut rest = text;
    while length < most {
        match split_first(rest) {
            Some((c, after)) if is_in(class, c) => {
                length += 1;
                rest = after;
            }
            _ => break,
        }
    }
    Cut { length, rest }
}

#[inline]
fn is_byte_in(class: Class, byte: u8) -> bool
    ensures { result ≡ is_ascii_in class byte }
{
    byte < 0x80 && is_in(class, char::from(byte))
}

// The ASCII run of a class. Those that are long in most texts have a loop of their own, in which the class is known.
fn run_of(class: Class, bytes: &[u8]) -> usize
    ensures { result ≡ prefix_len (is_ascii_in class) bytes.now }
{
    let mut end = 0;
    while end < bytes.len() && is_byte_in(class, bytes[end]) {
        end += 1;
    }
    end
}

// Whether each byte is an ASCII character with which an identifier goes on.
const CONTINUES: [bool; 256] = [
    false, false, false, false, false, false, false, false, false, false, false, false, false,
    false, false, false, false, false, false, false, false, false, false, false, false, false,
    false, false, false, false, false, false, false, false, false, false, false, false, false,
    false, false, false, false, false, false, false, false, false, true, true, true, true, true,
    true, true, true, true, true, false, false, false, false, false, false, false, true, true,
    true, true, true, true, true, true, true, true, true, true, true, true, true, true, true, true,
    true, true, true, true, true, true, true, true, false, false, false, false, true, false, true,
    true, true, true, true, true, true, true, true, true, true, true, true, true, true, true, true,
    true, true, true, true, true, true, true, true, true, false, false, false, false, false, false,
    false, false, false, false, false, false, false, false, false, false, false, false, false,
    false, false, false, false, false, false, false, false, false, false, false, false, false,
    false, false, false, false, false, false, false, false, false, false, false, false, false,
    false, false, false, false, false, false, false, false, false, false, false, false, false,
    false, false, false, false, false, false, false, false, false, false, false, false, false,
    false, false, false, false, false, false, false, false, false, false, false, false, false,
    false, false, false, false, false, false, false, false, false, false, false, false, false,
    false, false, false, false, false, false, false, false, false, false, false, false, false,
    false, false, false, false, false, false, false, false, false, false, false, false, false,
    false, false, false, false, false, false, false, false, false, false,
];

// The run of those with which an identifier goes on, by their table.
#[inline(always)]
fn continuing_run(continues: &[bool], bytes: &[u8]) -> usize
    requires { continues.now ≡ CONTINUES }
    ensures { result ≡ prefix_len (is_ascii_in Class.Continuing) bytes.now }
{
    let mut end = 0;
    while end < bytes.len() && in_table(continues, bytes[end]) {
        end += 1;
    }
    end
}

// Whether the table says so of a byte.
#[inline(always)]
fn in_table(continues: &[bool], byte: u8) -> bool
    requires { continues.now ≡ CONTINUES }
    ensures { result ≡ is_ascii_in Class.Continuing byte }
{
    let at = byte as usize;
    if at < continues.len() {
        continues[at]
    } else {
        false
    }
}

fn in_line_run(bytes: &[u8]) -> usize
    ensures { result ≡ prefix_len (is_ascii_in Class.InLine) bytes.now }
{
    let mut end = 0;
    while end < bytes.len() && is_byte_in(Class::InLine, bytes[end]) {
        end += 1;
    }
    end
}

fn plain_run(bytes: &[u8]) -> usize
    ensures { result ≡ prefix_len (is_ascii_in Class.Plain) bytes.now }
{
    let mut end = 0;
    while end < bytes.len() && is_byte_in(Class::Plain, bytes[end]) {
        end += 1;
    }
    end
}

/// How many ASCII characters of the class stand at the front of a text, by its bytes.
#[inline(always)]
pub fn ascii_run(class: Class, bytes: &[u8]) -> usize
    ensures { result ≡ prefix_len (is_ascii_in class) bytes.now }
{
    match class {
        Class::Continuing => continuing_run(&CONTINUES, bytes),
        Class::InLine => in_line_run(bytes),
        Class::Blank => run_of(Class::Blank, bytes),
        Class::NoQuote => run_of(Class::NoQuote, bytes),
        Class::Plain => plain_run(bytes),
        Class::Digit => run_of(Class::Digit, bytes),
        Class::Octal => run_of(Class::Octal, bytes),
        Class::Hexadecimal => run_of(Class::Hexadecimal, bytes),
    }
}

// Whether a text begins with a character beyond ASCII, by its bytes.
#[inline]
fn begins_wide(bytes: &[u8]) -> bool
    ensures { result ≡ first_is (λ byte. nat_le 128 byte) bytes.now }
{
    match bytes {
        [byte, ..] => *byte >= 0x80,
        [] => false,
    }
}

// The run behind an ASCII run: none, unless it goes on with a character beyond ASCII.
#[inline(always)]
fn wide_run<'a>(class: Class, text: &'a str) -> Cut<'a>
    requires { first_is (is_ascii_in class) text.now ≡ false }
    ensures length { result.length ≡ prefix_len (class_test class) (chars text.now) }
    ensures cut { IsCut text.now result }
{
    if begins_wide(text.as_bytes()) {
        run_of_at_most(text.len(), class, text)
    } else {
        Cut {
            length: 0,
            rest: text,
        }
    }
}

/// The longest run of characters of the class at the front of a text. As far as they are ASCII they are told by their bytes.
#[inline(always)]
pub fn run<'a>(class: Class, text: &'a str) -> Cut<'a>
    ensures length { result.length ≡ prefix_len (class_test class) (chars text.now) }
    ensures cut { IsCut text.now result }
{
    let count = ascii_run(class, text.as_bytes());
    let rest = behind_ascii(text, count);
    let more = wide_run(class, rest);
    Cut {
        length: count + more.length,
        rest: more.rest,
    }
}

/// The same, where the run is ASCII and no character beyond ASCII stands behind it.
#[inline(always)]
pub fn short_run<'a>(class: Class, text: &'a str) -> Option<Cut<'a>>
    ensures length { IfSome result (λ cut. cut.length ≡ prefix_len (class_test class) (chars text.now)) }
    ensures cut { IfSome result (λ cut. IsCut text.now cut) }
{
    let count = ascii_run(class, text.as_bytes());
    let rest = behind_ascii(text, count);
    if begins_wide(rest.as_bytes()) {
        return None;
    }
    Some(Cut {
        length: count,
        rest,
    })
}

/// What follows the longest run of characters of the class.
pub fn past<'a>(class: Class, text: &'a str) -> &'a str
    ensures { chars result.now ≡ past (class_test class) (chars text.now) }
{
    run(class, text).rest
}
