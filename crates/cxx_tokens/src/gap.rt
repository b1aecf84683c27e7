//! Gaps: white space, comments, and the lines that a preprocessor leaves ([lex.token], [lex.comment]).

ghost use Rattle.std.specs.Prelude.{◌≡◌, ◌<◌, chars, IfSome, Ok};
ghost use Rattle.cxx_base.specs.declared.place.Place.{Place};
ghost use Rattle.cxx_tokens.specs.Cuts.{IfPassed, IsCut, IsCutBehindOne, IsFlat, IsFlatBehindOne, length_of, seen_gap};
ghost use Rattle.cxx_tokens.specs.Gaps as spec;

use crate::character::{is_blank, is_space};
use crate::run::{Class, past, run};
use crate::text::{Cut, front, split_first, strip};

// The end of a comment `/*`: the first `*/` of what follows.
fn block_end(text: &str) -> Option<Cut<'_>>
    ensures length { length_of result ≡ spec.block_len (chars text.now) }
    ensures cut { IfSome result (IsCut text.now) }
{
    let mut length = 0;
    let mut rest = text;
    while let Some((c, after)) = split_first(rest) {
        if c == '*' {
            if let Some(behind) = strip(b"/", after) {
                return Some(Cut {
                    length: length + 2,
                    rest: behind,
                });
            }
        }
        length += 1;
        rest = after;
    }
    None
}

/// Whether a gap stands at the front of a text, and where it ends.
#[derive(Clone, Copy, Debug)]
pub enum Gap<'a> {
    /// No gap begins here.
    Absent,
    /// One without a line feed, and where it ends.
    InLine(Cut<'a>),
    /// Another one, and where it ends.
    Block(Cut<'a>),
    /// A comment that does not end.
    Unended,
}

// The comment behind a slash, with the slash.
#[inline(never)]
fn comment_at(text: &str) -> Gap<'_>
    ensures length { (place : Place) → seen_gap place result ≡ spec.comment_at place (chars text.now) }
    ensures cut { IfPassed (IsCutBehindOne text.now) result }
    ensures flat { IsFlatBehindOne text.now result }
{
    if let Some(rest) = strip(b"/", text) {
        let line = run(Class::InLine, rest);
        return Gap::InLine(Cut {
            length: 2 + line.length,
            rest: line.rest,
        });
    }
    if let Some(rest) = strip(b"*", text) {
        return match block_end(rest) {
            Some(block) => Gap::Block(Cut {
                length: 2 + block.length,
                rest: block.rest,
            }),
            None => Gap::Unended,
        };
    }
    Gap::Absent
}

// Whether a text is all digits and white space within a line.
fn is_flags(text: &str) -> bool
    ensures { result ≡ spec.is_flags (chars text.now) }
{
    let mut rest = text;
    while let Some((c, after)) = split_first(rest) {
        if !is_blank(c) && !c.is_ascii_digit() {
            return false;
        }
        rest = after;
    }
    true
}

// A quote, and then digits and blanks alone.
fn is_end_of_marker(text: &str) -> bool
    ensures { result ≡ spec.is_end_of_marker (chars text.now) }
{
    match split_first(text) {
        Some((_quote, rest)) => is_flags(rest),
        None => false,
    }
}

// A text in quotes, and then digits and blanks alone.
fn has_file_name(text: &str) -> bool
    ensures { result ≡ spec.has_file_name (chars text.now) }
{
    match split_first(text) {
        Some((quote, rest)) => quote == '"' && is_end_of_marker(past(Class::NoQuote, rest)),
        None => false,
    }
}

// The origin of a line: a number, a text in quotes, and numbers.
fn is_marker(text: &str) -> bool
    ensures { result ≡ spec.is_marker (chars text.now) }
{
    let digits = run(Class::Digit, text);
    digits.length > 0 && has_file_name(past(Class::Blank, digits.rest))
}

// `include <meta>`
fn is_include(text: &str) -> bool
    ensures { result ≡ spec.is_include (chars text.now) }
{
    match strip(b"include", text) {
        Some(rest) => is_header(past(Class::Blank, rest)),
        None => false,
    }
}

// `<meta>`, and then blanks alone.
fn is_header(text: &str) -> bool
    ensures { result ≡ spec.is_header (chars text.now) }
{
    match strip(b"<meta>", text) {
        Some(rest) => past(Class::Blank, rest).is_empty(),
        None => false,
    }
}

// What follows the `#` of a line that is skipped.
fn is_skipped(line: &str) -> bool
    ensures { result ≡ spec.is_skipped (chars line.now) }
{
    let text = past(Class::Blank, line);
    is_marker(text) || is_include(text)
}

// The line behind a `#`, with it, where the line is skipped.
#[inline(never)]
fn skipped_line(text: &str) -> Gap<'_>
    ensures length { (place : Place) → seen_gap place result ≡ Ok (spec.skipped_len (chars text.now)) }
    ensures cut { IfPassed (IsCutBehindOne text.now) result }
    ensures flat { IsFlatBehindOne text.now result }
{
    let line = run(Class::InLine, text);
    if is_skipped(front(text, line.length, line.rest)) {
        Gap::InLine(Cut {
            length: 1 + line.length,
            rest: line.rest,
        })
    } else {
        Gap::Absent
    }
}

/// The gap that begins at the front of a text, if one does. A line is skipped only from the first token of a line on.
#[inline(always)]
pub fn gap_at(is_first: bool, text: &str) -> Gap<'_>
    ensures length { (place : Place) → seen_gap place result ≡ spec.gap_at place is_first (chars text.now) }
    ensures cut { IfPassed (λ cut. (0 < cut.length) × IsCut text.now cut) result }
    ensures flat { IsFlat text.now result }
{
    match split_first(text) {
        None => Gap::Absent,
        Some((c, rest)) => {
            if is_space(c) {
                Gap::Block(Cut { length: 1, rest })
            } else if c == '/' {
                comment_at(rest)
            } else if c == '#' && is_first {
                skipped_line(rest)
            } else {
                Gap::Absent
            }
        }
    }
}
