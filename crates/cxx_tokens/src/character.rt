//! Classes of characters.

ghost use Rattle.std.specs.Prelude.{◌≡◌};
ghost use Rattle.cxx_tokens.specs.Characters as spec;

use unicode_ident::{is_xid_continue, is_xid_start};

/// White space within a line.
#[inline]
pub fn is_blank(c: char) -> bool
    ensures { result ≡ spec.is_blank c }
{
    c == ' ' || c == '\t' || ('\x0b'..='\r').contains(&c)
}

/// White space ([lex.token]).
#[inline]
pub fn is_space(c: char) -> bool
    ensures { result ≡ spec.is_space c }
{
    is_blank(c) || c == '\n'
}

/// Whether an identifier may begin with the character ([lex.name]).
#[inline]
pub fn begins_identifier(c: char) -> bool
    ensures { result ≡ spec.begins_identifier c }
{
    if c <= '\x7f' {
        c.is_ascii_alphabetic() || c == '_'
    } else {
        is_xid_start(c)
    }
}

/// Whether an identifier may go on with the character ([lex.name]).
#[inline]
pub fn continues_identifier(c: char) -> bool
    ensures { result ≡ spec.continues_identifier c }
{
    if c <= '\x7f' {
        c.is_ascii_alphanumeric() || c == '_'
    } else {
        is_xid_continue(c)
    }
}
