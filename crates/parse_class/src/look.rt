//! What the tokens there say of the declaration that begins with them.

ghost use Rattle.std.specs.Prelude.{◌≡◌, ◌+◌};
ghost use Rattle.cxx_reading.specs.Reading.{kind};
ghost use Rattle.parse_class.specs.Joined as joined;

use cxx_reading::{Seen, kind_at, sees_ahead, sees_identifier};
use cxx_tokens::Tokens;
use cxx_tokens::keyword::{
    CLASS, CONSTEVAL, ENUM, PRIVATE, PROTECTED, PUBLIC, STATIC_ASSERT, STRUCT, USING,
};
use cxx_tokens::mark::{LEFT_BRACE, LEFT_PAREN};

/// Whether an identifier and a parenthesis stand there.
pub fn begins_constructor(tokens: &Tokens, at: u32) -> bool
    ensures { result ≡ joined.begins_constructor tokens.now at }
{
    sees_identifier(tokens, at) && sees_ahead(tokens, LEFT_PAREN, at, 1)
}

/// Whether a word of an access stands there.
pub fn sees_access(tokens: &Tokens, at: u32) -> bool
    ensures { result ≡ joined.is_access (kind tokens.now at) }
{
    match kind_at(tokens, at) {
        Some(Seen::Word(word)) => word == PUBLIC || word == PROTECTED || word == PRIVATE,
        _ => false,
    }
}

/// Whether a declaration begins there that a word of its own tells, in a namespace or in a class.
pub fn begins_plain(tokens: &Tokens, at: u32) -> bool
    ensures { result ≡ joined.is_plain (kind tokens.now at) (kind tokens.now (at + 1)) }
{
    match kind_at(tokens, at) {
        Some(Seen::Word(word)) => {
            word == USING
                || (word == STRUCT || word == CLASS)
                || word == ENUM
                || word == STATIC_ASSERT
                || (word == CONSTEVAL && sees_ahead(tokens, LEFT_BRACE, at, 1))
        }
        _ => false,
    }
}
