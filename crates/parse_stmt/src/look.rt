//! What the token there says of the statement that begins with it.

ghost use Rattle.std.specs.Prelude.{◌≡◌};
ghost use Rattle.cxx_reading.specs.Reading.{kind};
ghost use Rattle.parse_stmt.specs.Joined as joined;

use cxx_reading::{Seen, kind_at};
use cxx_tokens::Tokens;
use cxx_tokens::keyword::{CLASS, CONSTEVAL, STRUCT};
use cxx_tokens::mark::LEFT_BRACE;

/// Whether a statement with braces of its own begins there: a body, a class or a block.
pub fn begins_bracketed(tokens: &Tokens, at: u32) -> bool
    ensures { result ≡ joined.begins_bracketed (kind tokens.now at) }
{
    match kind_at(tokens, at) {
        Some(Seen::Punctuator(mark)) => mark == LEFT_BRACE,
        Some(Seen::Word(word)) => word == STRUCT || word == CLASS || word == CONSTEVAL,
        _ => false,
    }
}
