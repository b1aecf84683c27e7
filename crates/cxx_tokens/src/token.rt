//! Tokens.

ghost use Rattle.std.specs.Prelude.{◌≡◌, ◌<◌, ◌^◌, ◌↔◌, IsTrue, length};
ghost use Rattle.cxx_tokens.specs.declared.token.TokenKind.TheVariants as kind;

use containers::{Boxed, Items};
use cxx_base::{Bytes, Name, Place, Span};

/// What a token is ([lex.token]).
#[derive(Debug)]
pub enum TokenKind {
    /// An identifier, by the number of its text.
    Identifier(Name),
    /// A word that is never an identifier, by its place in the list of these words.
    Word(u32),
    /// A punctuator, by its place in the list of punctuators.
    Punctuator(u32),
    /// An integer literal: whether it is decimal, whether it has a suffix `u`, how often `l` stands in its suffix, and
    /// its value. Some kind holds the value.
    Integer {
        decimal: bool,
        unsigned: bool,
        longs: u32,
        n: u64,
    },
    /// A character literal, by its byte.
    Character(u8),
    /// A string literal, by the bytes that it means, without the zero byte at its end.
    Text(Boxed<Bytes>),
}

impl Drop for TokenKind {
    fn drop(self) {
        match self {
            TokenKind::Identifier(_) => {}
            TokenKind::Word(_) => {}
            TokenKind::Punctuator(_) => {}
            TokenKind::Integer {
                decimal: _,
                unsigned: _,
                longs: _,
                n: _,
            } => {}
            TokenKind::Character(_) => {}
            TokenKind::Text(_) => {}
        }
    }
}

/// A token, and where it stands. Token number n has the tokens from n up to n + 1 in its span.
#[derive(Debug)]
pub struct Token {
    pub kind: TokenKind,
    pub span: Span,
}

impl TokenKind {
    // Whether it is this identifier; so for the others.
    fn is_identifier(&self, name: Name) -> bool
        ensures { IsTrue result ↔ (self.now ≡ kind.Identifier name) }
    {
        match self {
            TokenKind::Identifier(found) => *found == name,
            TokenKind::Word(_) => false,
            TokenKind::Punctuator(_) => false,
            TokenKind::Integer {
                decimal: _,
                unsigned: _,
                longs: _,
                n: _,
            } => false,
            TokenKind::Character(_) => false,
            TokenKind::Text(_) => false,
        }
    }

    fn is_word(&self, number: u32) -> bool
        ensures { IsTrue result ↔ (self.now ≡ kind.Word number) }
    {
        match self {
            TokenKind::Identifier(_) => false,
            TokenKind::Word(found) => *found == number,
            TokenKind::Punctuator(_) => false,
            TokenKind::Integer {
                decimal: _,
                unsigned: _,
                longs: _,
                n: _,
            } => false,
            TokenKind::Character(_) => false,
            TokenKind::Text(_) => false,
        }
    }

    fn is_punctuator(&self, number: u32) -> bool
        ensures { IsTrue result ↔ (self.now ≡ kind.Punctuator number) }
    {
        match self {
            TokenKind::Identifier(_) => false,
            TokenKind::Word(_) => false,
            TokenKind::Punctuator(found) => *found == number,
            TokenKind::Integer {
                decimal: _,
                unsigned: _,
                longs: _,
                n: _,
            } => false,
            TokenKind::Character(_) => false,
            TokenKind::Text(_) => false,
        }
    }

    fn is_integer(&self, is_decimal: bool, is_unsigned: bool, count: u32, value: u64) -> bool
        ensures { IsTrue result ↔ (self.now ≡ kind.Integer is_decimal is_unsigned count value) }
    {
        match self {
            TokenKind::Identifier(_) => false,
            TokenKind::Word(_) => false,
            TokenKind::Punctuator(_) => false,
            TokenKind::Integer {
                decimal,
                unsigned,
                longs,
                n,
            } => {
                *decimal == is_decimal && *unsigned == is_unsigned && *longs == count && *n == value
            }
            TokenKind::Character(_) => false,
            TokenKind::Text(_) => false,
        }
    }

    fn is_character(&self, byte: u8) -> bool
        ensures { IsTrue result ↔ (self.now ≡ kind.Character byte) }
    {
        match self {
            TokenKind::Identifier(_) => false,
            TokenKind::Word(_) => false,
            TokenKind::Punctuator(_) => false,
            TokenKind::Integer {
                decimal: _,
                unsigned: _,
                longs: _,
                n: _,
            } => false,
            TokenKind::Character(found) => *found == byte,
            TokenKind::Text(_) => false,
        }
    }

    fn is_text(&self, bytes: &[u8]) -> bool
        ensures { IsTrue result ↔ (self.now ≡ kind.Text bytes.now) }
    {
        match self {
            TokenKind::Identifier(_) => false,
            TokenKind::Word(_) => false,
            TokenKind::Punctuator(_) => false,
            TokenKind::Integer {
                decimal: _,
                unsigned: _,
                longs: _,
                n: _,
            } => false,
            TokenKind::Character(_) => false,
            TokenKind::Text(found) => found.get().as_slice() == bytes,
        }
    }

    /// Whether two kinds are one.
    pub fn same(&self, other: &TokenKind) -> bool
        ensures { IsTrue result ↔ (other.now ≡ self.now) }
    {
        match self {
            TokenKind::Identifier(name) => other.is_identifier(*name),
            TokenKind::Word(number) => other.is_word(*number),
            TokenKind::Punctuator(number) => other.is_punctuator(*number),
            TokenKind::Integer {
                decimal,
                unsigned,
                longs,
                n,
            } => other.is_integer(*decimal, *unsigned, *longs, *n),
            TokenKind::Character(byte) => other.is_character(*byte),
            TokenKind::Text(bytes) => other.is_text(bytes.get().as_slice()),
        }
    }
}

impl Drop for Token {
    fn drop(self) {
        let Token { kind: _, span: _ } = self;
    }
}

impl Token {
    /// Whether two tokens are of one kind and stand at one place, whatever their numbers are.
    pub fn same(&self, other: &Token) -> bool
        ensures { IsTrue result ↔ ((other.now.kind ≡ self.now.kind) × (other.now.span.place ≡ self.now.span.place)) }
    {
        self.kind.same(&other.kind) && self.span.place == other.span.place
    }
}

/// The tokens of a text, and the place just past its last character. There are so few that a `u32` numbers them.
#[derive(Debug)]
pub struct Tokens {
    pub list: Items<Token>,
    pub end: Place,
    pub ghost short: { length list < 2 ^ 32 },
}

impl Drop for Tokens {
    fn drop(self) {
        let Tokens { list: _, end: _ } = self;
    }
}
