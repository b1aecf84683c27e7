//! What a token is, without what it holds.
#![tactic(auto, unfolding(crate::specs::Reading::kind))]

ghost use Rattle.std.specs.Prelude.{◌≡◌, ◌+◌};
ghost use Rattle.cxx_reading.specs.Reading as spec;

use cxx_tokens::{TokenKind, Tokens};

/// What a token is ([lex.token]), without what an identifier or a literal holds. A parser chooses a form by it.
#[derive(Clone, Copy, Debug, PartialEq, Eq)]
pub enum Seen {
    Identifier,
    Integer,
    Character,
    Text,
    /// A word that is never an identifier, by its number.
    Word(u32),
    /// A punctuator, by its number.
    Punctuator(u32),
}

fn seen_of(kind: &TokenKind) -> Seen
    ensures { result ≡ spec.seen kind.now }
{
    match kind {
        TokenKind::Identifier(_) => Seen::Identifier,
        TokenKind::Word(n) => Seen::Word(*n),
        TokenKind::Punctuator(n) => Seen::Punctuator(*n),
        TokenKind::Integer { .. } => Seen::Integer,
        TokenKind::Character(_) => Seen::Character,
        TokenKind::Text(_) => Seen::Text,
    }
}

/// What the token there is, if one stands there.
pub fn kind_at(tokens: &Tokens, at: u32) -> Option<Seen>
    ensures { result ≡ spec.kind tokens.now at }
{
    match tokens.list.get(at as usize) {
        Some(token) => Some(seen_of(&token.kind)),
        None => None,
    }
}

/// What the token so many tokens later is, if one stands there.
pub fn kind_ahead(tokens: &Tokens, at: u32, ahead: u32) -> Option<Seen>
    ensures { result ≡ spec.kind tokens.now (at + ahead) }
{
    match tokens.list.get(at as usize + ahead as usize) {
        Some(token) => Some(seen_of(&token.kind)),
        None => None,
    }
}

/// Whether this punctuator stands there.
pub fn sees(tokens: &Tokens, mark: u32, at: u32) -> bool
    ensures { result ≡ spec.sees_punctuator tokens.now mark at }
{
    match kind_at(tokens, at) {
        Some(Seen::Punctuator(n)) => n == mark,
        _ => false,
    }
}

/// Whether this punctuator stands so many tokens later.
pub fn sees_ahead(tokens: &Tokens, mark: u32, at: u32, ahead: u32) -> bool
    ensures { result ≡ spec.sees_punctuator tokens.now mark (at + ahead) }
{
    match kind_ahead(tokens, at, ahead) {
        Some(Seen::Punctuator(n)) => n == mark,
        _ => false,
    }
}

/// Whether this word stands there.
pub fn sees_word(tokens: &Tokens, word: u32, at: u32) -> bool
    ensures { result ≡ spec.sees_word tokens.now word at }
{
    match kind_at(tokens, at) {
        Some(Seen::Word(n)) => n == word,
        _ => false,
    }
}

/// Whether an identifier stands there.
pub fn sees_identifier(tokens: &Tokens, at: u32) -> bool
    ensures { result ≡ spec.sees_identifier tokens.now at }
{
    match kind_at(tokens, at) {
        Some(Seen::Identifier) => true,
        _ => false,
    }
}
