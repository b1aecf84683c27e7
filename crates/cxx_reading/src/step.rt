//! Steps over single tokens.
#![tactic(auto, unfolding(crate::specs::Reading::kind, crate::specs::Reading::left, crate::specs::Reading::span, crate::specs::Reading::punctuator, crate::specs::Reading::word, crate::specs::Reading::identifier, crate::specs::Reading::integer, crate::specs::Reading::character, crate::specs::Reading::text, crate::specs::Reading::present))]

ghost use Rattle.std.specs.Prelude.{◌≡◌, IfErr};
ghost use Rattle.cxx_reading.specs.Reading as spec;
ghost use Rattle.cxx_reading.specs.Reading.{Tree, Gives, Steps};

use crate::fault::ExprFault;
use cxx_base::{Bytes, Span};
use cxx_tokens::{TokenKind, Tokens};
use cxx_tree::{Identifier, IntegerLiteral};
use std::alloc::Global;

/// How many tokens there are from this one on.
pub fn left(tokens: &Tokens, at: u32) -> u32
    ensures { result ≡ spec.left tokens.now at }
{
    tokens.list.len().saturating_sub(at as usize) as u32
}

/// From the first token up to, but not with, number `end`.
pub fn span(tokens: &Tokens, first: u32, end: u32) -> Span
    ensures { result ≡ spec.span tokens.now first end }
{
    let place = match tokens.list.get(first as usize) {
        Some(token) => token.span.place,
        None => tokens.end,
    };
    Span { place, first, end }
}

/// Takes this punctuator.
pub fn expect(tokens: &Tokens, mark: u32, at: u32) -> Result<u32, ExprFault>
    ensures { Steps (spec.punctuator tokens.now mark at) result }
{
    match tokens.list.get(at as usize) {
        Some(token) => match token.kind {
            TokenKind::Punctuator(n) => {
                if n == mark {
                    Ok(at + 1)
                } else {
                    Err(ExprFault::S1)
                }
            }
            _ => Err(ExprFault::S1),
        },
        None => Err(ExprFault::S1),
    }
}

/// Takes this word.
pub fn expect_word(tokens: &Tokens, word: u32, at: u32) -> Result<u32, ExprFault>
    ensures { Steps (spec.word tokens.now word at) result }
{
    match tokens.list.get(at as usize) {
        Some(token) => match token.kind {
            TokenKind::Word(n) => {
                if n == word {
                    Ok(at + 1)
                } else {
                    Err(ExprFault::S1)
                }
            }
            _ => Err(ExprFault::S1),
        },
        None => Err(ExprFault::S1),
    }
}

/// Takes this punctuator where it stands: whether it did, and the token to go on at.
pub fn eat(tokens: &Tokens, mark: u32, at: u32) -> (bool, u32)
    ensures { spec.present (spec.punctuator tokens.now mark) at ≡ Tree result.0 result.1 }
{
    match expect(tokens, mark, at) {
        Ok(after) => (true, after),
        Err(_) => (false, at),
    }
}

/// Takes this word where it stands: whether it did, and the token to go on at.
pub fn eat_word(tokens: &Tokens, word: u32, at: u32) -> (bool, u32)
    ensures { spec.present (spec.word tokens.now word) at ≡ Tree result.0 result.1 }
{
    match expect_word(tokens, word, at) {
        Ok(after) => (true, after),
        Err(_) => (false, at),
    }
}

/// Takes an identifier ([lex.name]).
pub fn identifier(tokens: &Tokens, at: u32) -> Result<(Identifier, u32), ExprFault>
    ensures gives { Gives (spec.identifier tokens.now at) result }
    ensures sure { IfErr result (λ fault. fault ≡ ExprFault.S1) }
{
    match tokens.list.get(at as usize) {
        Some(token) => match token.kind {
            TokenKind::Identifier(name) => {
                let end = at + 1;
                let span = span(tokens, at, end);
                Ok((Identifier { span, name }, end))
            }
            _ => Err(ExprFault::S1),
        },
        None => Err(ExprFault::S1),
    }
}

/// Takes an integer literal ([lex.icon]).
pub fn integer(tokens: &Tokens, at: u32) -> Result<(IntegerLiteral, u32), ExprFault>
    ensures gives { Gives (spec.integer tokens.now at) result }
    ensures sure { IfErr result (λ fault. fault ≡ ExprFault.S1) }
{
    match tokens.list.get(at as usize) {
        Some(token) => match token.kind {
            TokenKind::Integer {
                decimal,
                unsigned,
                longs,
                n,
            } => {
                let literal = IntegerLiteral {
                    decimal,
                    unsigned,
                    longs,
                    n,
                };
                Ok((literal, at + 1))
            }
            _ => Err(ExprFault::S1),
        },
        None => Err(ExprFault::S1),
    }
}

/// Takes a character literal ([lex.ccon]), by its byte.
pub fn character(tokens: &Tokens, at: u32) -> Result<(u8, u32), ExprFault>
    ensures gives { Gives (spec.character tokens.now at) result }
    ensures sure { IfErr result (λ fault. fault ≡ ExprFault.S1) }
{
    match tokens.list.get(at as usize) {
        Some(token) => match token.kind {
            TokenKind::Character(byte) => Ok((byte, at + 1)),
            _ => Err(ExprFault::S1),
        },
        None => Err(ExprFault::S1),
    }
}

/// Takes a string literal ([lex.string]), by a copy of its bytes.
pub fn text(alloc: Global, tokens: &Tokens, at: u32) -> Result<(Bytes, u32), ExprFault>
    ensures { Gives (spec.text tokens.now at) result }
{
    match tokens.list.get(at as usize) {
        Some(token) => match &token.kind {
            TokenKind::Text(bytes) => {
                let mut copy = Bytes::new(alloc);
                copy.extend(bytes.get().as_slice())?;
                Ok((copy, at + 1))
            }
            _ => Err(ExprFault::S1),
        },
        None => Err(ExprFault::S1),
    }
}
