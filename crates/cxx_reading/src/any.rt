//! Steps over a word or punctuator of any number.
#![tactic(auto, unfolding(crate::specs::Reading::kind, crate::specs::Any::any_word, crate::specs::Any::any_punctuator))]

ghost use Rattle.std.specs.Prelude.{◌≡◌, IfErr};
ghost use Rattle.cxx_reading.specs.Any as spec;
ghost use Rattle.cxx_reading.specs.Reading.{Gives};

use crate::fault::ExprFault;
use cxx_tokens::{TokenKind, Tokens};

/// Takes a word that is never an identifier, by its number ([lex.key]).
pub fn any_word(tokens: &Tokens, at: u32) -> Result<(u32, u32), ExprFault>
    ensures gives { Gives (spec.any_word tokens.now at) result }
    ensures sure { IfErr result (λ fault. fault ≡ ExprFault.S1) }
{
    match tokens.list.get(at as usize) {
        Some(token) => match token.kind {
            TokenKind::Word(n) => Ok((n, at + 1)),
            _ => Err(ExprFault::S1),
        },
        None => Err(ExprFault::S1),
    }
}

/// Takes a punctuator, by its number ([lex.operators]).
pub fn any_punctuator(tokens: &Tokens, at: u32) -> Result<(u32, u32), ExprFault>
    ensures gives { Gives (spec.any_punctuator tokens.now at) result }
    ensures sure { IfErr result (λ fault. fault ≡ ExprFault.S1) }
{
    match tokens.list.get(at as usize) {
        Some(token) => match token.kind {
            TokenKind::Punctuator(n) => Ok((n, at + 1)),
            _ => Err(ExprFault::S1),
        },
        None => Err(ExprFault::S1),
    }
}
