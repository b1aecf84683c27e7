//! Fundamental types ([dcl.type.simple]).

ghost use Rattle.std.specs.Prelude.{◌≡◌, IfErr};
ghost use Rattle.cxx_grammar.specs.Fundamentals as spec;
ghost use Rattle.cxx_reading.specs.Reading.{Gives};

use crate::words::{named_by, with_word};
use cxx_base::IntKind;
use cxx_grammar::{Sign, TypeWords, Width};
use cxx_reading::{ExprFault, Seen, any_word, expect_word, kind_at, left};
use cxx_tokens::Tokens;
use cxx_tokens::keyword::{BOOL, VOID};
use cxx_tree::Fund;

#[tactic(auto, unfolding(cxx_grammar::specs::Fundamentals::type_word))]
fn type_word(tokens: &Tokens, before: TypeWords, at: u32) -> Result<(TypeWords, u32), ExprFault>
    ensures gives { Gives (spec.type_word tokens.now before at) result }
    ensures sure { IfErr result (λ fault. fault ≡ ExprFault.S1) }
{
    let (word, end) = any_word(tokens, at)?;
    match with_word(before, word) {
        Some(words) => Ok((words, end)),
        None => Err(ExprFault::S1),
    }
}

#[tactic(auto, unfolding(cxx_grammar::specs::Fundamentals::more_type_words), using(cxx_reading::proofs::Turns::loops))]
fn more_type_words(
    tokens: &Tokens,
    mut found: TypeWords,
    mut at: u32,
) -> Result<(TypeWords, u32), ExprFault>
    ensures gives { Gives (spec.more_type_words tokens.now found at) result }
    ensures sure { IfErr result (λ fault. fault ≡ ExprFault.S1) }
{
    for _turn in 0..left(tokens, at) {
        match type_word(tokens, found, at) {
            Ok((words, after)) => {
                found = words;
                at = after;
            }
            Err(ExprFault::S1) => return Ok((found, at)),
            Err(ExprFault::S2) => return Err(ExprFault::S2),
            Err(ExprFault::Memory) => return Err(ExprFault::Memory),
        }
    }
    Ok((found, at))
}

#[tactic(auto, unfolding(cxx_grammar::specs::Fundamentals::number_type))]
fn number_type(tokens: &Tokens, at: u32) -> Result<(Fund, u32), ExprFault>
    ensures gives { Gives (spec.number_type tokens.now at) result }
    ensures sure { IfErr result (λ fault. fault ≡ ExprFault.S1) }
{
    let no_words = TypeWords {
        sign: Sign::None,
        width: Width::None,
        has_int: false,
    };
    let (first, at) = type_word(tokens, no_words, at)?;
    let (words, end) = more_type_words(tokens, first, at)?;
    Ok((named_by(words), end))
}

/// A fundamental type, as the grammar says. It takes no memory, so memory does not run out.
#[tactic(auto, using(cxx_grammar::proofs::TypeArms::fund_arms))]
pub fn fund(tokens: &Tokens, at: u32) -> Result<(Fund, u32), ExprFault>
    ensures gives { Gives (spec.fund tokens.now at) result }
    ensures sure { IfErr result (λ fault. fault ≡ ExprFault.S1) }
{
    match kind_at(tokens, at) {
        Some(Seen::Word(word)) => {
            if word == VOID {
                Ok((Fund::Void, expect_word(tokens, VOID, at)?))
            } else if word == BOOL {
                Ok((Fund::Int(IntKind::Bool), expect_word(tokens, BOOL, at)?))
            } else {
                number_type(tokens, at)
            }
        }
        Some(Seen::Identifier) => Err(ExprFault::S1),
        Some(Seen::Integer) => Err(ExprFault::S1),
        Some(Seen::Character) => Err(ExprFault::S1),
        Some(Seen::Text) => Err(ExprFault::S1),
        Some(Seen::Punctuator(_)) => Err(ExprFault::S1),
        None => Err(ExprFault::S1),
    }
}
