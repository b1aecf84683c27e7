//! Specifiers ([dcl.spec], [dcl.fct.spec], [class.mem], [class.access]).

ghost use Rattle.std.specs.Prelude.{◌≡◌, IfErr};
ghost use Rattle.cxx_grammar.specs.Classes as classes;
ghost use Rattle.cxx_grammar.specs.Declarations as spec;
ghost use Rattle.cxx_reading.specs.Reading.{Gives};

use crate::word::{access_of_word, key_of_word, with_constructor_word, with_spec};
use cxx_grammar::DeclWords;
use cxx_reading::{ExprFault, any_word, left};
use cxx_tokens::Tokens;
use cxx_tree::{Access, ClassKey};
use parse_repeat::Part;

#[tactic(auto, unfolding(cxx_grammar::specs::Declarations::specifier))]
fn specifier(tokens: &Tokens, found: DeclWords, start: u32) -> Result<(DeclWords, u32), ExprFault>
    ensures gives { Gives (spec.specifier tokens.now found start) result }
    ensures sure { IfErr result (λ fault. fault ≡ ExprFault.S1) }
{
    let (word, end) = any_word(tokens, start)?;
    match with_spec(found, word) {
        Some(x) => Ok((x, end)),
        None => Err(ExprFault::S1),
    }
}

/// Any number of specifiers ([dcl.spec]) from token number `at` on, added to those found, and the number of the token after them:
/// exactly what the grammar gives. It has no fault but `S1`.
#[tactic(auto, unfolding(cxx_grammar::specs::Declarations::specifiers), using(cxx_reading::proofs::Turns::loops))]
pub fn specifiers(
    tokens: &Tokens,
    mut found: DeclWords,
    mut at: u32,
) -> Result<(DeclWords, u32), ExprFault>
    ensures gives { Gives (spec.specifiers tokens.now found at) result }
    ensures sure { IfErr result (λ fault. fault ≡ ExprFault.S1) }
{
    for _turn in 0..left(tokens, at) {
        match specifier(tokens, found, at) {
            Ok((x, after)) => {
                found = x;
                at = after;
            }
            Err(ExprFault::S1) => return Ok((found, at)),
            Err(ExprFault::S2) => return Err(ExprFault::S2),
            Err(ExprFault::Memory) => return Err(ExprFault::Memory),
        }
    }
    Ok((found, at))
}

#[tactic(auto, unfolding(cxx_grammar::specs::Declarations::constructor_word))]
fn constructor_word(
    tokens: &Tokens,
    found: DeclWords,
    start: u32,
) -> Result<(DeclWords, u32), ExprFault>
    ensures gives { Gives (spec.constructor_word tokens.now found start) result }
    ensures sure { IfErr result (λ fault. fault ≡ ExprFault.S1) }
{
    let (word, end) = any_word(tokens, start)?;
    match with_constructor_word(found, word) {
        Some(x) => Ok((x, end)),
        None => Err(ExprFault::S1),
    }
}

/// The same where `explicit` may stand too ([dcl.fct.spec]).
#[tactic(auto, unfolding(cxx_grammar::specs::Declarations::constructor_words), using(cxx_reading::proofs::Turns::loops))]
pub fn constructor_words(
    tokens: &Tokens,
    mut found: DeclWords,
    mut at: u32,
) -> Result<(DeclWords, u32), ExprFault>
    ensures gives { Gives (spec.constructor_words tokens.now found at) result }
    ensures sure { IfErr result (λ fault. fault ≡ ExprFault.S1) }
{
    for _turn in 0..left(tokens, at) {
        match constructor_word(tokens, found, at) {
            Ok((x, after)) => {
                found = x;
                at = after;
            }
            Err(ExprFault::S1) => return Ok((found, at)),
            Err(ExprFault::S2) => return Err(ExprFault::S2),
            Err(ExprFault::Memory) => return Err(ExprFault::Memory),
        }
    }
    Ok((found, at))
}

/// `struct` or `class` ([class.pre]) at token number `start`, and the number of the token after it. It answers `S1` exactly where
/// neither stands there, and nothing else.
#[tactic(auto, unfolding(cxx_grammar::specs::Declarations::key))]
pub fn key(tokens: &Tokens, start: u32) -> Result<(ClassKey, u32), ExprFault>
    ensures gives { Gives (spec.key tokens.now start) result }
    ensures sure { IfErr result (λ fault. fault ≡ ExprFault.S1) }
{
    let (word, end) = any_word(tokens, start)?;
    match key_of_word(word) {
        Some(x) => Ok((x, end)),
        None => Err(ExprFault::S1),
    }
}

/// `public`, `protected` or `private` ([class.access]) at token number `start`, and the number of the token after it. It answers `S1`
/// exactly where none of them stands there, and nothing else.
#[tactic(auto, unfolding(cxx_grammar::specs::Classes::access))]
pub fn access(tokens: &Tokens, start: u32) -> Result<(Access, u32), ExprFault>
    ensures gives { Gives (classes.access tokens.now start) result }
    ensures sure { IfErr result (λ fault. fault ≡ ExprFault.S1) }
{
    let (word, end) = any_word(tokens, start)?;
    match access_of_word(word) {
        Some(x) => Ok((x, end)),
        None => Err(ExprFault::S1),
    }
}

/// The word of an access, as a part.
#[derive(Clone, Copy)]
pub struct AccessWord<'a>(pub &'a Tokens);

impl Part for AccessWord<'_> {
    type Tree = Access;

    ghost can = { λ _. Unit {0} };

    ghost part = { λ p. classes.access p.0.now };

    fn read(&self, at: u32) -> Result<(Access, u32), ExprFault> {
        access(self.0, at)
    }
}

/// The word of a class, as a part.
#[derive(Clone, Copy)]
pub struct KeyWord<'a>(pub &'a Tokens);

impl Part for KeyWord<'_> {
    type Tree = ClassKey;

    ghost can = { λ _. Unit {0} };

    ghost part = { λ p. spec.key p.0.now };

    fn read(&self, at: u32) -> Result<(ClassKey, u32), ExprFault> {
        key(self.0, at)
    }
}
