//! What begins a declaration in a body ([stmt.ambig]). No tree is made, and no memory taken.

ghost use Rattle.std.specs.Prelude.{◌≡◌};
ghost use Rattle.cxx_grammar.specs.Fundamentals.{fund};
ghost use Rattle.cxx_grammar.specs.Names.{any_name};
ghost use Rattle.cxx_grammar.specs.Locals as spec;
ghost use Rattle.cxx_reading.specs.Reading.{Tree, Steps};
ghost use Rattle.cxx_reading.specs.Reading as reading;
ghost use Rattle.parse_local.specs.Joined as joined;

use cxx_reading::{ExprFault, Seen, eat, identifier, kind_at, left, sees, sees_identifier};
use cxx_tokens::keyword::{CONST, CONSTEXPR, TYPENAME};
use cxx_tokens::mark::{AMPERSAND, LEFT_BRACE, LEFT_PAREN, SCOPE, STAR};
use cxx_tokens::{TokenKind, Tokens};
use parse_type::{fund, part, vector_head};

// Whether a fundamental type begins there that neither `(` nor `{` follows.
fn stands_alone(tokens: &Tokens, at: u32) -> bool
    ensures { result ≡ spec.stands_alone tokens.now (fund tokens.now at) }
{
    match fund(tokens, at) {
        Ok((_, at)) => !(sees(tokens, LEFT_PAREN, at) || sees(tokens, LEFT_BRACE, at)),
        Err(ExprFault::S1) => false,
        Err(ExprFault::S2) => false,
        Err(ExprFault::Memory) => false,
    }
}

// The token behind one of `*`, `&` and `const`.
#[tactic(auto, unfolding(cxx_reading::specs::Reading::kind))]
fn behind_point(tokens: &Tokens, at: u32) -> Option<u32>
    ensures { result ≡ joined.behind_point tokens.now at }
{
    match tokens.list.get(at as usize) {
        Some(token) => match token.kind {
            TokenKind::Punctuator(n) => {
                if n == STAR {
                    Some(at + 1)
                } else if n == AMPERSAND {
                    Some(at + 1)
                } else {
                    None
                }
            }
            TokenKind::Word(n) => { if n == CONST { Some(at + 1) } else { None } }
            _ => None,
        },
        None => None,
    }
}

// The token behind as many of them as stand there.
#[tactic(auto, using(crate::proofs::Begin::walks))]
fn behind_points(tokens: &Tokens, mut at: u32) -> u32
    ensures { result ≡ spec.behind_points tokens.now (reading.left tokens.now at) at }
{
    for _turn in 0..left(tokens, at) {
        match behind_point(tokens, at) {
            Some(after) => at = after,
            None => return at,
        }
    }
    at
}

// The token behind as many `::` and identifiers as stand there.
#[tactic(auto, unfolding(crate::specs::Joined::behind_parts), using(cxx_reading::proofs::Turns::loops))]
fn behind_parts(tokens: &Tokens, mut at: u32) -> u32
    ensures { joined.behind_parts tokens.now at ≡ Tree tt result }
{
    for _turn in 0..left(tokens, at) {
        match part(tokens, at) {
            Ok((_, after)) => at = after,
            Err(ExprFault::S1) => return at,
            Err(ExprFault::S2) => return at,
            Err(ExprFault::Memory) => return at,
        }
    }
    at
}

// The token behind the name that begins there, where that of a vector does not.
#[tactic(auto, unfolding(crate::specs::Joined::behind_name))]
fn behind_name(tokens: &Tokens, at: u32) -> Result<u32, ExprFault>
    ensures { Steps (joined.behind_name tokens.now at) result }
{
    let (_, at) = eat(tokens, SCOPE, at);
    let (_, at) = identifier(tokens, at)?;
    Ok(behind_parts(tokens, at))
}

// Whether a name begins there that an identifier follows, also behind `*`, `&` and `const`.
#[tactic(auto, using(crate::proofs::Begin::declares_skipped))]
fn declares(tokens: &Tokens, at: u32) -> bool
    ensures { result ≡ spec.declares tokens.now (any_name tokens.now at) }
{
    match behind_name(tokens, at) {
        Ok(at) => sees_identifier(tokens, behind_points(tokens, at)),
        Err(_) => false,
    }
}

/// Whether a statement that begins there is the declaration of a local variable ([stmt.ambig]).
#[tactic(auto, using(crate::proofs::Begin::begin_arms))]
pub fn begins_local(tokens: &Tokens, at: u32) -> bool
    ensures { result ≡ spec.begins_local tokens.now at }
{
    match kind_at(tokens, at) {
        Some(Seen::Word(word)) => {
            if word == CONSTEXPR {
                true
            } else if word == CONST {
                true
            } else if word == TYPENAME {
                true
            } else {
                stands_alone(tokens, at)
            }
        }
        Some(Seen::Identifier) => match vector_head(tokens, at) {
            Ok(_) => true,
            Err(_) => declares(tokens, at),
        },
        Some(Seen::Punctuator(_)) => declares(tokens, at),
        Some(Seen::Integer) => false,
        Some(Seen::Character) => false,
        Some(Seen::Text) => false,
        None => false,
    }
}
