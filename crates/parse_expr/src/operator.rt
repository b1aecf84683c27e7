//! Prefix operators ([expr.unary.op]).

ghost use Rattle.std.specs.Prelude.{◌≡◌};
ghost use Rattle.cxx_grammar.specs.Operators as spec;
ghost use Rattle.cxx_reading.specs.Reading.{Gives};

use cxx_reading::{ExprFault, any_punctuator};
use cxx_tokens::Tokens;
use cxx_tokens::mark::{AMPERSAND, MINUS, NOT, PLUS, STAR, TILDE};
use cxx_tree::UnaryOp;

/// The prefix operator that a punctuator is.
pub fn unary_mark(mark: u32) -> Option<UnaryOp>
    ensures { result ≡ spec.unary_mark mark }
{
    if mark == PLUS {
        Some(UnaryOp::Plus)
    } else if mark == MINUS {
        Some(UnaryOp::Minus)
    } else if mark == NOT {
        Some(UnaryOp::Not)
    } else if mark == TILDE {
        Some(UnaryOp::Complement)
    } else if mark == STAR {
        Some(UnaryOp::Deref)
    } else if mark == AMPERSAND {
        Some(UnaryOp::AddressOf)
    } else {
        None
    }
}

/// Takes a prefix operator.
#[tactic(auto, unfolding(cxx_grammar::specs::Operators::unary_operator))]
pub fn unary_operator(tokens: &Tokens, at: u32) -> Result<(UnaryOp, u32), ExprFault>
    ensures { Gives (spec.unary_operator tokens.now at) result }
{
    let (mark, end) = any_punctuator(tokens, at)?;
    match unary_mark(mark) {
        Some(op) => Ok((op, end)),
        None => Err(ExprFault::S1),
    }
}
