//! Operators of assignments ([expr.assign], [expr.pre.incr], [expr.post.incr]).

ghost use Rattle.std.specs.Prelude.{◌≡◌};
ghost use Rattle.cxx_grammar.specs.Locals as spec;
ghost use Rattle.cxx_reading.specs.Reading.{Gives, kind};
ghost use Rattle.parse_assign.specs.Joined as joined;

use cxx_base::IntOp;
use cxx_reading::{ExprFault, Seen, any_punctuator, kind_at};
use cxx_tokens::Tokens;
use cxx_tokens::mark::{
    AMPERSAND_EQUAL, CARET_EQUAL, DECREMENT, EQUAL, INCREMENT, MINUS_EQUAL, PERCENT_EQUAL,
    PIPE_EQUAL, PLUS_EQUAL, SHIFT_LEFT_EQUAL, SHIFT_RIGHT_EQUAL, SLASH_EQUAL, STAR_EQUAL,
};
use cxx_tree::StepOp;

fn compound_mark(mark: u32) -> Option<IntOp>
    ensures { result ≡ spec.compound_mark mark }
{
    if mark == PLUS_EQUAL {
        Some(IntOp::Add)
    } else if mark == MINUS_EQUAL {
        Some(IntOp::Sub)
    } else if mark == STAR_EQUAL {
        Some(IntOp::Mul)
    } else if mark == SLASH_EQUAL {
        Some(IntOp::Div)
    } else if mark == PERCENT_EQUAL {
        Some(IntOp::Rem)
    } else if mark == CARET_EQUAL {
        Some(IntOp::Xor)
    } else if mark == AMPERSAND_EQUAL {
        Some(IntOp::And)
    } else if mark == PIPE_EQUAL {
        Some(IntOp::Or)
    } else if mark == SHIFT_LEFT_EQUAL {
        Some(IntOp::Shl)
    } else if mark == SHIFT_RIGHT_EQUAL {
        Some(IntOp::Shr)
    } else {
        None
    }
}

fn step_before_mark(mark: u32) -> Option<StepOp>
    ensures { result ≡ spec.step_before_mark mark }
{
    if mark == INCREMENT {
        Some(StepOp::PreIncrement)
    } else if mark == DECREMENT {
        Some(StepOp::PreDecrement)
    } else {
        None
    }
}

fn step_behind_mark(mark: u32) -> Option<StepOp>
    ensures { result ≡ spec.step_behind_mark mark }
{
    if mark == INCREMENT {
        Some(StepOp::PostIncrement)
    } else if mark == DECREMENT {
        Some(StepOp::PostDecrement)
    } else {
        None
    }
}

/// Takes the operator of a compound assignment.
#[tactic(auto, unfolding(cxx_grammar::specs::Locals::compound))]
pub fn compound(tokens: &Tokens, at: u32) -> Result<(IntOp, u32), ExprFault>
    ensures { Gives (spec.compound tokens.now at) result }
{
    let (mark, end) = any_punctuator(tokens, at)?;
    match compound_mark(mark) {
        Some(op) => Ok((op, end)),
        None => Err(ExprFault::S1),
    }
}

/// Takes `++` or `--` before its operand.
#[tactic(auto, unfolding(cxx_grammar::specs::Locals::before))]
pub fn before(tokens: &Tokens, at: u32) -> Result<(StepOp, u32), ExprFault>
    ensures { Gives (spec.before tokens.now at) result }
{
    let (mark, end) = any_punctuator(tokens, at)?;
    match step_before_mark(mark) {
        Some(op) => Ok((op, end)),
        None => Err(ExprFault::S1),
    }
}

/// Takes `++` or `--` behind its operand.
#[tactic(auto, unfolding(cxx_grammar::specs::Locals::behind))]
pub fn behind(tokens: &Tokens, at: u32) -> Result<(StepOp, u32), ExprFault>
    ensures { Gives (spec.behind tokens.now at) result }
{
    let (mark, end) = any_punctuator(tokens, at)?;
    match step_behind_mark(mark) {
        Some(op) => Ok((op, end)),
        None => Err(ExprFault::S1),
    }
}

/// Whether `++` or `--` stands there.
pub fn is_step(tokens: &Tokens, at: u32) -> bool
    ensures before { result ≡ joined.is_step (kind tokens.now at) }
    ensures behind { result ≡ joined.is_step_behind (kind tokens.now at) }
{
    match kind_at(tokens, at) {
        Some(Seen::Punctuator(mark)) => mark == INCREMENT || mark == DECREMENT,
        _ => false,
    }
}

/// Whether a unary expression before that token is what an assignment changes.
pub fn assigns(tokens: &Tokens, at: u32) -> bool
    ensures { result ≡ joined.assigns (kind tokens.now at) }
{
    match kind_at(tokens, at) {
        Some(Seen::Punctuator(mark)) => {
            mark == EQUAL || is_step(tokens, at) || compound_mark(mark).is_some()
        }
        _ => false,
    }
}
