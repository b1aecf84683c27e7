//! The condition and the step of a head.

ghost use Rattle.cxx_grammar.specs.Read.{read};
ghost use Rattle.cxx_reading.specs.Reading.{Gives};
ghost use Rattle.parse_head.specs.Joined as joined;

use containers::Boxed;
use cxx_reading::{ExprFault, expect};
use cxx_tokens::mark::RIGHT_PAREN;
use cxx_tree::{Expr, ForStep};
use parse_assign::closed;
use parse_expr::expression;
use parse_repeat::{Here, Part};

/// An expression, as a part.
#[derive(Clone, Copy)]
pub struct Condition<'a>(pub Here<'a>);

impl Part for Condition<'_> {
    type Tree = Expr;

    ghost can = { λ _. Unit {0} };

    ghost part = { λ p. (read p.0.tokens.now p.0.level).expr };

    fn read(&self, at: u32) -> Result<(Expr, u32), ExprFault> {
        expression(self.0.alloc, self.0.tokens, at, self.0.level)
    }
}

#[tactic(auto, unfolding(crate::specs::Joined::step_there))]
fn step_there(here: &Here<'_>, at: u32) -> Result<(Option<Boxed<ForStep>>, u32), ExprFault>
    ensures { Gives (joined.step_there here.now.tokens.now here.now.level at) result }
{
    let (x, end) = closed(here, RIGHT_PAREN, at)?;
    Ok((Some(Boxed::new(here.alloc, x)?), end))
}

/// The step, where there is one, and the parenthesis behind it.
#[tactic(auto, unfolding(crate::specs::Joined::step_closed, cxx_reading::specs::Reading::punctuator))]
pub fn step_closed(here: &Here<'_>, at: u32) -> Result<(Option<Boxed<ForStep>>, u32), ExprFault>
    ensures { Gives (joined.step_closed here.now.tokens.now here.now.level at) result }
{
    match expect(here.tokens, RIGHT_PAREN, at) {
        Ok(end) => Ok((None, end)),
        Err(_) => step_there(here, at),
    }
}
