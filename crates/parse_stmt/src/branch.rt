//! Statements that are chosen or repeated by a condition ([stmt.if], [stmt.while]).

ghost use Rattle.std.specs.Prelude.{◌≤◌};
ghost use Rattle.cxx_grammar.specs.Nests.{looping};
ghost use Rattle.cxx_grammar.specs.Read.{read};
ghost use Rattle.cxx_grammar.specs.Statements as spec;
ghost use Rattle.cxx_reading.specs.Reading.{Gives};
ghost use Rattle.parse_stmt.specs.Joined as joined;

use containers::Boxed;
use cxx_grammar::Within;
use cxx_reading::{ExprFault, expect, expect_word, span};
use cxx_tokens::keyword::{ELSE, IF, WHILE};
use cxx_tokens::mark::{LEFT_PAREN, RIGHT_PAREN};
use cxx_tree::{Expr, Stmt};
use parse_expr::expression;
use parse_nest::{Nest, Nested};
use parse_repeat::{Here, Part, optional};

/// A statement within a statement, one level deeper, in its box.
pub fn boxed_sub<N: Nested>(
    nest: &Nest<'_, N>,
    at: u32,
    within: Within,
) -> Result<(Boxed<Stmt>, u32), ExprFault>
    requires { N.can nest.now.inner.now }
    ensures { Gives ((N.nests nest.now.inner.now).sub within at) result }
{
    let (x, end) = nest.inner.sub(at, within)?;
    Ok((Boxed::new(nest.here.alloc, x)?, end))
}

// `else` and the statement behind it, in its box.
#[derive(Clone, Copy)]
struct Else<'a, N> {
    nest: &'a Nest<'a, N>,
    within: Within,
}

impl<N: Nested> Part for Else<'_, N> {
    type Tree = Boxed<Stmt>;

    ghost can = { λ p. N.can p.nest.now.inner.now };

    ghost part = { λ p. joined.else_part p.nest.now.here.tokens.now ((N.nests p.nest.now.inner.now).sub p.within) };

    fn read(&self, at: u32) -> Result<(Boxed<Stmt>, u32), ExprFault> {
        let nest = self.nest;
        let at = expect_word(nest.here.tokens, ELSE, at)?;
        boxed_sub(nest, at, self.within)
    }
}

// A word, and an expression in parentheses, whose level is `in_parens`.
#[tactic(auto, unfolding(crate::specs::Joined::condition))]
fn condition(
    here: &Here<'_>,
    word: u32,
    start: u32,
    in_parens: u32,
) -> Result<(Expr, u32), ExprFault>
    requires { in_parens ≤ 257 }
    ensures { Gives (joined.condition here.now.tokens.now in_parens word start) result }
{
    let at = expect_word(here.tokens, word, start)?;
    let at = expect(here.tokens, LEFT_PAREN, at)?;
    let (x, at) = expression(here.alloc, here.tokens, at, in_parens)?;
    let end = expect(here.tokens, RIGHT_PAREN, at)?;
    Ok((x, end))
}

/// `if`, in whose parentheses the level is `in_parens`.
#[tactic(auto, using(crate::proofs::Conditions::if_is), unfolding(crate::specs::Joined::if_joined))]
pub fn if_form<N: Nested>(
    nest: &Nest<'_, N>,
    start: u32,
    in_parens: u32,
    within: Within,
) -> Result<(Stmt, u32), ExprFault>
    requires can { N.can nest.now.inner.now }
    requires level { in_parens ≤ 257 }
    ensures { Gives (spec.if_form nest.now.here.tokens.now in_parens (N.nests nest.now.inner.now) within start) result }
{
    let (condition, at) = condition(&nest.here, IF, start, in_parens)?;
    let (holds, at) = boxed_sub(nest, at, within)?;
    let (fails, end) = optional(&Else { nest, within }, at)?;
    let span = span(nest.here.tokens, start, end);
    Ok((Stmt::If(span, condition, holds, fails), end))
}

/// `while`, in the same way.
#[tactic(auto, using(crate::proofs::Conditions::while_is), unfolding(crate::specs::Joined::while_joined))]
pub fn while_form<N: Nested>(
    nest: &Nest<'_, N>,
    start: u32,
    in_parens: u32,
    within: Within,
) -> Result<(Stmt, u32), ExprFault>
    requires can { N.can nest.now.inner.now }
    requires level { in_parens ≤ 257 }
    ensures { Gives (spec.while_form nest.now.here.tokens.now in_parens (N.nests nest.now.inner.now) within start) result }
{
    let (condition, at) = condition(&nest.here, WHILE, start, in_parens)?;
    let (turn, end) = boxed_sub(nest, at, within.looping())?;
    let span = span(nest.here.tokens, start, end);
    Ok((Stmt::While(span, condition, turn), end))
}
