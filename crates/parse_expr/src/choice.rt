//! Whole expressions ([expr.cond]).

ghost use Rattle.cxx_grammar.specs.Joined as spec;
ghost use Rattle.cxx_grammar.specs.Read.{read};
ghost use Rattle.cxx_reading.specs.Reading.{Gives};
ghost use Rattle.cxx_grammar.specs.Expressions as expressions;
ghost use Rattle.cxx_reading.specs.Reading.{optional};
ghost use Rattle.std.specs.Prelude.{◌≡◌};
ghost use Rattle.parse_expr.specs.Looks.{is_end};

use crate::made;
use crate::unary::unary_here;
use cxx_grammar::Arms;
use cxx_reading::{ExprFault, Reader, expect, optional, sees, span};
use cxx_tokens::Tokens;
use cxx_tokens::mark::{COLON, QUESTION};
use cxx_tree::Expr;
use parse_chain::{climbed, operator_at};
use parse_level::{Deeper, deep_expr};

#[tactic(auto, unfolding(cxx_grammar::specs::Expressions::arms))]
fn arms<D: Deeper>(reader: &Reader<'_, D>, start: u32) -> Result<(Arms, u32), ExprFault>
    requires { D.ready reader.now.deeper reader.now.tokens.now reader.now.level }
    ensures { Gives (expressions.arms reader.now.tokens.now (read reader.now.tokens.now reader.now.level) start) result }
{
    let at = expect(reader.tokens, QUESTION, start)?;
    let (on_true, at) = deep_expr(reader, at)?;
    let at = expect(reader.tokens, COLON, at)?;
    let (on_false, end) = deep_expr(reader, at)?;
    Ok((Arms { on_true, on_false }, end))
}

#[tactic(auto, unfolding(cxx_reading::specs::Reading::optional), using(cxx_reading::proofs::Answers::none_left))]
fn arms_if_any<D: Deeper>(
    reader: &Reader<'_, D>,
    start: u32,
) -> Result<(Option<Arms>, u32), ExprFault>
    requires { D.ready reader.now.deeper reader.now.tokens.now reader.now.level }
    ensures { Gives (optional (expressions.arms reader.now.tokens.now (read reader.now.tokens.now reader.now.level)) start) result }
{
    optional(arms(reader, start), start)
}

#[inline(never)]
#[tactic(auto, unfolding(cxx_grammar::specs::Joined::choice_from))]
fn with_arms<D: Deeper>(
    reader: &Reader<'_, D>,
    start: u32,
    x: Expr,
    at: u32,
) -> Result<(Expr, u32), ExprFault>
    requires { D.ready reader.now.deeper reader.now.tokens.now reader.now.level }
    ensures { Gives (spec.choice_from reader.now.tokens.now (read reader.now.tokens.now reader.now.level) start x at) result }
{
    let (arms, end) = arms_if_any(reader, at)?;
    let span = span(reader.tokens, start, end);
    Ok((made::conditional(reader.alloc, x, arms, span)?, end))
}

#[tactic(auto, using(cxx_grammar::proofs::Looks::no_choice))]
fn choice_from<D: Deeper>(
    reader: &Reader<'_, D>,
    start: u32,
    x: Expr,
    at: u32,
) -> Result<(Expr, u32), ExprFault>
    requires { D.ready reader.now.deeper reader.now.tokens.now reader.now.level }
    ensures { Gives (spec.choice_from reader.now.tokens.now (read reader.now.tokens.now reader.now.level) start x at) result }
{
    if sees(reader.tokens, QUESTION, at) {
        with_arms(reader, start, x, at)
    } else {
        Ok((x, at))
    }
}

// The rest where it does not end at once. Where expressions nest, this and what calls it have one frame.
#[inline(always)]
#[tactic(auto, unfolding(cxx_grammar::specs::Joined::expr_from))]
fn longer_from<D: Deeper>(
    reader: &Reader<'_, D>,
    start: u32,
    x: Expr,
    at: u32,
) -> Result<(Expr, u32), ExprFault>
    requires { D.ready reader.now.deeper reader.now.tokens.now reader.now.level }
    ensures { Gives (spec.expr_from reader.now.tokens.now (read reader.now.tokens.now reader.now.level) start x at) result }
{
    let (x, at) = climbed(reader, |at| unary_here(reader, at), start, x, at)?;
    choice_from(reader, start, x, at)
}

// Whether the expression ends at that token: neither a binary operator nor `?` stands there.
#[inline(always)]
fn ends(tokens: &Tokens, at: u32) -> bool
    ensures { result ≡ is_end tokens.now at }
{
    match operator_at(tokens, at) {
        Some(_) => false,
        None => !sees(tokens, QUESTION, at),
    }
}

/// The rest of an expression that began at `start` with this unary expression. Where it ends there, one look tells.
#[inline(always)]
#[tactic(auto, using(crate::proofs::Looks::ended))]
pub fn expr_from<D: Deeper>(
    reader: &Reader<'_, D>,
    start: u32,
    x: Expr,
    at: u32,
) -> Result<(Expr, u32), ExprFault>
    requires { D.ready reader.now.deeper reader.now.tokens.now reader.now.level }
    ensures { Gives (spec.expr_from reader.now.tokens.now (read reader.now.tokens.now reader.now.level) start x at) result }
{
    if ends(reader.tokens, at) {
        return Ok((x, at));
    }
    longer_from(reader, start, x, at)
}

/// An expression, as the grammar says.
#[tactic(auto, using(cxx_grammar::proofs::Chains::expr_by_unary))]
pub fn expr_here<D: Deeper>(reader: &Reader<'_, D>, start: u32) -> Result<(Expr, u32), ExprFault>
    requires { D.ready reader.now.deeper reader.now.tokens.now reader.now.level }
    ensures { Gives (expressions.expr reader.now.tokens.now (read reader.now.tokens.now reader.now.level) start) result }
{
    let (x, at) = unary_here(reader, start)?;
    expr_from(reader, start, x, at)
}
