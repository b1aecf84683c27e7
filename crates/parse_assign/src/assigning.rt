//! Assignments ([expr.assign]), and expressions that begin as they do.

ghost use Rattle.std.specs.Prelude.{◌+◌};
ghost use Rattle.cxx_grammar.specs.Lists.{arg, arg_braced, arg_expr};
ghost use Rattle.cxx_grammar.specs.Read.{read};
ghost use Rattle.cxx_grammar.specs.Locals as spec;
ghost use Rattle.cxx_reading.specs.Reading.{Gives};
ghost use Rattle.parse_assign.specs.Joined as joined;

use crate::operators::{assigns, before, behind, compound, is_step};
use containers::Boxed;
use cxx_reading::{ExprFault, expect, longer, sees, span};
use cxx_tokens::Tokens;
use cxx_tokens::mark::EQUAL;
use cxx_tree::{ArgTree, AssignTree, Expr, ForStep};
use parse_expr::{braced_at, expression, expression_behind, unary_at};
use parse_repeat::Here;

#[tactic(auto, unfolding(cxx_grammar::specs::Lists::arg_expr))]
fn value_expr(here: &Here<'_>, at: u32) -> Result<(ArgTree, u32), ExprFault>
    ensures { Gives (arg_expr here.now.tokens.now (read here.now.tokens.now here.now.level) at) result }
{
    let (x, end) = expression(here.alloc, here.tokens, at, here.level)?;
    Ok((ArgTree::Expr(x), end))
}

#[tactic(auto, unfolding(cxx_grammar::specs::Lists::arg_braced))]
fn value_braced(here: &Here<'_>, at: u32) -> Result<(ArgTree, u32), ExprFault>
    ensures { Gives (arg_braced here.now.tokens.now (read here.now.tokens.now here.now.level) at) result }
{
    let (x, end) = braced_at(here.alloc, here.tokens, at, here.level)?;
    Ok((ArgTree::Braced(x), end))
}

// expr | braced
#[tactic(auto, unfolding(cxx_grammar::specs::Lists::arg), using(cxx_reading::proofs::Choices::choice))]
fn value(here: &Here<'_>, at: u32) -> Result<(ArgTree, u32), ExprFault>
    ensures { Gives (arg here.now.tokens.now (read here.now.tokens.now here.now.level) at) result }
{
    longer(value_expr(here, at), value_braced(here, at))
}

// `=` and what stands behind it, in its box.
#[tactic(auto, unfolding(crate::specs::Joined::equal_value))]
fn equal_value(here: &Here<'_>, at: u32) -> Result<(Boxed<ArgTree>, u32), ExprFault>
    ensures { Gives (joined.equal_value here.now.tokens.now here.now.level at) result }
{
    let at = expect(here.tokens, EQUAL, at)?;
    let (x, end) = value(here, at)?;
    Ok((Boxed::new(here.alloc, x)?, end))
}

#[tactic(auto, unfolding(crate::specs::Joined::equal_rest))]
fn equal_rest(
    here: &Here<'_>,
    start: u32,
    place: Expr,
    at: u32,
) -> Result<(AssignTree, u32), ExprFault>
    ensures { Gives (joined.equal_rest here.now.tokens.now here.now.level start place at) result }
{
    let (x, end) = equal_value(here, at)?;
    Ok((
        AssignTree::Equal(span(here.tokens, start, end), place, x),
        end,
    ))
}

// An expression in its box.
fn boxed_expression(here: &Here<'_>, at: u32) -> Result<(Boxed<Expr>, u32), ExprFault>
    ensures { Gives ((read here.now.tokens.now here.now.level).expr at) result }
{
    let (x, end) = expression(here.alloc, here.tokens, at, here.level)?;
    Ok((Boxed::new(here.alloc, x)?, end))
}

#[tactic(auto, unfolding(crate::specs::Joined::compound_rest))]
fn compound_rest(
    here: &Here<'_>,
    start: u32,
    place: Expr,
    at: u32,
) -> Result<(AssignTree, u32), ExprFault>
    ensures { Gives (joined.compound_rest here.now.tokens.now here.now.level start place at) result }
{
    let (op, at) = compound(here.tokens, at)?;
    let (x, end) = boxed_expression(here, at)?;
    let span = span(here.tokens, start, end);
    Ok((AssignTree::Compound(span, op, place, x), end))
}

#[tactic(auto, unfolding(crate::specs::Joined::behind_rest))]
fn behind_rest(
    tokens: &Tokens,
    start: u32,
    x: Expr,
    at: u32,
) -> Result<(AssignTree, u32), ExprFault>
    ensures { Gives (joined.behind_rest tokens.now start x at) result }
{
    let (op, end) = behind(tokens, at)?;
    Ok((AssignTree::Step(span(tokens, start, end), op, x), end))
}

// An assignment behind the unary expression that it changes, which began at `start`.
#[tactic(auto, using(crate::proofs::Assignments::rest_arms))]
fn assign_rest(
    here: &Here<'_>,
    start: u32,
    place: Expr,
    at: u32,
) -> Result<(AssignTree, u32), ExprFault>
    ensures { Gives (joined.assign_rest here.now.tokens.now here.now.level start place at) result }
{
    if sees(here.tokens, EQUAL, at) {
        equal_rest(here, start, place, at)
    } else if is_step(here.tokens, at) {
        behind_rest(here.tokens, start, place, at)
    } else {
        compound_rest(here, start, place, at)
    }
}

// `++` or `--`, and its operand.
#[tactic(auto, unfolding(cxx_grammar::specs::Locals::step_before))]
fn step_before(here: &Here<'_>, start: u32) -> Result<(AssignTree, u32), ExprFault>
    ensures { Gives (spec.step_before here.now.tokens.now here.now.level start) result }
{
    let (op, at) = before(here.tokens, start)?;
    let (x, end) = unary_at(here.alloc, here.tokens, at, here.level + 1)?;
    Ok((AssignTree::Step(span(here.tokens, start, end), op, x), end))
}

#[tactic(auto, unfolding(crate::specs::Joined::assign_placed))]
fn assign_placed(here: &Here<'_>, start: u32) -> Result<(AssignTree, u32), ExprFault>
    ensures { Gives (joined.assign_placed here.now.tokens.now here.now.level start) result }
{
    let (place, at) = unary_at(here.alloc, here.tokens, start, here.level)?;
    assign_rest(here, start, place, at)
}

/// An assignment, as the grammar says.
#[tactic(auto, using(crate::proofs::Assignments::assign_arms))]
pub fn assign(here: &Here<'_>, start: u32) -> Result<(AssignTree, u32), ExprFault>
    ensures { Gives (spec.assign here.now.tokens.now here.now.level start) result }
{
    if is_step(here.tokens, start) {
        step_before(here, start)
    } else {
        assign_placed(here, start)
    }
}

#[tactic(auto, unfolding(crate::specs::Joined::closed_assign))]
fn closed_assign(
    here: &Here<'_>,
    mark: u32,
    start: u32,
    place: Expr,
    at: u32,
) -> Result<(ForStep, u32), ExprFault>
    ensures { Gives (joined.closed_assign here.now.tokens.now here.now.level mark start place at) result }
{
    let (x, at) = assign_rest(here, start, place, at)?;
    let end = expect(here.tokens, mark, at)?;
    Ok((ForStep::Assign(x), end))
}

#[tactic(auto, unfolding(crate::specs::Joined::closed_expr))]
fn closed_expr(
    here: &Here<'_>,
    mark: u32,
    start: u32,
    first: Expr,
    at: u32,
) -> Result<(ForStep, u32), ExprFault>
    ensures { Gives (joined.closed_expr here.now.tokens.now here.now.level mark start first at) result }
{
    let (x, at) = expression_behind(here.alloc, here.tokens, start, first, at, here.level)?;
    let end = expect(here.tokens, mark, at)?;
    Ok((ForStep::Expr(x), end))
}

#[tactic(auto, unfolding(crate::specs::Joined::closed_rest))]
fn closed_rest(
    here: &Here<'_>,
    mark: u32,
    start: u32,
    first: Expr,
    at: u32,
) -> Result<(ForStep, u32), ExprFault>
    ensures { Gives (joined.closed_rest here.now.tokens.now here.now.level mark start first at) result }
{
    if assigns(here.tokens, at) {
        closed_assign(here, mark, start, first, at)
    } else {
        closed_expr(here, mark, start, first, at)
    }
}

#[tactic(auto, unfolding(crate::specs::Joined::closed_placed))]
fn closed_placed(here: &Here<'_>, mark: u32, start: u32) -> Result<(ForStep, u32), ExprFault>
    ensures { Gives (joined.closed_placed here.now.tokens.now here.now.level mark start) result }
{
    let (first, at) = unary_at(here.alloc, here.tokens, start, here.level)?;
    closed_rest(here, mark, start, first, at)
}

#[tactic(auto, unfolding(crate::specs::Joined::closed_step))]
fn closed_step(here: &Here<'_>, mark: u32, start: u32) -> Result<(ForStep, u32), ExprFault>
    ensures { Gives (joined.closed_step here.now.tokens.now here.now.level mark start) result }
{
    let (x, at) = step_before(here, start)?;
    let end = expect(here.tokens, mark, at)?;
    Ok((ForStep::Assign(x), end))
}

/// An assignment or an expression, behind which this mark stands.
#[tactic(auto, unfolding(crate::specs::Joined::closed))]
pub fn closed(here: &Here<'_>, mark: u32, start: u32) -> Result<(ForStep, u32), ExprFault>
    ensures { Gives (joined.closed here.now.tokens.now here.now.level mark start) result }
{
    if is_step(here.tokens, start) {
        closed_step(here, mark, start)
    } else {
        closed_placed(here, mark, start)
    }
}
