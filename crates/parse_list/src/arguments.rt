//! Arguments ([expr.call]).

ghost use Rattle.cxx_grammar.specs.Lists as spec;
ghost use Rattle.cxx_grammar.specs.Read.{read};
ghost use Rattle.cxx_reading.specs.Reading.{Gives};

use containers::Items;
use cxx_reading::{ExprFault, Reader, expect, if_any, longer, repeat, sees, single, span};
use cxx_tokens::mark::{COMMA, LEFT_BRACE, LEFT_PAREN, RIGHT_PAREN};
use cxx_tree::{ArgTree, ArgTrees};
use parse_level::{Deeper, deep_braced, deep_expr};

#[inline(never)]
#[tactic(auto, unfolding(cxx_grammar::specs::Lists::arg_expr))]
fn arg_expr<D: Deeper>(reader: &Reader<'_, D>, start: u32) -> Result<(ArgTree, u32), ExprFault>
    requires { D.ready reader.now.deeper reader.now.tokens.now reader.now.level }
    ensures { Gives (spec.arg_expr reader.now.tokens.now (read reader.now.tokens.now reader.now.level) start) result }
{
    let (x, end) = deep_expr(reader, start)?;
    Ok((ArgTree::Expr(x), end))
}

#[inline(never)]
#[tactic(auto, unfolding(cxx_grammar::specs::Lists::arg_braced))]
fn arg_braced<D: Deeper>(reader: &Reader<'_, D>, start: u32) -> Result<(ArgTree, u32), ExprFault>
    requires { D.ready reader.now.deeper reader.now.tokens.now reader.now.level }
    ensures { Gives (spec.arg_braced reader.now.tokens.now (read reader.now.tokens.now reader.now.level) start) result }
{
    let (x, end) = deep_braced(reader, start)?;
    Ok((ArgTree::Braced(x), end))
}

#[tactic(auto, unfolding(cxx_grammar::specs::Lists::arg), using(cxx_reading::proofs::Choices::choice))]
fn any_arg<D: Deeper>(reader: &Reader<'_, D>, start: u32) -> Result<(ArgTree, u32), ExprFault>
    requires { D.ready reader.now.deeper reader.now.tokens.now reader.now.level }
    ensures { Gives (spec.arg reader.now.tokens.now (read reader.now.tokens.now reader.now.level) start) result }
{
    longer(arg_expr(reader, start), arg_braced(reader, start))
}

/// An argument: an expression or a braced list.
#[tactic(auto, using(cxx_grammar::proofs::Looks::arg_elsewhere))]
pub fn arg<D: Deeper>(reader: &Reader<'_, D>, start: u32) -> Result<(ArgTree, u32), ExprFault>
    requires { D.ready reader.now.deeper reader.now.tokens.now reader.now.level }
    ensures { Gives (spec.arg reader.now.tokens.now (read reader.now.tokens.now reader.now.level) start) result }
{
    if sees(reader.tokens, LEFT_BRACE, start) {
        any_arg(reader, start)
    } else {
        arg_expr(reader, start)
    }
}

#[tactic(auto, unfolding(cxx_grammar::specs::Lists::next_arg))]
fn next_arg<D: Deeper>(reader: &Reader<'_, D>, start: u32) -> Result<(ArgTree, u32), ExprFault>
    requires { D.ready reader.now.deeper reader.now.tokens.now reader.now.level }
    ensures { Gives (spec.next_arg reader.now.tokens.now (read reader.now.tokens.now reader.now.level) start) result }
{
    let at = expect(reader.tokens, COMMA, start)?;
    arg(reader, at)
}

#[tactic(auto, unfolding(cxx_grammar::specs::Lists::more_args))]
fn more_args<D: Deeper>(
    reader: &Reader<'_, D>,
    found: Items<ArgTree>,
    at: u32,
) -> Result<(Items<ArgTree>, u32), ExprFault>
    requires { D.ready reader.now.deeper reader.now.tokens.now reader.now.level }
    ensures { Gives (spec.more_args reader.now.tokens.now (read reader.now.tokens.now reader.now.level) found at) result }
{
    repeat(
        reader.alloc,
        reader.tokens,
        |at| next_arg(reader, at),
        found,
        at,
    )
}

#[inline(never)]
#[tactic(auto, unfolding(cxx_grammar::specs::Lists::some_args))]
fn some_args<D: Deeper>(
    reader: &Reader<'_, D>,
    start: u32,
) -> Result<(Items<ArgTree>, u32), ExprFault>
    requires { D.ready reader.now.deeper reader.now.tokens.now reader.now.level }
    ensures { Gives (spec.some_args reader.now.tokens.now (read reader.now.tokens.now reader.now.level) start) result }
{
    let (first, at) = arg(reader, start)?;
    let found = single(reader.alloc, first)?;
    more_args(reader, found, at)
}

#[tactic(auto, unfolding(cxx_grammar::specs::Lists::args_if_any, cxx_reading::specs::Reading::if_any), using(cxx_reading::proofs::Answers::empty_left))]
fn args_if_any<D: Deeper>(
    reader: &Reader<'_, D>,
    start: u32,
) -> Result<(Items<ArgTree>, u32), ExprFault>
    requires { D.ready reader.now.deeper reader.now.tokens.now reader.now.level }
    ensures { Gives (spec.args_if_any reader.now.tokens.now (read reader.now.tokens.now reader.now.level) start) result }
{
    if_any(reader.alloc, some_args(reader, start), start)
}

/// Arguments with their parentheses, as the grammar says.
#[inline(never)]
#[tactic(auto, unfolding(cxx_grammar::specs::Lists::args))]
pub fn args<D: Deeper>(reader: &Reader<'_, D>, start: u32) -> Result<(ArgTrees, u32), ExprFault>
    requires { D.ready reader.now.deeper reader.now.tokens.now reader.now.level }
    ensures { Gives (spec.args reader.now.tokens.now (read reader.now.tokens.now reader.now.level) start) result }
{
    let at = expect(reader.tokens, LEFT_PAREN, start)?;
    let (found, at) = args_if_any(reader, at)?;
    let end = expect(reader.tokens, RIGHT_PAREN, at)?;
    Ok((ArgTrees::Args(span(reader.tokens, start, end), found), end))
}
