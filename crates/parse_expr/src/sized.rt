//! The operand of `sizeof` ([expr.sizeof]).

ghost use Rattle.cxx_grammar.specs.Joined as spec;
ghost use Rattle.cxx_grammar.specs.Read.{read};
ghost use Rattle.cxx_reading.specs.Reading.{Gives};

use crate::choice::{expr_from, expr_here};
use containers::Items;
use cxx_grammar::SizedOperand;
use cxx_reading::{ExprFault, Reader, Seen, eat, eat_word, expect_word, kind_at, longer, span};
use cxx_tokens::keyword::{CONST, TYPENAME};
use cxx_tokens::mark::AMPERSAND;
use cxx_tree::{BasicTree, Expr, NewInit, SpliceTree, TypeTree};
use parse_level::Deeper;
use parse_primary::{initializer, postfix_from, typename_made};
use parse_type::{pointers, splice, type_tree};

fn sized_type<D: Deeper>(
    reader: &Reader<'_, D>,
    start: u32,
) -> Result<(SizedOperand, u32), ExprFault>
    requires { D.ready reader.now.deeper reader.now.tokens.now reader.now.level }
    ensures { Gives (spec.sized_as_type reader.now.tokens.now (read reader.now.tokens.now reader.now.level) start) result }
{
    let (x, end) = type_tree(reader, start)?;
    Ok((SizedOperand::Type(x), end))
}

fn sized_expr<D: Deeper>(
    reader: &Reader<'_, D>,
    start: u32,
) -> Result<(SizedOperand, u32), ExprFault>
    requires { D.ready reader.now.deeper reader.now.tokens.now reader.now.level }
    ensures { Gives (spec.sized_as_expr reader.now.tokens.now (read reader.now.tokens.now reader.now.level) start) result }
{
    let (x, end) = expr_here(reader, start)?;
    Ok((SizedOperand::Expr(x), end))
}

#[inline(never)]
#[tactic(auto, using(cxx_reading::proofs::Choices::choice), unfolding(cxx_grammar::specs::Joined::sized_here))]
fn sized_both<D: Deeper>(
    reader: &Reader<'_, D>,
    start: u32,
) -> Result<(SizedOperand, u32), ExprFault>
    requires { D.ready reader.now.deeper reader.now.tokens.now reader.now.level }
    ensures { Gives (spec.sized_here reader.now.tokens.now (read reader.now.tokens.now reader.now.level) start) result }
{
    longer(sized_type(reader, start), sized_expr(reader, start))
}

#[tactic(auto, unfolding(cxx_grammar::specs::Joined::type_rest))]
fn type_rest<D: Deeper>(
    reader: &Reader<'_, D>,
    start: u32,
    splice: SpliceTree,
    at: u32,
) -> Result<(TypeTree, u32), ExprFault>
    ensures { Gives (spec.type_rest reader.now.tokens.now (read reader.now.tokens.now reader.now.level) start splice at) result }
{
    let basic = BasicTree::Typename(span(reader.tokens, start, at), splice);
    let (after, at) = eat_word(reader.tokens, CONST, at);
    let (pointers, at) = pointers(reader.alloc, reader.tokens, Items::new(reader.alloc), at)?;
    let (reference, end) = eat(reader.tokens, AMPERSAND, at);
    let span = span(reader.tokens, start, end);
    Ok((TypeTree::Type(span, after, basic, pointers, reference), end))
}

#[tactic(auto, unfolding(cxx_grammar::specs::Joined::sized_type_rest))]
fn sized_type_rest<D: Deeper>(
    reader: &Reader<'_, D>,
    start: u32,
    splice: SpliceTree,
    at: u32,
) -> Result<(SizedOperand, u32), ExprFault>
    ensures { Gives (spec.sized_type_rest reader.now.tokens.now (read reader.now.tokens.now reader.now.level) start splice at) result }
{
    let (x, end) = type_rest(reader, start, splice, at)?;
    Ok((SizedOperand::Type(x), end))
}

#[tactic(auto, unfolding(cxx_grammar::specs::Joined::expr_after))]
fn expr_after<D: Deeper>(
    reader: &Reader<'_, D>,
    start: u32,
    x: Expr,
    at: u32,
) -> Result<(Expr, u32), ExprFault>
    requires { D.ready reader.now.deeper reader.now.tokens.now reader.now.level }
    ensures { Gives (spec.expr_after reader.now.tokens.now (read reader.now.tokens.now reader.now.level) start x at) result }
{
    let (x, at) = postfix_from(reader, start, x, at)?;
    expr_from(reader, start, x, at)
}

#[tactic(auto, unfolding(cxx_grammar::specs::Joined::sized_expr_rest))]
fn sized_expr_rest<D: Deeper>(
    reader: &Reader<'_, D>,
    start: u32,
    middle: u32,
    splice: SpliceTree,
    init: NewInit,
    at: u32,
) -> Result<(SizedOperand, u32), ExprFault>
    requires { D.ready reader.now.deeper reader.now.tokens.now reader.now.level }
    ensures { Gives (spec.sized_expr_rest reader.now.tokens.now (read reader.now.tokens.now reader.now.level) start middle splice init at) result }
{
    let all = span(reader.tokens, start, at);
    let basic = span(reader.tokens, start, middle);
    let x = typename_made(reader.alloc, all, basic, splice, init)?;
    let (x, end) = expr_after(reader, start, x, at)?;
    Ok((SizedOperand::Expr(x), end))
}

#[tactic(auto, unfolding(cxx_grammar::specs::Joined::sized_rest))]
fn sized_rest<D: Deeper>(
    reader: &Reader<'_, D>,
    start: u32,
    splice: SpliceTree,
    at: u32,
) -> Result<(SizedOperand, u32), ExprFault>
    requires { D.ready reader.now.deeper reader.now.tokens.now reader.now.level }
    ensures { Gives (spec.sized_rest reader.now.tokens.now (read reader.now.tokens.now reader.now.level) start splice at) result }
{
    match initializer(reader, at) {
        Ok((init, end)) => sized_expr_rest(reader, start, at, splice, init, end),
        Err(ExprFault::S1) => sized_type_rest(reader, start, splice, at),
        Err(ExprFault::S2) => Err(ExprFault::S2),
        Err(ExprFault::Memory) => Err(ExprFault::Memory),
    }
}

#[inline(never)]
#[tactic(auto, unfolding(cxx_grammar::specs::Joined::sized_joined))]
fn sized_joined<D: Deeper>(
    reader: &Reader<'_, D>,
    start: u32,
) -> Result<(SizedOperand, u32), ExprFault>
    requires { D.ready reader.now.deeper reader.now.tokens.now reader.now.level }
    ensures { Gives (spec.sized_joined reader.now.tokens.now (read reader.now.tokens.now reader.now.level) start) result }
{
    let at = expect_word(reader.tokens, TYPENAME, start)?;
    let (splice, at) = splice(reader, at)?;
    sized_rest(reader, start, splice, at)
}

/// The operand of `sizeof`, at its own level.
#[tactic(auto, using(cxx_grammar::proofs::SizedForms::sized_arms))]
pub fn sized_here<D: Deeper>(
    reader: &Reader<'_, D>,
    start: u32,
) -> Result<(SizedOperand, u32), ExprFault>
    requires { D.ready reader.now.deeper reader.now.tokens.now reader.now.level }
    ensures { Gives (spec.sized_here reader.now.tokens.now (read reader.now.tokens.now reader.now.level) start) result }
{
    if let Some(Seen::Word(word)) = kind_at(reader.tokens, start) {
        if word == TYPENAME {
            return sized_joined(reader, start);
        }
    }
    sized_both(reader, start)
}
