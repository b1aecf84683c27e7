//! Names ([expr.prim.id]).

ghost use Rattle.std.specs.Prelude.{◌≡◌, [], IfErr};
ghost use Rattle.cxx_grammar.specs.Names as spec;
ghost use Rattle.cxx_reading.specs.Reading.{Gives, Steps};

use containers::Items;
use cxx_base::library::{STD, VECTOR};
use cxx_reading::{ExprFault, eat, expect, identifier, repeat, sees, span};
use cxx_tokens::Tokens;
use cxx_tokens::mark::{LESS, SCOPE};
use cxx_tree::{Identifier, NameTree};
use std::alloc::Global;

#[tactic(auto, unfolding(cxx_grammar::specs::Names::named))]
fn named(tokens: &Tokens, n: u32, at: u32) -> Result<u32, ExprFault>
    ensures { Steps (spec.named tokens.now n at) result }
{
    let (found, end) = identifier(tokens, at)?;
    if found.name.0 == n {
        Ok(end)
    } else {
        Err(ExprFault::S1)
    }
}

/// The four tokens that begin the type of a vector, and no name.
#[tactic(auto, unfolding(cxx_grammar::specs::Names::vector_head))]
pub fn vector_head(tokens: &Tokens, at: u32) -> Result<u32, ExprFault>
    ensures { Steps (spec.vector_head tokens.now at) result }
{
    let at = named(tokens, STD.0, at)?;
    let at = expect(tokens, SCOPE, at)?;
    let at = named(tokens, VECTOR.0, at)?;
    expect(tokens, LESS, at)
}

/// `::` and the identifier behind it. Memory does not run out.
#[tactic(auto, unfolding(cxx_grammar::specs::Names::part))]
pub fn part(tokens: &Tokens, at: u32) -> Result<(Identifier, u32), ExprFault>
    ensures gives { Gives (spec.part tokens.now at) result }
    ensures sure { IfErr result (λ fault. fault ≡ ExprFault.S1) }
{
    let at = expect(tokens, SCOPE, at)?;
    identifier(tokens, at)
}

/// Further parts of a name, each behind `::`, added to those found.
#[inline(never)]
#[tactic(auto, unfolding(cxx_grammar::specs::Names::parts))]
pub fn parts(
    alloc: Global,
    tokens: &Tokens,
    found: Items<Identifier>,
    at: u32,
) -> Result<(Items<Identifier>, u32), ExprFault>
    ensures { Gives (spec.parts tokens.now found at) result }
{
    repeat(alloc, tokens, |at| part(tokens, at), found, at)
}

// The parts behind the first. Mostly there are none, which one look tells.
#[inline(always)]
#[tactic(auto, using(crate::proofs::Looks::no_parts))]
fn more_parts(
    alloc: Global,
    tokens: &Tokens,
    at: u32,
) -> Result<(Items<Identifier>, u32), ExprFault>
    ensures { Gives (spec.parts tokens.now [] at) result }
{
    if sees(tokens, SCOPE, at) {
        parts(alloc, tokens, Items::new(alloc), at)
    } else {
        Ok((Items::new(alloc), at))
    }
}

#[tactic(auto, unfolding(cxx_grammar::specs::Names::any_name))]
fn any_name(alloc: Global, tokens: &Tokens, start: u32) -> Result<(NameTree, u32), ExprFault>
    ensures { Gives (spec.any_name tokens.now start) result }
{
    let (rooted, at) = eat(tokens, SCOPE, start);
    let (first, at) = identifier(tokens, at)?;
    let (more, end) = more_parts(alloc, tokens, at)?;
    let span = span(tokens, start, end);
    Ok((
        NameTree {
            span,
            rooted,
            first,
            more,
        },
        end,
    ))
}

/// A name, as the grammar says.
#[inline(never)]
#[tactic(auto, unfolding(cxx_grammar::specs::Names::name))]
pub fn name(alloc: Global, tokens: &Tokens, at: u32) -> Result<(NameTree, u32), ExprFault>
    ensures { Gives (spec.name tokens.now at) result }
{
    match vector_head(tokens, at) {
        Ok(_) => Err(ExprFault::S1),
        Err(_) => any_name(alloc, tokens, at),
    }
}
