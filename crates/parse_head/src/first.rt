//! The first statement of a head in which no declaration begins.

ghost use Rattle.cxx_grammar.specs.Statements as spec;
ghost use Rattle.cxx_reading.specs.Reading.{Gives};
ghost use Rattle.parse_head.specs.Joined as joined;

use cxx_reading::{ExprFault, expect, longer, span};
use cxx_tokens::Tokens;
use cxx_tokens::mark::SEMICOLON;
use cxx_tree::ForInit;
use parse_assign::assign;
use parse_repeat::Here;

#[tactic(auto, unfolding(crate::specs::Joined::first_assign))]
fn first_assign(here: &Here<'_>, at: u32) -> Result<(ForInit, u32), ExprFault>
    ensures { Gives (joined.first_assign here.now.tokens.now here.now.level at) result }
{
    let (x, at) = assign(here, at)?;
    let end = expect(here.tokens, SEMICOLON, at)?;
    Ok((ForInit::Assign(x), end))
}

#[tactic(auto, unfolding(cxx_grammar::specs::Statements::for_empty))]
fn first_empty(tokens: &Tokens, start: u32) -> Result<(ForInit, u32), ExprFault>
    ensures { Gives (spec.for_empty tokens.now start) result }
{
    let end = expect(tokens, SEMICOLON, start)?;
    Ok((ForInit::Empty(span(tokens, start, end)), end))
}

/// An assignment and `;`, or `;` alone.
#[tactic(auto, unfolding(crate::specs::Joined::plain_first), using(cxx_reading::proofs::Choices::choice))]
pub fn plain_first(here: &Here<'_>, at: u32) -> Result<(ForInit, u32), ExprFault>
    ensures { Gives (joined.plain_first here.now.tokens.now here.now.level at) result }
{
    longer(first_assign(here, at), first_empty(here.tokens, at))
}
