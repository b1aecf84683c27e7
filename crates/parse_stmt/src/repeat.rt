//! Statements that are repeated by the head of a `for` ([stmt.for], [stmt.ranged]).

ghost use Rattle.std.specs.Prelude.{◌≡◌, ◌≤◌};
ghost use Rattle.cxx_grammar.specs.Nests.{looping};
ghost use Rattle.cxx_grammar.specs.Statements as spec;
ghost use Rattle.cxx_reading.specs.Reading.{Gives, longer};
ghost use Rattle.parse_stmt.specs.Joined as joined;

use crate::branch::boxed_sub;
use cxx_base::TOO_DEEP;
use cxx_grammar::Within;
use cxx_reading::{ExprFault, expect, expect_word, span};
use cxx_tokens::Tokens;
use cxx_tokens::keyword::FOR;
use cxx_tokens::mark::LEFT_PAREN;
use cxx_tree::Stmt;
use parse_head::{HeadTree, head};
use parse_nest::{Nest, Nested};
use parse_repeat::Here;

// `for` and its head, at this level.
#[tactic(auto, unfolding(crate::specs::Joined::for_head))]
fn for_head(here: &Here<'_>, start: u32) -> Result<(HeadTree, u32), ExprFault>
    ensures { Gives (joined.for_head here.now.tokens.now here.now.level start) result }
{
    let at = expect_word(here.tokens, FOR, start)?;
    let at = expect(here.tokens, LEFT_PAREN, at)?;
    head(here, at)
}

#[tactic(auto, unfolding(crate::specs::Joined::for_joined))]
fn for_joined<N: Nested>(
    nest: &Nest<'_, N>,
    start: u32,
    in_parens: u32,
    within: Within,
) -> Result<(Stmt, u32), ExprFault>
    requires can { N.can nest.now.inner.now }
    requires level { in_parens ≤ 256 }
    ensures { Gives (joined.for_joined nest.now.here.tokens.now in_parens ((N.nests nest.now.inner.now).sub (looping within)) start) result }
{
    let here = Here {
        alloc: nest.here.alloc,
        tokens: nest.here.tokens,
        level: in_parens,
    };
    let (head, at) = for_head(&here, start)?;
    let (turn, end) = boxed_sub(nest, at, within.looping())?;
    Ok((head.into_stmt(span(here.tokens, start, end), turn), end))
}

// `for (` where what stands in the parentheses is too deep.
#[tactic(auto, unfolding(crate::specs::Joined::for_beyond))]
fn for_beyond(tokens: &Tokens, at: u32) -> Result<(Stmt, u32), ExprFault>
    ensures { Gives (joined.for_beyond tokens.now at) result }
{
    let at = expect_word(tokens, FOR, at)?;
    expect(tokens, LEFT_PAREN, at)?;
    Err(ExprFault::S2)
}

/// A `for` of either form, in whose parentheses the level is `in_parens`.
#[tactic(auto, using(crate::proofs::ForForms::for_arms))]
pub fn for_form<N: Nested>(
    nest: &Nest<'_, N>,
    start: u32,
    in_parens: u32,
    within: Within,
) -> Result<(Stmt, u32), ExprFault>
    requires can { N.can nest.now.inner.now }
    requires level { in_parens ≤ 257 }
    ensures { Gives (longer (spec.for_form nest.now.here.tokens.now in_parens (N.nests nest.now.inner.now) within start) (spec.range_for_form nest.now.here.tokens.now in_parens (N.nests nest.now.inner.now) within start)) result }
{
    if in_parens == TOO_DEEP {
        for_beyond(nest.here.tokens, start)
    } else {
        for_joined(nest, start, in_parens, within)
    }
}
