//! Bodies, and blocks ([stmt.block], P3289R1).

ghost use Rattle.cxx_grammar.specs.Declarations as spec;
ghost use Rattle.cxx_reading.specs.Reading.{Gives};

use containers::Boxed;
use cxx_reading::{ExprFault, expect, expect_word, longer, span};
use cxx_tokens::Tokens;
use cxx_tokens::keyword::CONSTEVAL;
use cxx_tokens::mark::{LEFT_BRACE, RIGHT_BRACE, SEMICOLON};
use cxx_tree::{BlockTree, BodyTree, Stmt};
use parse_repeat::{Part, list_if_any};
use std::alloc::Global;

/// Braces around statements, each of which `inside` reads. It answers `S1` exactly where no body begins, `S2` exactly where
/// it is too deep, or `Memory`.
#[tactic(auto, unfolding(cxx_grammar::specs::Declarations::body, cxx_grammar::specs::Declarations::statements, cxx_grammar::specs::Declarations::some_statements, cxx_grammar::specs::Declarations::more_statements))]
pub fn body<S: Part<Tree = Stmt>>(
    alloc: Global,
    tokens: &Tokens,
    inside: &S,
    start: u32,
) -> Result<(BodyTree, u32), ExprFault>
    requires { S.can inside.now }
    ensures { Gives (spec.body tokens.now (S.part inside.now) start) result }
{
    let at = expect(tokens, LEFT_BRACE, start)?;
    let (found, at) = list_if_any(alloc, tokens, inside, at)?;
    let end = expect(tokens, RIGHT_BRACE, at)?;
    Ok((BodyTree::Body(span(tokens, start, end), found), end))
}

/// `consteval` and a body, in the same way.
#[tactic(auto, unfolding(cxx_grammar::specs::Declarations::block))]
pub fn block<S: Part<Tree = Stmt>>(
    alloc: Global,
    tokens: &Tokens,
    inside: &S,
    start: u32,
) -> Result<(BlockTree, u32), ExprFault>
    requires { S.can inside.now }
    ensures { Gives (spec.block tokens.now (S.part inside.now) start) result }
{
    let at = expect_word(tokens, CONSTEVAL, start)?;
    let (body, end) = body(alloc, tokens, inside, at)?;
    let span = span(tokens, start, end);
    Ok((BlockTree { span, body }, end))
}

/// A body, in its box.
pub fn boxed_body<S: Part<Tree = Stmt>>(
    alloc: Global,
    tokens: &Tokens,
    inside: &S,
    start: u32,
) -> Result<(Boxed<BodyTree>, u32), ExprFault>
    requires { S.can inside.now }
    ensures { Gives (spec.body tokens.now (S.part inside.now) start) result }
{
    let (x, end) = body(alloc, tokens, inside, start)?;
    Ok((Boxed::new(alloc, x)?, end))
}

#[tactic(auto, unfolding(cxx_grammar::specs::Declarations::without_body))]
fn without_body(tokens: &Tokens, start: u32) -> Result<(Option<Boxed<BodyTree>>, u32), ExprFault>
    ensures { Gives (spec.without_body tokens.now start) result }
{
    let end = expect(tokens, SEMICOLON, start)?;
    Ok((None, end))
}

#[tactic(auto, unfolding(cxx_grammar::specs::Declarations::with_body))]
fn with_body<S: Part<Tree = Stmt>>(
    alloc: Global,
    tokens: &Tokens,
    inside: &S,
    start: u32,
) -> Result<(Option<Boxed<BodyTree>>, u32), ExprFault>
    requires { S.can inside.now }
    ensures { Gives (spec.with_body tokens.now (S.part inside.now) start) result }
{
    let (x, end) = boxed_body(alloc, tokens, inside, start)?;
    Ok((Some(x), end))
}

/// A body in its box, or `;`.
#[tactic(auto, unfolding(cxx_grammar::specs::Declarations::body_or_none), using(cxx_reading::proofs::Choices::choice))]
pub fn body_or_none<S: Part<Tree = Stmt>>(
    alloc: Global,
    tokens: &Tokens,
    inside: &S,
    start: u32,
) -> Result<(Option<Boxed<BodyTree>>, u32), ExprFault>
    requires { S.can inside.now }
    ensures { Gives (spec.body_or_none tokens.now (S.part inside.now) start) result }
{
    longer(
        without_body(tokens, start),
        with_body(alloc, tokens, inside, start),
    )
}
