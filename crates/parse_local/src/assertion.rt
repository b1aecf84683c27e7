//! Assertions ([dcl.pre]).

ghost use Rattle.std.specs.Prelude.{◌≤◌};
ghost use Rattle.cxx_grammar.specs.Locals as spec;
ghost use Rattle.cxx_reading.specs.Reading.{Gives, Steps, Tree, and_then, text};
ghost use Rattle.cxx_grammar.specs.Read.{read};

use containers::Boxed;
use cxx_base::Span;
use cxx_reading::{ExprFault, expect, expect_word, span};
use cxx_tokens::keyword::STATIC_ASSERT;
use cxx_tokens::mark::{COMMA, LEFT_PAREN, RIGHT_PAREN, SEMICOLON};
use cxx_tokens::{TokenKind, Tokens};
use cxx_tree::{AssertTree, Expr};
use parse_expr::expression;
use parse_repeat::{Part, optional};
use std::alloc::Global;

// The token behind a string literal.
#[tactic(auto, unfolding(cxx_reading::specs::Reading::text))]
fn skip_text(tokens: &Tokens, at: u32) -> Result<u32, ExprFault>
    ensures { Steps (and_then (text tokens.now at) (λ _ j. Tree tt j)) result }
{
    match tokens.list.get(at as usize) {
        Some(token) => match token.kind {
            TokenKind::Text(_) => Ok(at + 1),
            _ => Err(ExprFault::S1),
        },
        None => Err(ExprFault::S1),
    }
}

// What an assertion says, behind its comma.
#[derive(Clone, Copy)]
struct Message<'a>(&'a Tokens);

impl Part for Message<'_> {
    type Tree = Span;

    ghost can = { λ _. Unit {0} };

    ghost part = { λ p. spec.message p.0.now };

    #[tactic(auto, unfolding(cxx_grammar::specs::Locals::message))]
    fn read(&self, at: u32) -> Result<(Span, u32), ExprFault> {
        let start = expect(self.0, COMMA, at)?;
        let end = skip_text(self.0, start)?;
        Ok((span(self.0, start, end), end))
    }
}

// An expression in its box.
fn boxed_expression(
    alloc: Global,
    tokens: &Tokens,
    at: u32,
    level: u32,
) -> Result<(Boxed<Expr>, u32), ExprFault>
    requires { level ≤ 257 }
    ensures { Gives ((read tokens.now level).expr at) result }
{
    let (x, end) = expression(alloc, tokens, at, level)?;
    Ok((Boxed::new(alloc, x)?, end))
}

/// The assertion that begins at token number `start`, and the number of the token after it: exactly what the grammar
/// gives. What stands in its parentheses is at the level `within`, which is at most 257. It answers `S1` exactly where
/// none begins, `S2` exactly where it is too deep, or `Memory`.
#[tactic(auto, unfolding(cxx_grammar::specs::Locals::assert))]
pub fn assert_at(
    alloc: Global,
    tokens: &Tokens,
    start: u32,
    within: u32,
) -> Result<(AssertTree, u32), ExprFault>
    requires { within ≤ 257 }
    ensures { Gives (spec.assert tokens.now within start) result }
{
    let at = expect_word(tokens, STATIC_ASSERT, start)?;
    let at = expect(tokens, LEFT_PAREN, at)?;
    let (condition, at) = boxed_expression(alloc, tokens, at, within)?;
    let (message, at) = optional(&Message(tokens), at)?;
    let at = expect(tokens, RIGHT_PAREN, at)?;
    let end = expect(tokens, SEMICOLON, at)?;
    let span = span(tokens, start, end);
    Ok((
        AssertTree {
            span,
            condition,
            message,
        },
        end,
    ))
}
