//! Primary expressions that are a literal or a word ([lex.literal], [expr.prim.literal], [expr.prim.this]).

ghost use Rattle.cxx_grammar.specs.Primaries as spec;
ghost use Rattle.cxx_reading.specs.Reading.{Gives};

use cxx_reading::{ExprFault, character, expect_word, integer, span, text};
use cxx_tokens::Tokens;
use cxx_tokens::keyword::{FALSE, NULLPTR, THIS, TRUE};
use cxx_tree::Expr;
use std::alloc::Global;

/// An integer literal ([lex.icon]). Answers `S1` exactly where none stands.
#[tactic(auto, unfolding(cxx_grammar::specs::Primaries::integer_form))]
pub fn integer_form(tokens: &Tokens, start: u32) -> Result<(Expr, u32), ExprFault>
    ensures { Gives (spec.integer_form tokens.now start) result }
{
    let (n, end) = integer(tokens, start)?;
    let span = span(tokens, start, end);
    Ok((Expr::Integer(span, n), end))
}

/// A character literal ([lex.ccon]). Answers `S1` exactly where none stands.
#[tactic(auto, unfolding(cxx_grammar::specs::Primaries::character_form))]
pub fn character_form(tokens: &Tokens, start: u32) -> Result<(Expr, u32), ExprFault>
    ensures { Gives (spec.character_form tokens.now start) result }
{
    let (n, end) = character(tokens, start)?;
    let span = span(tokens, start, end);
    Ok((Expr::Character(span, n), end))
}

/// A string literal ([lex.string]). Answers `S1` exactly where none stands.
#[tactic(auto, unfolding(cxx_grammar::specs::Primaries::text_form))]
pub fn text_form(alloc: Global, tokens: &Tokens, start: u32) -> Result<(Expr, u32), ExprFault>
    ensures { Gives (spec.text_form tokens.now start) result }
{
    let (n, end) = text(alloc, tokens, start)?;
    let span = span(tokens, start, end);
    Ok((Expr::Text(span, n), end))
}

/// `true` ([lex.bool]). Answers `S1` exactly where none stands.
#[tactic(auto, unfolding(cxx_grammar::specs::Primaries::true_form))]
pub fn true_form(tokens: &Tokens, start: u32) -> Result<(Expr, u32), ExprFault>
    ensures { Gives (spec.true_form tokens.now start) result }
{
    let end = expect_word(tokens, TRUE, start)?;
    let span = span(tokens, start, end);
    Ok((Expr::Truth(span, true), end))
}

/// `false` ([lex.bool]). Answers `S1` exactly where none stands.
#[tactic(auto, unfolding(cxx_grammar::specs::Primaries::false_form))]
pub fn false_form(tokens: &Tokens, start: u32) -> Result<(Expr, u32), ExprFault>
    ensures { Gives (spec.false_form tokens.now start) result }
{
    let end = expect_word(tokens, FALSE, start)?;
    let span = span(tokens, start, end);
    Ok((Expr::Truth(span, false), end))
}

/// `nullptr` ([lex.nullptr]). Answers `S1` exactly where none stands.
#[tactic(auto, unfolding(cxx_grammar::specs::Primaries::nullptr_form))]
pub fn nullptr_form(tokens: &Tokens, start: u32) -> Result<(Expr, u32), ExprFault>
    ensures { Gives (spec.nullptr_form tokens.now start) result }
{
    let end = expect_word(tokens, NULLPTR, start)?;
    let span = span(tokens, start, end);
    Ok((Expr::Nullptr(span), end))
}

/// `this` ([expr.prim.this]). Answers `S1` exactly where none stands.
#[tactic(auto, unfolding(cxx_grammar::specs::Primaries::this_form))]
pub fn this_form(tokens: &Tokens, start: u32) -> Result<(Expr, u32), ExprFault>
    ensures { Gives (spec.this_form tokens.now start) result }
{
    let end = expect_word(tokens, THIS, start)?;
    let span = span(tokens, start, end);
    Ok((Expr::This(span), end))
}
