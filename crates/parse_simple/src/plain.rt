//! Empty statements, assertions and aliases ([stmt.expr], [dcl.pre], [dcl.typedef]).

ghost use Rattle.std.specs.Prelude.{◌≤◌};
ghost use Rattle.cxx_grammar.specs.Statements as spec;
ghost use Rattle.cxx_reading.specs.Reading.{Gives};

use cxx_reading::{ExprFault, expect, span};
use cxx_tokens::Tokens;
use cxx_tokens::mark::SEMICOLON;
use cxx_tree::Stmt;
use parse_local::{alias, assert_at};
use parse_repeat::Here;
use std::alloc::Global;

/// `;`
#[tactic(auto, unfolding(cxx_grammar::specs::Statements::empty_form))]
pub fn empty_form(tokens: &Tokens, start: u32) -> Result<(Stmt, u32), ExprFault>
    ensures { Gives (spec.empty_form tokens.now start) result }
{
    let end = expect(tokens, SEMICOLON, start)?;
    Ok((Stmt::Empty(span(tokens, start, end)), end))
}

/// An assertion, in whose parentheses the level is `in_parens`, at most 257.
#[tactic(auto, unfolding(cxx_grammar::specs::Statements::assert_form))]
pub fn assert_form(
    alloc: Global,
    tokens: &Tokens,
    start: u32,
    in_parens: u32,
) -> Result<(Stmt, u32), ExprFault>
    requires { in_parens ≤ 257 }
    ensures { Gives (spec.assert_form tokens.now in_parens start) result }
{
    let (x, end) = assert_at(alloc, tokens, start, in_parens)?;
    Ok((Stmt::Assert(x), end))
}

/// An alias.
#[tactic(auto, unfolding(cxx_grammar::specs::Statements::alias_form))]
pub fn alias_form(here: &Here<'_>, start: u32) -> Result<(Stmt, u32), ExprFault>
    ensures { Gives (spec.alias_form here.now.tokens.now here.now.level start) result }
{
    let (x, end) = alias(here, start)?;
    Ok((Stmt::Alias(x), end))
}
