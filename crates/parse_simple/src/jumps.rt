//! Statements that leave what is around them ([stmt.jump]).

ghost use Rattle.cxx_grammar.specs.Read.{read};
ghost use Rattle.cxx_grammar.specs.Statements as spec;
ghost use Rattle.cxx_reading.specs.Reading.{Gives, Tree, and_then};
ghost use Rattle.cxx_tree.specs.declared.stmt.Returned.TheVariants as returned_of;

use cxx_grammar::Within;
use cxx_reading::{ExprFault, expect, expect_word, longer, span};
use cxx_tokens::Tokens;
use cxx_tokens::keyword::{BREAK, CONTINUE, RETURN};
use cxx_tokens::mark::SEMICOLON;
use cxx_tree::{Returned, Stmt};
use parse_expr::{braced_at, expression};
use parse_repeat::{Here, Part, optional};

fn returned_expr(here: &Here<'_>, at: u32) -> Result<(Returned, u32), ExprFault>
    ensures { Gives (and_then ((read here.now.tokens.now here.now.level).expr at) (λ x j. Tree (returned_of.Expr x) j)) result }
{
    let (x, end) = expression(here.alloc, here.tokens, at, here.level)?;
    Ok((Returned::Expr(x), end))
}

fn returned_braced(here: &Here<'_>, at: u32) -> Result<(Returned, u32), ExprFault>
    ensures { Gives (and_then ((read here.now.tokens.now here.now.level).braced at) (λ x j. Tree (returned_of.Braced x) j)) result }
{
    let (x, end) = braced_at(here.alloc, here.tokens, at, here.level)?;
    Ok((Returned::Braced(x), end))
}

// What is returned by a statement at this level.
#[derive(Clone, Copy)]
struct WhatReturns<'a>(Here<'a>);

impl Part for WhatReturns<'_> {
    type Tree = Returned;

    ghost can = { λ _. Unit {0} };

    ghost part = { λ p. spec.returned p.0.tokens.now p.0.level };

    #[tactic(auto, unfolding(cxx_grammar::specs::Statements::returned), using(cxx_reading::proofs::Choices::choice))]
    fn read(&self, at: u32) -> Result<(Returned, u32), ExprFault> {
        longer(returned_expr(&self.0, at), returned_braced(&self.0, at))
    }
}

/// `return`, with what is returned if anything is.
#[tactic(auto, unfolding(cxx_grammar::specs::Statements::return_form))]
pub fn return_form(here: &Here<'_>, start: u32) -> Result<(Stmt, u32), ExprFault>
    ensures { Gives (spec.return_form here.now.tokens.now here.now.level start) result }
{
    let at = expect_word(here.tokens, RETURN, start)?;
    let (x, at) = optional(&WhatReturns(*here), at)?;
    let end = expect(here.tokens, SEMICOLON, at)?;
    Ok((Stmt::Return(span(here.tokens, start, end), x), end))
}

/// `break`, in a loop alone.
#[tactic(auto, unfolding(cxx_grammar::specs::Statements::break_form))]
pub fn break_form(tokens: &Tokens, start: u32, within: Within) -> Result<(Stmt, u32), ExprFault>
    ensures { Gives (spec.break_form tokens.now within start) result }
{
    if !within.in_loop {
        return Err(ExprFault::S1);
    }
    let at = expect_word(tokens, BREAK, start)?;
    let end = expect(tokens, SEMICOLON, at)?;
    Ok((Stmt::Break(span(tokens, start, end)), end))
}

/// `continue`, in a loop alone.
#[tactic(auto, unfolding(cxx_grammar::specs::Statements::continue_form))]
pub fn continue_form(tokens: &Tokens, start: u32, within: Within) -> Result<(Stmt, u32), ExprFault>
    ensures { Gives (spec.continue_form tokens.now within start) result }
{
    if !within.in_loop {
        return Err(ExprFault::S1);
    }
    let at = expect_word(tokens, CONTINUE, start)?;
    let end = expect(tokens, SEMICOLON, at)?;
    Ok((Stmt::Continue(span(tokens, start, end)), end))
}
