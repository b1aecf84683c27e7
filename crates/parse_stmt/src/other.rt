//! Statements without braces of their own ([stmt.pre]).

ghost use Rattle.std.specs.Prelude.{◌≤◌};
ghost use Rattle.cxx_grammar.specs.Statements as spec;
ghost use Rattle.cxx_reading.specs.Reading.{Gives};

use crate::branch::{if_form, while_form};
use crate::repeat::for_form;
use cxx_grammar::Within;
use cxx_reading::{ExprFault, Seen, kind_at};
use cxx_tokens::keyword::{BREAK, CONTINUE, FOR, IF, RETURN, STATIC_ASSERT, USING, WHILE};
use cxx_tokens::mark::SEMICOLON;
use cxx_tree::Stmt;
use parse_nest::{Nest, Nested};
use parse_simple::{
    alias_form, assert_form, break_form, continue_form, empty_form, return_form, simple,
};

/// A statement without braces of its own. What stands in its parentheses is at the level `in_parens`.
#[tactic(auto, using(crate::proofs::StatementArms::other_arms))]
pub fn other_stmt<N: Nested>(
    nest: &Nest<'_, N>,
    at: u32,
    in_parens: u32,
    within: Within,
) -> Result<(Stmt, u32), ExprFault>
    requires can { N.can nest.now.inner.now }
    requires level { in_parens ≤ 257 }
    ensures { Gives (spec.other_stmt nest.now.here.tokens.now nest.now.here.level (N.nests nest.now.inner.now) in_parens within at) result }
{
    let here = &nest.here;
    match kind_at(here.tokens, at) {
        Some(Seen::Punctuator(mark)) => {
            if mark == SEMICOLON {
                empty_form(here.tokens, at)
            } else {
                simple(here, at)
            }
        }
        Some(Seen::Word(word)) => {
            if word == IF {
                if_form(nest, at, in_parens, within)
            } else if word == WHILE {
                while_form(nest, at, in_parens, within)
            } else if word == FOR {
                for_form(nest, at, in_parens, within)
            } else if word == RETURN {
                return_form(here, at)
            } else if word == BREAK {
                break_form(here.tokens, at, within)
            } else if word == CONTINUE {
                continue_form(here.tokens, at, within)
            } else if word == USING {
                alias_form(here, at)
            } else if word == STATIC_ASSERT {
                assert_form(here.alloc, here.tokens, at, in_parens)
            } else {
                simple(here, at)
            }
        }
        Some(Seen::Identifier) => simple(here, at),
        Some(Seen::Integer) => simple(here, at),
        Some(Seen::Character) => simple(here, at),
        Some(Seen::Text) => simple(here, at),
        None => simple(here, at),
    }
}
