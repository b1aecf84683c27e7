//! Functions and variables ([dcl.fct], [dcl.decl]), in namespaces and in classes.

ghost use Rattle.std.specs.Prelude.{◌≡◌};
ghost use Rattle.cxx_grammar.specs.Declarations as spec;
ghost use Rattle.cxx_reading.specs.Reading.{Tree, Gives};
ghost use Rattle.parse_class.specs.Joined as joined;

use crate::bodies::body_or_none;
use crate::common::Common;
use containers::Boxed;
use cxx_grammar::{DeclWords, Within};
use cxx_reading::{ExprFault, eat_word, expect, identifier, sees, span};
use cxx_tokens::Tokens;
use cxx_tokens::keyword::{CONST, NOEXCEPT};
use cxx_tokens::mark::{LEFT_PAREN, SEMICOLON};
use cxx_tree::{FunctionTree, Identifier, TypeTree, VariableTree};
use parse_expr::type_at;
use parse_local::{allowed, bounds, fit_bounds, init_if_any};
use parse_nest::{InnerStmt, Nest, Nested};
use parse_parts::{fit_words, no_words, parameters, specifiers, specifiers_of, stand_together};
use parse_repeat::Here;

/// What stands before the rest of a declaration, which began at `start`. In a class it is a member.
#[derive(Drop)]
pub struct Head {
    pub in_class: bool,
    pub start: u32,
    pub words: DeclWords,
    pub of_type: Boxed<TypeTree>,
    pub name: Identifier,
}

fn const_if(tokens: &Tokens, in_class: bool, at: u32) -> (bool, u32)
    ensures { spec.const_if tokens.now in_class at ≡ Tree result.0 result.1 }
{
    if in_class {
        eat_word(tokens, CONST, at)
    } else {
        (false, at)
    }
}

#[tactic(auto, unfolding(crate::specs::Joined::function_rest))]
fn function_rest<N: Nested>(
    nest: &Nest<'_, N>,
    head: Head,
    at: u32,
) -> Result<(FunctionTree, u32), ExprFault>
    requires { N.can nest.now.inner.now }
    ensures { Gives (joined.function_rest nest.now.here.tokens.now nest.now.here.level (N.nests nest.now.inner.now) head.in_class head.start head.words head.of_type head.name at) result }
{
    let here = &nest.here;
    let inside = InnerStmt {
        inner: nest.inner,
        within: Within::function(),
    };
    let (parameters, at) = parameters(here, at)?;
    let (is_const, at) = const_if(here.tokens, head.in_class, at);
    let (is_noexcept, at) = eat_word(here.tokens, NOEXCEPT, at);
    let (body, end) = body_or_none(here.alloc, here.tokens, &inside, at)?;
    let holds = stand_together(head.words);
    let tree = FunctionTree {
        span: span(here.tokens, head.start, end),
        specifiers: specifiers_of(head.words),
        returned: head.of_type,
        name: head.name,
        parameters,
        is_const,
        is_noexcept,
        body,
    };
    allowed(holds, tree, end)
}

#[tactic(auto, unfolding(crate::specs::Joined::variable_rest))]
fn variable_rest(here: &Here<'_>, head: Head, at: u32) -> Result<(VariableTree, u32), ExprFault>
    ensures { Gives (joined.variable_rest here.now.tokens.now here.now.level head.in_class head.start head.words head.of_type head.name at) result }
{
    let (bounds, at) = bounds(here, at)?;
    let (init, at) = init_if_any(here, at)?;
    let end = expect(here.tokens, SEMICOLON, at)?;
    let together = stand_together(head.words) && fit_words(head.in_class, head.words);
    let holds = together && fit_bounds(&bounds, &init);
    let tree = VariableTree {
        span: span(here.tokens, head.start, end),
        specifiers: specifiers_of(head.words),
        of_type: head.of_type,
        name: head.name,
        bounds,
        init,
    };
    allowed(holds, tree, end)
}

#[tactic(auto, unfolding(crate::specs::Joined::function_behind))]
fn function_behind<N: Nested>(
    nest: &Nest<'_, N>,
    head: Head,
    at: u32,
) -> Result<(Common, u32), ExprFault>
    requires { N.can nest.now.inner.now }
    ensures { Gives (joined.function_behind nest.now.here.tokens.now nest.now.here.level (N.nests nest.now.inner.now) head.in_class head.start head.words head.of_type head.name at) result }
{
    let (x, end) = function_rest(nest, head, at)?;
    Ok((Common::Function(x), end))
}

#[tactic(auto, unfolding(crate::specs::Joined::variable_behind))]
fn variable_behind(here: &Here<'_>, head: Head, at: u32) -> Result<(Common, u32), ExprFault>
    ensures { Gives (joined.variable_behind here.now.tokens.now here.now.level head.in_class head.start head.words head.of_type head.name at) result }
{
    let (x, end) = variable_rest(here, head, at)?;
    Ok((Common::Variable(x), end))
}

#[tactic(auto, unfolding(crate::specs::Joined::behind_name))]
fn behind_name<N: Nested>(
    nest: &Nest<'_, N>,
    head: Head,
    at: u32,
) -> Result<(Common, u32), ExprFault>
    requires { N.can nest.now.inner.now }
    ensures { Gives (joined.behind_name nest.now.here.tokens.now nest.now.here.level (N.nests nest.now.inner.now) head.in_class head.start head.words head.of_type head.name at) result }
{
    if sees(nest.here.tokens, LEFT_PAREN, at) {
        function_behind(nest, head, at)
    } else {
        variable_behind(&nest.here, head, at)
    }
}

/// A function or a variable that began at `start`, behind its words.
#[tactic(auto, unfolding(crate::specs::Joined::behind_words))]
pub fn behind_words<N: Nested>(
    nest: &Nest<'_, N>,
    in_class: bool,
    start: u32,
    words: DeclWords,
    at: u32,
) -> Result<(Common, u32), ExprFault>
    requires { N.can nest.now.inner.now }
    ensures { Gives (joined.behind_words nest.now.here.tokens.now nest.now.here.level (N.nests nest.now.inner.now) in_class start words at) result }
{
    let here = &nest.here;
    let (of_type, at) = type_at(here.alloc, here.tokens, at, here.level)?;
    let of_type = Boxed::new(here.alloc, of_type)?;
    let (name, at) = identifier(here.tokens, at)?;
    let head = Head {
        in_class,
        start,
        words,
        of_type,
        name,
    };
    behind_name(nest, head, at)
}

/// A function or a variable of a namespace.
#[tactic(auto, unfolding(crate::specs::Joined::declared))]
pub fn declared<N: Nested>(nest: &Nest<'_, N>, start: u32) -> Result<(Common, u32), ExprFault>
    requires { N.can nest.now.inner.now }
    ensures { Gives (joined.declared nest.now.here.tokens.now nest.now.here.level (N.nests nest.now.inner.now) start) result }
{
    let (words, at) = specifiers(nest.here.tokens, no_words(), start)?;
    behind_words(nest, false, start, words, at)
}
