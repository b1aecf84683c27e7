//! Constructors and destructors ([class.ctor], [class.dtor]).

ghost use Rattle.cxx_grammar.specs.Classes as spec;
ghost use Rattle.cxx_grammar.specs.Nests.{of_function};
ghost use Rattle.cxx_reading.specs.Reading.{Gives};
ghost use Rattle.parse_class.specs.Joined as joined;

use crate::bodies::{body, boxed_body};
use cxx_base::Place;
use cxx_grammar::{DeclWords, Within};
use cxx_reading::{ExprFault, eat_word, expect, identifier, span};
use cxx_tokens::Tokens;
use cxx_tokens::keyword::NOEXCEPT;
use cxx_tokens::mark::{LEFT_PAREN, RIGHT_PAREN, TILDE};
use cxx_tree::{ConstructorTree, DestructorTree};
use parse_local::allowed;
use parse_nest::{InnerStmt, Nest, Nested};
use parse_parts::{
    constructor_words, member_inits, no_words, parameters, specifiers_of, stand_together,
};

/// A constructor that began at `start`, behind its words.
#[tactic(auto, unfolding(crate::specs::Joined::constructor_rest))]
pub fn constructor_rest<N: Nested>(
    nest: &Nest<'_, N>,
    start: u32,
    words: DeclWords,
    at: u32,
) -> Result<(ConstructorTree, u32), ExprFault>
    requires { N.can nest.now.inner.now }
    ensures { Gives (joined.constructor_rest nest.now.here.tokens.now nest.now.here.level (N.nests nest.now.inner.now) start words at) result }
{
    let here = &nest.here;
    let inside = InnerStmt {
        inner: nest.inner,
        within: Within::function(),
    };
    let (name, at) = identifier(here.tokens, at)?;
    let (parameters, at) = parameters(here, at)?;
    let (is_noexcept, at) = eat_word(here.tokens, NOEXCEPT, at);
    let (inits, at) = member_inits(here, at)?;
    let (body, end) = boxed_body(here.alloc, here.tokens, &inside, at)?;
    let tree = ConstructorTree {
        span: span(here.tokens, start, end),
        is_explicit: words.is_explicit,
        specifiers: specifiers_of(words),
        name,
        parameters,
        is_noexcept,
        inits,
        body,
    };
    allowed(stand_together(words), tree, end)
}

/// A constructor, as the grammar says.
#[tactic(auto, unfolding(cxx_grammar::specs::Classes::constructor_form, crate::specs::Joined::constructor_rest))]
pub fn constructor<N: Nested>(
    nest: &Nest<'_, N>,
    start: u32,
) -> Result<(ConstructorTree, u32), ExprFault>
    requires { N.can nest.now.inner.now }
    ensures { Gives (spec.constructor_form nest.now.here.tokens.now nest.now.here.level ((N.nests nest.now.inner.now).stmt of_function) start) result }
{
    let (words, at) = constructor_words(nest.here.tokens, no_words(), start)?;
    constructor_rest(nest, start, words, at)
}

#[tactic(auto, unfolding(cxx_grammar::specs::Classes::tilde))]
fn tilde(tokens: &Tokens, start: u32) -> Result<(Place, u32), ExprFault>
    ensures { Gives (spec.tilde tokens.now start) result }
{
    let end = expect(tokens, TILDE, start)?;
    Ok((span(tokens, start, end).place, end))
}

/// A destructor that began at `start`, behind its words.
#[tactic(auto, unfolding(crate::specs::Joined::destructor_rest))]
pub fn destructor_rest<N: Nested>(
    nest: &Nest<'_, N>,
    start: u32,
    words: DeclWords,
    at: u32,
) -> Result<(DestructorTree, u32), ExprFault>
    requires { N.can nest.now.inner.now }
    ensures { Gives (joined.destructor_rest nest.now.here.tokens.now (N.nests nest.now.inner.now) start words at) result }
{
    let here = &nest.here;
    let inside = InnerStmt {
        inner: nest.inner,
        within: Within::function(),
    };
    let (tilde, at) = tilde(here.tokens, at)?;
    let (name, at) = identifier(here.tokens, at)?;
    let at = expect(here.tokens, LEFT_PAREN, at)?;
    let at = expect(here.tokens, RIGHT_PAREN, at)?;
    let (is_noexcept, at) = eat_word(here.tokens, NOEXCEPT, at);
    let (body, end) = body(here.alloc, here.tokens, &inside, at)?;
    let tree = DestructorTree {
        span: span(here.tokens, start, end),
        specifiers: specifiers_of(words),
        tilde,
        name,
        is_noexcept,
        body,
    };
    allowed(stand_together(words), tree, end)
}
