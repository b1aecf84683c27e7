//! Members of classes ([class.mem]).

ghost use Rattle.std.specs.Prelude.{true};
ghost use Rattle.cxx_grammar.specs.Classes as spec;
ghost use Rattle.cxx_reading.specs.Reading.{Gives};
ghost use Rattle.parse_class.specs.Joined as joined;

use crate::declarator::behind_words;
use crate::look::{begins_constructor, begins_plain, sees_access};
use crate::plain::plain;
use crate::special::{constructor, constructor_rest, destructor_rest};
use cxx_grammar::DeclWords;
use cxx_reading::{ExprFault, expect, sees, sees_word, span};
use cxx_tokens::Tokens;
use cxx_tokens::keyword::EXPLICIT;
use cxx_tokens::mark::{COLON, SEMICOLON, TILDE};
use cxx_tree::Member;
use parse_nest::{Nest, Nested};
use parse_parts::{access, no_words, specifiers};

// `public:`, `protected:` or `private:`.
#[tactic(auto, unfolding(cxx_grammar::specs::Classes::access_member))]
fn access_member(tokens: &Tokens, start: u32) -> Result<(Member, u32), ExprFault>
    ensures { Gives (spec.access_member tokens.now start) result }
{
    let (access, at) = access(tokens, start)?;
    let end = expect(tokens, COLON, at)?;
    Ok((Member::Access(span(tokens, start, end), access), end))
}

#[tactic(auto, unfolding(cxx_grammar::specs::Classes::empty_member))]
fn empty_member(tokens: &Tokens, start: u32) -> Result<(Member, u32), ExprFault>
    ensures { Gives (spec.empty_member tokens.now start) result }
{
    let end = expect(tokens, SEMICOLON, start)?;
    Ok((Member::Empty(span(tokens, start, end)), end))
}

#[tactic(auto, unfolding(crate::specs::Joined::plain_member))]
fn plain_member<N: Nested>(nest: &Nest<'_, N>, start: u32) -> Result<(Member, u32), ExprFault>
    requires { N.can nest.now.inner.now }
    ensures { Gives (joined.plain_member nest.now.here.tokens.now nest.now.here.level (N.nests nest.now.inner.now) start) result }
{
    let (x, end) = plain(nest, start)?;
    Ok((x.into_member(), end))
}

#[tactic(auto, unfolding(crate::specs::Joined::member_typed))]
fn member_typed<N: Nested>(
    nest: &Nest<'_, N>,
    start: u32,
    words: DeclWords,
    at: u32,
) -> Result<(Member, u32), ExprFault>
    requires { N.can nest.now.inner.now }
    ensures { Gives (joined.member_typed nest.now.here.tokens.now nest.now.here.level (N.nests nest.now.inner.now) start words at) result }
{
    let (x, end) = behind_words(nest, true, start, words, at)?;
    Ok((x.into_member(), end))
}

#[tactic(auto, unfolding(crate::specs::Joined::constructor_behind))]
fn constructor_behind<N: Nested>(
    nest: &Nest<'_, N>,
    start: u32,
    words: DeclWords,
    at: u32,
) -> Result<(Member, u32), ExprFault>
    requires { N.can nest.now.inner.now }
    ensures { Gives (joined.constructor_behind nest.now.here.tokens.now nest.now.here.level (N.nests nest.now.inner.now) start words at) result }
{
    let (x, end) = constructor_rest(nest, start, words, at)?;
    Ok((Member::Constructor(x), end))
}

#[tactic(auto, unfolding(crate::specs::Joined::destructor_behind))]
fn destructor_behind<N: Nested>(
    nest: &Nest<'_, N>,
    start: u32,
    words: DeclWords,
    at: u32,
) -> Result<(Member, u32), ExprFault>
    requires { N.can nest.now.inner.now }
    ensures { Gives (joined.destructor_behind nest.now.here.tokens.now (N.nests nest.now.inner.now) start words at) result }
{
    let (x, end) = destructor_rest(nest, start, words, at)?;
    Ok((Member::Destructor(x), end))
}

#[tactic(auto, unfolding(cxx_grammar::specs::Classes::constructor_member))]
fn constructor_member<N: Nested>(nest: &Nest<'_, N>, start: u32) -> Result<(Member, u32), ExprFault>
    requires { N.can nest.now.inner.now }
    ensures { Gives (spec.constructor_member nest.now.here.tokens.now nest.now.here.level (N.nests nest.now.inner.now) start) result }
{
    let (x, end) = constructor(nest, start)?;
    Ok((Member::Constructor(x), end))
}

#[tactic(auto, unfolding(crate::specs::Joined::member_behind))]
fn member_behind<N: Nested>(
    nest: &Nest<'_, N>,
    start: u32,
    words: DeclWords,
    at: u32,
) -> Result<(Member, u32), ExprFault>
    requires { N.can nest.now.inner.now }
    ensures { Gives (joined.member_behind nest.now.here.tokens.now nest.now.here.level (N.nests nest.now.inner.now) start words at) result }
{
    if sees(nest.here.tokens, TILDE, at) {
        destructor_behind(nest, start, words, at)
    } else if begins_constructor(nest.here.tokens, at) {
        constructor_behind(nest, start, words, at)
    } else {
        member_typed(nest, start, words, at)
    }
}

#[tactic(auto, unfolding(crate::specs::Joined::member_worded))]
fn member_worded<N: Nested>(
    nest: &Nest<'_, N>,
    start: u32,
    words: DeclWords,
    at: u32,
) -> Result<(Member, u32), ExprFault>
    requires { N.can nest.now.inner.now }
    ensures { Gives (joined.member_worded nest.now.here.tokens.now nest.now.here.level (N.nests nest.now.inner.now) start words at) result }
{
    if sees_word(nest.here.tokens, EXPLICIT, at) {
        constructor_member(nest, start)
    } else {
        member_behind(nest, start, words, at)
    }
}

// A data member, a member function, a constructor or a destructor.
#[tactic(auto, unfolding(crate::specs::Joined::member_declared))]
fn member_declared<N: Nested>(nest: &Nest<'_, N>, start: u32) -> Result<(Member, u32), ExprFault>
    requires { N.can nest.now.inner.now }
    ensures { Gives (joined.member_declared nest.now.here.tokens.now nest.now.here.level (N.nests nest.now.inner.now) start) result }
{
    let (words, at) = specifiers(nest.here.tokens, no_words(), start)?;
    member_worded(nest, start, words, at)
}

/// A member of a class: exactly what the grammar gives. It answers `S1` exactly where none begins, `S2` exactly where it is
/// too deep, or `Memory`.
#[tactic(auto, using(crate::proofs::Arms::member_arms))]
pub fn member<N: Nested>(nest: &Nest<'_, N>, start: u32) -> Result<(Member, u32), ExprFault>
    requires { N.can nest.now.inner.now }
    ensures { Gives (spec.member nest.now.here.tokens.now nest.now.here.level (N.nests nest.now.inner.now) start) result }
{
    let tokens = nest.here.tokens;
    if begins_plain(tokens, start) {
        plain_member(nest, start)
    } else if sees(tokens, SEMICOLON, start) {
        empty_member(tokens, start)
    } else if sees_access(tokens, start) {
        access_member(tokens, start)
    } else {
        member_declared(nest, start)
    }
}
