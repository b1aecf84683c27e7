//! Declarations that a word of their own tells, in namespaces and in classes.

ghost use Rattle.cxx_reading.specs.Reading.{Gives};
ghost use Rattle.parse_class.specs.Joined as joined;

use crate::bodies::block;
use crate::classes::class;
use crate::common::Common;
use cxx_grammar::Within;
use cxx_reading::{ExprFault, sees_word};
use cxx_tokens::keyword::{CONSTEVAL, ENUM, STATIC_ASSERT, USING};
use parse_local::{alias, assert_at};
use parse_nest::{InnerMember, InnerStmt, Nest, Nested};
use parse_parts::enumeration;
use parse_repeat::Here;

#[tactic(auto, unfolding(crate::specs::Joined::plain_alias))]
fn plain_alias(here: &Here<'_>, start: u32) -> Result<(Common, u32), ExprFault>
    ensures { Gives (joined.plain_alias here.now.tokens.now here.now.level start) result }
{
    let (x, end) = alias(here, start)?;
    Ok((Common::Alias(x), end))
}

#[tactic(auto, unfolding(crate::specs::Joined::plain_enum))]
fn plain_enum(here: &Here<'_>, start: u32) -> Result<(Common, u32), ExprFault>
    ensures { Gives (joined.plain_enum here.now.tokens.now here.now.level start) result }
{
    let (x, end) = enumeration(here, start)?;
    Ok((Common::Enum(x), end))
}

#[tactic(auto, unfolding(crate::specs::Joined::plain_assert))]
fn plain_assert(here: &Here<'_>, start: u32) -> Result<(Common, u32), ExprFault>
    ensures { Gives (joined.plain_assert here.now.tokens.now here.now.level start) result }
{
    let (x, end) = assert_at(here.alloc, here.tokens, start, here.level + 1)?;
    Ok((Common::Assert(x), end))
}

#[tactic(auto, unfolding(crate::specs::Joined::plain_class))]
fn plain_class<N: Nested>(nest: &Nest<'_, N>, start: u32) -> Result<(Common, u32), ExprFault>
    requires { N.can nest.now.inner.now }
    ensures { Gives (joined.plain_class nest.now.here.tokens.now nest.now.here.level (N.nests nest.now.inner.now) start) result }
{
    let (x, end) = class(&nest.here, &InnerMember(nest.inner), start)?;
    Ok((Common::Class(x), end))
}

#[tactic(auto, unfolding(crate::specs::Joined::plain_block))]
fn plain_block<N: Nested>(nest: &Nest<'_, N>, start: u32) -> Result<(Common, u32), ExprFault>
    requires { N.can nest.now.inner.now }
    ensures { Gives (joined.plain_block nest.now.here.tokens.now (N.nests nest.now.inner.now) start) result }
{
    let inside = InnerStmt {
        inner: nest.inner,
        within: Within::block(),
    };
    let (x, end) = block(nest.here.alloc, nest.here.tokens, &inside, start)?;
    Ok((Common::Block(x), end))
}

/// A declaration that begins with a word of its own: an alias, a class, an enumeration, an assertion or a block.
#[tactic(auto, unfolding(crate::specs::Joined::plain))]
pub fn plain<N: Nested>(nest: &Nest<'_, N>, start: u32) -> Result<(Common, u32), ExprFault>
    requires { N.can nest.now.inner.now }
    ensures { Gives (joined.plain nest.now.here.tokens.now nest.now.here.level (N.nests nest.now.inner.now) start) result }
{
    if sees_word(nest.here.tokens, USING, start) {
        plain_alias(&nest.here, start)
    } else if sees_word(nest.here.tokens, ENUM, start) {
        plain_enum(&nest.here, start)
    } else if sees_word(nest.here.tokens, STATIC_ASSERT, start) {
        plain_assert(&nest.here, start)
    } else if sees_word(nest.here.tokens, CONSTEVAL, start) {
        plain_block(nest, start)
    } else {
        plain_class(nest, start)
    }
}
