//! Declarations of namespaces ([dcl]).

ghost use Rattle.cxx_grammar.specs.Classes as spec;
ghost use Rattle.cxx_reading.specs.Reading.{Gives};
ghost use Rattle.parse_class.specs.Joined as joined;

use crate::declarator::declared;
use crate::look::begins_plain;
use crate::plain::plain;
use cxx_reading::{ExprFault, sees_word};
use cxx_tokens::keyword::NAMESPACE;
use cxx_tree::Decl;
use parse_nest::{Nest, Nested};
use parse_parts::namespace_alias;
use parse_repeat::Here;

#[tactic(auto, unfolding(cxx_grammar::specs::Classes::namespace_decl))]
fn namespace_decl(here: &Here<'_>, start: u32) -> Result<(Decl, u32), ExprFault>
    ensures { Gives (spec.namespace_decl here.now.tokens.now here.now.level start) result }
{
    let (x, end) = namespace_alias(here, start)?;
    Ok((Decl::NamespaceAlias(x), end))
}

#[tactic(auto, unfolding(crate::specs::Joined::plain_decl))]
fn plain_decl<N: Nested>(nest: &Nest<'_, N>, start: u32) -> Result<(Decl, u32), ExprFault>
    requires { N.can nest.now.inner.now }
    ensures { Gives (joined.plain_decl nest.now.here.tokens.now nest.now.here.level (N.nests nest.now.inner.now) start) result }
{
    let (x, end) = plain(nest, start)?;
    Ok((x.into_decl(), end))
}

#[tactic(auto, unfolding(crate::specs::Joined::declared_decl))]
fn declared_decl<N: Nested>(nest: &Nest<'_, N>, start: u32) -> Result<(Decl, u32), ExprFault>
    requires { N.can nest.now.inner.now }
    ensures { Gives (joined.declared_decl nest.now.here.tokens.now nest.now.here.level (N.nests nest.now.inner.now) start) result }
{
    let (x, end) = declared(nest, start)?;
    Ok((x.into_decl(), end))
}

/// A declaration of a namespace: exactly what the grammar gives. It answers `S1` exactly where none begins, `S2` exactly
/// where it is too deep, or `Memory`.
#[tactic(auto, using(crate::proofs::Arms::decl_arms))]
pub fn decl<N: Nested>(nest: &Nest<'_, N>, start: u32) -> Result<(Decl, u32), ExprFault>
    requires { N.can nest.now.inner.now }
    ensures { Gives (spec.decl nest.now.here.tokens.now nest.now.here.level (N.nests nest.now.inner.now) start) result }
{
    if begins_plain(nest.here.tokens, start) {
        plain_decl(nest, start)
    } else if sees_word(nest.here.tokens, NAMESPACE, start) {
        namespace_decl(&nest.here, start)
    } else {
        declared_decl(nest, start)
    }
}
