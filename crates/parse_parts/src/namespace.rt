//! Namespace aliases ([namespace.alias], P2996R13).

ghost use Rattle.cxx_grammar.specs.Declarations as spec;
ghost use Rattle.cxx_reading.specs.Reading.{Gives};

use cxx_reading::{ExprFault, expect, expect_word, identifier, longer, span};
use cxx_tokens::keyword::NAMESPACE;
use cxx_tokens::mark::{EQUAL, SEMICOLON};
use cxx_tree::{NamespaceAliasTree, NamespaceNamed};
use parse_expr::{name_at, splice_at};
use parse_repeat::Here;

#[tactic(auto, unfolding(cxx_grammar::specs::Declarations::namespace_name))]
fn namespace_name(here: &Here<'_>, start: u32) -> Result<(NamespaceNamed, u32), ExprFault>
    ensures { Gives (spec.namespace_name here.now.tokens.now here.now.level start) result }
{
    let (x, end) = name_at(here.alloc, here.tokens, start, here.level)?;
    Ok((NamespaceNamed::Name(x), end))
}

#[tactic(auto, unfolding(cxx_grammar::specs::Declarations::namespace_splice))]
fn namespace_splice(here: &Here<'_>, start: u32) -> Result<(NamespaceNamed, u32), ExprFault>
    ensures { Gives (spec.namespace_splice here.now.tokens.now here.now.level start) result }
{
    let (x, end) = splice_at(here.alloc, here.tokens, start, here.level)?;
    Ok((NamespaceNamed::Splice(x), end))
}

#[tactic(auto, unfolding(cxx_grammar::specs::Declarations::namespace_named), using(cxx_reading::proofs::Choices::choice))]
fn namespace_named(here: &Here<'_>, start: u32) -> Result<(NamespaceNamed, u32), ExprFault>
    ensures { Gives (spec.namespace_named here.now.tokens.now here.now.level start) result }
{
    longer(namespace_name(here, start), namespace_splice(here, start))
}

/// The namespace alias ([namespace.alias]) that begins at token number `start`, and the number of the token after it: exactly what
/// the grammar gives. It answers `S1` exactly where none begins, `S2` exactly where it is too deep, or `Memory`.
#[tactic(auto, unfolding(cxx_grammar::specs::Declarations::namespace_alias))]
pub fn namespace_alias(here: &Here<'_>, start: u32) -> Result<(NamespaceAliasTree, u32), ExprFault>
    ensures { Gives (spec.namespace_alias here.now.tokens.now here.now.level start) result }
{
    let at = expect_word(here.tokens, NAMESPACE, start)?;
    let (name, at) = identifier(here.tokens, at)?;
    let at = expect(here.tokens, EQUAL, at)?;
    let (of, at) = namespace_named(here, at)?;
    let end = expect(here.tokens, SEMICOLON, at)?;
    let span = span(here.tokens, start, end);
    Ok((NamespaceAliasTree { span, name, of }, end))
}
