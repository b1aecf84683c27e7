//! Aliases ([dcl.typedef], P2996R13).

ghost use Rattle.cxx_grammar.specs.Read.{read};
ghost use Rattle.cxx_grammar.specs.Locals as spec;
ghost use Rattle.cxx_reading.specs.Reading.{Gives, Tree, and_then};
ghost use Rattle.cxx_tree.specs.declared.decl.AliasedTree.TheVariants as aliased_of;

use containers::Boxed;
use cxx_reading::{ExprFault, expect, expect_word, identifier, longer, span};
use cxx_tokens::keyword::USING;
use cxx_tokens::mark::{EQUAL, SEMICOLON};
use cxx_tree::{AliasTree, AliasedTree};
use parse_expr::{splice_at, type_at};
use parse_repeat::Here;

fn aliased_type(here: &Here<'_>, at: u32) -> Result<(AliasedTree, u32), ExprFault>
    ensures { Gives (and_then ((read here.now.tokens.now here.now.level).type_tree at) (λ x j. Tree (aliased_of.Type x) j)) result }
{
    let (x, end) = type_at(here.alloc, here.tokens, at, here.level)?;
    Ok((AliasedTree::Type(Boxed::new(here.alloc, x)?), end))
}

fn aliased_splice(here: &Here<'_>, at: u32) -> Result<(AliasedTree, u32), ExprFault>
    ensures { Gives (and_then ((read here.now.tokens.now here.now.level).splice at) (λ x j. Tree (aliased_of.Splice x) j)) result }
{
    let (x, end) = splice_at(here.alloc, here.tokens, at, here.level)?;
    Ok((AliasedTree::Splice(x), end))
}

#[tactic(auto, unfolding(cxx_grammar::specs::Locals::aliased), using(cxx_reading::proofs::Choices::choice))]
fn aliased(here: &Here<'_>, at: u32) -> Result<(AliasedTree, u32), ExprFault>
    ensures { Gives (spec.aliased here.now.tokens.now here.now.level at) result }
{
    longer(aliased_type(here, at), aliased_splice(here, at))
}

/// The alias that begins at token number `start`, and the number of the token after it: exactly what the grammar gives. It
/// answers `S1` exactly where none begins, `S2` exactly where it is too deep, or `Memory`.
#[tactic(auto, unfolding(cxx_grammar::specs::Locals::alias))]
pub fn alias(here: &Here<'_>, start: u32) -> Result<(AliasTree, u32), ExprFault>
    ensures { Gives (spec.alias here.now.tokens.now here.now.level start) result }
{
    let at = expect_word(here.tokens, USING, start)?;
    let (name, at) = identifier(here.tokens, at)?;
    let at = expect(here.tokens, EQUAL, at)?;
    let (of, at) = aliased(here, at)?;
    let end = expect(here.tokens, SEMICOLON, at)?;
    let span = span(here.tokens, start, end);
    Ok((AliasTree { span, name, of }, end))
}
