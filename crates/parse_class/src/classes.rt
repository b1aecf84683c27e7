//! Classes ([class]).

ghost use Rattle.cxx_grammar.specs.Classes as spec;
ghost use Rattle.cxx_reading.specs.Reading.{Gives};

use crate::named::are_named;
use cxx_reading::{ExprFault, expect, identifier, sees_ahead, span};
use cxx_tokens::Tokens;
use cxx_tokens::mark::{LEFT_BRACE, RIGHT_BRACE, SEMICOLON};
use cxx_tree::{ClassTree, Member};
use parse_local::allowed;
use parse_parts::{bases, key};
use parse_repeat::{Here, Part, list_if_any};

#[tactic(auto, unfolding(cxx_grammar::specs::Classes::class_declared))]
fn class_declared(tokens: &Tokens, start: u32) -> Result<(ClassTree, u32), ExprFault>
    ensures { Gives (spec.class_declared tokens.now start) result }
{
    let (key, at) = key(tokens, start)?;
    let (name, at) = identifier(tokens, at)?;
    let end = expect(tokens, SEMICOLON, at)?;
    Ok((
        ClassTree::Declared(span(tokens, start, end), key, name),
        end,
    ))
}

#[tactic(auto, unfolding(cxx_grammar::specs::Classes::class_defined, cxx_grammar::specs::Classes::members, cxx_grammar::specs::Classes::some_members, cxx_grammar::specs::Classes::more_members))]
fn class_defined<M: Part<Tree = Member>>(
    here: &Here<'_>,
    inside: &M,
    start: u32,
) -> Result<(ClassTree, u32), ExprFault>
    requires { M.can inside.now }
    ensures { Gives (spec.class_defined here.now.tokens.now here.now.level (M.part inside.now) start) result }
{
    let (key, at) = key(here.tokens, start)?;
    let (name, at) = identifier(here.tokens, at)?;
    let (bases, at) = bases(here, at)?;
    let at = expect(here.tokens, LEFT_BRACE, at)?;
    let (members, at) = list_if_any(here.alloc, here.tokens, inside, at)?;
    let at = expect(here.tokens, RIGHT_BRACE, at)?;
    let end = expect(here.tokens, SEMICOLON, at)?;
    let holds = are_named(name.name.0, members.as_slice());
    let tree = ClassTree::Defined(span(here.tokens, start, end), key, name, bases, members);
    allowed(holds, tree, end)
}

/// A class, whose members `inside` reads: exactly what the grammar gives. It answers `S1` exactly where none begins, `S2`
/// exactly where it is too deep, or `Memory`.
#[tactic(auto, using(crate::proofs::ClassForms::class_is), unfolding(crate::specs::Joined::class_joined))]
pub fn class<M: Part<Tree = Member>>(
    here: &Here<'_>,
    inside: &M,
    start: u32,
) -> Result<(ClassTree, u32), ExprFault>
    requires { M.can inside.now }
    ensures { Gives (spec.class here.now.tokens.now here.now.level (M.part inside.now) start) result }
{
    if sees_ahead(here.tokens, SEMICOLON, start, 2) {
        class_declared(here.tokens, start)
    } else {
        class_defined(here, inside, start)
    }
}
