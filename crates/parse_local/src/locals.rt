//! Declarations of local variables ([dcl.dcl]).

ghost use Rattle.cxx_grammar.specs.Locals as spec;
ghost use Rattle.cxx_reading.specs.Reading.{Gives};
ghost use Rattle.parse_local.specs.Joined as joined;

use crate::dimensions::bounds;
use crate::fit::fit_bounds;
use crate::initializer::init_if_any;
use crate::side_rule::allowed;
use containers::Boxed;
use cxx_reading::{ExprFault, eat_word, expect, identifier, span};
use cxx_tokens::keyword::CONSTEXPR;
use cxx_tokens::mark::SEMICOLON;
use cxx_tree::{Identifier, LocalTree, TypeTree};
use parse_expr::type_at;
use parse_repeat::Here;

/// What stands before the rest of the declaration of a local variable: whether it is constexpr, its type, and its name.
#[derive(Drop)]
pub struct Declared {
    pub is_constexpr: bool,
    pub of_type: Boxed<TypeTree>,
    pub name: Identifier,
}

/// The rest of a declaration that began at token number `start`, from its bounds at `at` on, and the number of the token after it:
/// exactly what the grammar gives. It answers `S1` exactly where none goes on so, `S2` exactly where it is too deep, or `Memory`.
#[tactic(auto, unfolding(crate::specs::Joined::local_rest))]
pub fn local_rest(
    here: &Here<'_>,
    start: u32,
    before: Declared,
    at: u32,
) -> Result<(LocalTree, u32), ExprFault>
    ensures { Gives (joined.local_rest here.now.tokens.now here.now.level start before.is_constexpr before.of_type before.name at) result }
{
    let (bounds, at) = bounds(here, at)?;
    let (init, at) = init_if_any(here, at)?;
    let end = expect(here.tokens, SEMICOLON, at)?;
    let holds = fit_bounds(&bounds, &init);
    let tree = LocalTree {
        span: span(here.tokens, start, end),
        is_constexpr: before.is_constexpr,
        of_type: before.of_type,
        name: before.name,
        bounds,
        init,
    };
    allowed(holds, tree, end)
}

/// The declaration of a local variable ([stmt.dcl]) that begins at token number `start`, and the number of the token after it:
/// exactly what the grammar gives. It answers `S1` exactly where none begins, `S2` exactly where it is too deep, or `Memory`.
#[tactic(auto, unfolding(cxx_grammar::specs::Locals::local, crate::specs::Joined::local_rest))]
pub fn local(here: &Here<'_>, start: u32) -> Result<(LocalTree, u32), ExprFault>
    ensures { Gives (spec.local here.now.tokens.now here.now.level start) result }
{
    let (is_constexpr, at) = eat_word(here.tokens, CONSTEXPR, start);
    let (of_type, at) = type_at(here.alloc, here.tokens, at, here.level)?;
    let of_type = Boxed::new(here.alloc, of_type)?;
    let (name, at) = identifier(here.tokens, at)?;
    let before = Declared {
        is_constexpr,
        of_type,
        name,
    };
    local_rest(here, start, before, at)
}
