//! What stands in the parentheses of a `for` ([stmt.for], [stmt.ranged]).

ghost use Rattle.std.specs.Prelude.{false};
ghost use Rattle.cxx_grammar.specs.Read.{read};
ghost use Rattle.cxx_reading.specs.Reading.{Gives, and_then};
ghost use Rattle.cxx_tree.specs.declared.stmt.ForInit.TheVariants as for_init_of;
ghost use Rattle.parse_head.specs.Joined as joined;
ghost use Rattle.parse_local.specs.Joined as locals;

use crate::first::plain_first;
use crate::step::{Condition, step_closed};
use crate::tree::HeadTree;
use containers::Boxed;
use cxx_reading::{ExprFault, expect, identifier, sees, sees_word};
use cxx_tokens::keyword::CONSTEXPR;
use cxx_tokens::mark::{COLON, RIGHT_PAREN, SEMICOLON};
use cxx_tree::{Expr, ForHead, ForInit, ForRange};
use parse_expr::{expression, type_at};
use parse_local::{Declared, begins_local, local, local_rest};
use parse_repeat::{Here, boxed_if_any};

// What stands behind the first statement of a head.
#[tactic(auto, unfolding(crate::specs::Joined::behind_first))]
fn behind_first(
    here: &Here<'_>,
    first: Boxed<ForInit>,
    at: u32,
) -> Result<(HeadTree, u32), ExprFault>
    ensures { Gives (joined.behind_first here.now.tokens.now here.now.level first at) result }
{
    let (condition, at) = boxed_if_any(here.alloc, &Condition(*here), at)?;
    let at = expect(here.tokens, SEMICOLON, at)?;
    let (step, end) = step_closed(here, at)?;
    let head = ForHead {
        first,
        condition,
        step,
    };
    Ok((HeadTree::For(head), end))
}

// `:` and what is gone over, in its box, up to the parenthesis behind it.
#[tactic(auto, unfolding(crate::specs::Joined::over))]
fn over(here: &Here<'_>, at: u32) -> Result<(Boxed<Expr>, u32), ExprFault>
    ensures { Gives (joined.over here.now.tokens.now here.now.level at) result }
{
    let at = expect(here.tokens, COLON, at)?;
    let (x, at) = expression(here.alloc, here.tokens, at, here.level)?;
    let end = expect(here.tokens, RIGHT_PAREN, at)?;
    Ok((Boxed::new(here.alloc, x)?, end))
}

#[tactic(auto, unfolding(crate::specs::Joined::range_rest))]
fn range_rest(here: &Here<'_>, before: Declared, at: u32) -> Result<(HeadTree, u32), ExprFault>
    ensures { Gives (joined.range_rest here.now.tokens.now here.now.level before.of_type before.name at) result }
{
    let (over, end) = over(here, at)?;
    let head = ForRange {
        of_type: before.of_type,
        name: before.name,
        over,
    };
    Ok((HeadTree::Range(head), end))
}

// A declaration, which began at `start`, goes on behind its name.
fn local_behind(
    here: &Here<'_>,
    start: u32,
    before: Declared,
    at: u32,
) -> Result<(HeadTree, u32), ExprFault>
    ensures { Gives (and_then (locals.local_rest here.now.tokens.now here.now.level start before.is_constexpr before.of_type before.name at) (λ x. joined.behind_first here.now.tokens.now here.now.level (for_init_of.Local x))) result }
{
    let (x, at) = local_rest(here, start, before, at)?;
    let first = Boxed::new(here.alloc, ForInit::Local(x))?;
    behind_first(here, first, at)
}

#[tactic(auto, unfolding(crate::specs::Joined::typed))]
fn typed(
    here: &Here<'_>,
    start: u32,
    before: Declared,
    at: u32,
) -> Result<(HeadTree, u32), ExprFault>
    ensures { Gives (joined.typed here.now.tokens.now here.now.level start before.is_constexpr before.of_type before.name at) result }
{
    if sees(here.tokens, COLON, at) {
        range_rest(here, before, at)
    } else {
        local_behind(here, start, before, at)
    }
}

#[tactic(auto, unfolding(crate::specs::Joined::declared))]
fn declared(here: &Here<'_>, start: u32) -> Result<(HeadTree, u32), ExprFault>
    ensures { Gives (joined.declared here.now.tokens.now here.now.level start) result }
{
    let (of_type, at) = type_at(here.alloc, here.tokens, start, here.level)?;
    let of_type = Boxed::new(here.alloc, of_type)?;
    let (name, at) = identifier(here.tokens, at)?;
    let before = Declared {
        is_constexpr: false,
        of_type,
        name,
    };
    typed(here, start, before, at)
}

#[tactic(auto, unfolding(crate::specs::Joined::constexpr_local))]
fn constexpr_local(here: &Here<'_>, start: u32) -> Result<(HeadTree, u32), ExprFault>
    ensures { Gives (joined.constexpr_local here.now.tokens.now here.now.level start) result }
{
    let (x, at) = local(here, start)?;
    let first = Boxed::new(here.alloc, ForInit::Local(x))?;
    behind_first(here, first, at)
}

#[tactic(auto, unfolding(crate::specs::Joined::undeclared))]
fn undeclared(here: &Here<'_>, start: u32) -> Result<(HeadTree, u32), ExprFault>
    ensures { Gives (joined.undeclared here.now.tokens.now here.now.level start) result }
{
    let (x, at) = plain_first(here, start)?;
    let first = Boxed::new(here.alloc, x)?;
    behind_first(here, first, at)
}

/// A head of either form, with the parenthesis behind it: what both begin with is read once. It answers `S1` exactly where
/// none begins, `S2` exactly where it is too deep, or `Memory`.
#[tactic(auto, unfolding(crate::specs::Joined::head))]
pub fn head(here: &Here<'_>, start: u32) -> Result<(HeadTree, u32), ExprFault>
    ensures { Gives (joined.head here.now.tokens.now here.now.level start) result }
{
    if begins_local(here.tokens, start) {
        if sees_word(here.tokens, CONSTEXPR, start) {
            constexpr_local(here, start)
        } else {
            declared(here, start)
        }
    } else {
        undeclared(here, start)
    }
}
