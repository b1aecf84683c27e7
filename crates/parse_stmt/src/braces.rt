//! Statements with braces of their own: bodies, classes and blocks ([stmt.block], [class.local], P3289R1).

ghost use Rattle.cxx_grammar.specs.Classes as classes;
ghost use Rattle.cxx_grammar.specs.Statements as spec;
ghost use Rattle.cxx_reading.specs.Reading.{Gives};
ghost use Rattle.parse_stmt.specs.Joined as joined;

use containers::Boxed;
use cxx_grammar::Within;
use cxx_reading::{ExprFault, sees, sees_word};
use cxx_tokens::keyword::CONSTEVAL;
use cxx_tokens::mark::LEFT_BRACE;
use cxx_tree::{ClassTree, Member, Stmt};
use parse_class::{block, body, class};
use parse_local::allowed;
use parse_repeat::{Here, Part};

#[tactic(auto, unfolding(cxx_grammar::specs::Statements::body_form))]
fn body_form<S: Part<Tree = Stmt>>(
    here: &Here<'_>,
    inside: &S,
    at: u32,
) -> Result<(Stmt, u32), ExprFault>
    requires { S.can inside.now }
    ensures { Gives (spec.body_form here.now.tokens.now (S.part inside.now) at) result }
{
    let (x, end) = body(here.alloc, here.tokens, inside, at)?;
    Ok((Stmt::Body(x), end))
}

#[tactic(auto, unfolding(cxx_grammar::specs::Statements::block_form))]
fn block_form<S: Part<Tree = Stmt>>(
    here: &Here<'_>,
    inside: &S,
    at: u32,
    within: Within,
) -> Result<(Stmt, u32), ExprFault>
    requires { S.can inside.now }
    ensures { Gives (spec.block_form here.now.tokens.now (S.part inside.now) within at) result }
{
    let (x, end) = block(here.alloc, here.tokens, inside, at)?;
    allowed(!within.in_block, Stmt::Block(x), end)
}

// A class, in its box.
fn boxed_class<M: Part<Tree = Member>>(
    here: &Here<'_>,
    inside: &M,
    at: u32,
) -> Result<(Boxed<ClassTree>, u32), ExprFault>
    requires { M.can inside.now }
    ensures { Gives (classes.class here.now.tokens.now here.now.level (M.part inside.now) at) result }
{
    let (x, end) = class(here, inside, at)?;
    Ok((Boxed::new(here.alloc, x)?, end))
}

#[tactic(auto, unfolding(cxx_grammar::specs::Statements::class_form))]
fn class_form<M: Part<Tree = Member>>(
    here: &Here<'_>,
    inside: &M,
    at: u32,
    within: Within,
) -> Result<(Stmt, u32), ExprFault>
    requires { M.can inside.now }
    ensures { Gives (spec.class_form here.now.tokens.now here.now.level (M.part inside.now) within at) result }
{
    let (x, end) = boxed_class(here, inside, at)?;
    allowed(!within.in_block, Stmt::Class(x), end)
}

/// A body, a class or a block, where `statements`, `members` and `evaluated` read what stands in the braces of each.
#[tactic(auto, unfolding(crate::specs::Joined::braces))]
pub fn braces<S: Part<Tree = Stmt>, M: Part<Tree = Member>, B: Part<Tree = Stmt>>(
    here: &Here<'_>,
    statements: &S,
    members: &M,
    evaluated: &B,
    at: u32,
    within: Within,
) -> Result<(Stmt, u32), ExprFault>
    requires statements { S.can statements.now }
    requires members { M.can members.now }
    requires evaluated { B.can evaluated.now }
    ensures { Gives (joined.braces here.now.tokens.now here.now.level (S.part statements.now) (M.part members.now) (B.part evaluated.now) within at) result }
{
    if sees(here.tokens, LEFT_BRACE, at) {
        body_form(here, statements, at)
    } else if sees_word(here.tokens, CONSTEVAL, at) {
        block_form(here, evaluated, at, within)
    } else {
        class_form(here, members, at, within)
    }
}
