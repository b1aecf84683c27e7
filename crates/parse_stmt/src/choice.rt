//! Statements of a body, and statements within statements ([stmt.pre]).

ghost use Rattle.std.specs.Prelude.{◌+◌};
ghost use Rattle.cxx_grammar.specs.Classes as classes;
ghost use Rattle.cxx_grammar.specs.Statements as spec;
ghost use Rattle.cxx_reading.specs.Reading.{Gives};
ghost use Rattle.parse_stmt.specs.Joined as joined;

use crate::braces::braces;
use crate::look::begins_bracketed;
use crate::other::other_stmt;
use cxx_grammar::Within;
use cxx_reading::ExprFault;
use cxx_tree::{Member, Stmt};
use parse_class::member;
use parse_nest::{InnerMember, InnerStmt, Nest, Nested};
use parse_repeat::Part;

#[tactic(auto, unfolding(crate::specs::Joined::stmt_braces))]
fn stmt_braces<N: Nested>(
    nest: &Nest<'_, N>,
    at: u32,
    within: Within,
) -> Result<(Stmt, u32), ExprFault>
    requires { N.can nest.now.inner.now }
    ensures { Gives (joined.stmt_braces nest.now.here.tokens.now nest.now.here.level (N.nests nest.now.inner.now) within at) result }
{
    let statements = InnerStmt {
        inner: nest.inner,
        within,
    };
    let evaluated = InnerStmt {
        inner: nest.inner,
        within: Within::block(),
    };
    let members = InnerMember(nest.inner);
    braces(&nest.here, &statements, &members, &evaluated, at, within)
}

/// A statement of a body, whose own braces are a level: exactly what the grammar gives. It answers `S1` exactly where none
/// begins, `S2` exactly where it is too deep, or `Memory`.
#[tactic(auto, using(crate::proofs::BracketArms::stmt_arms))]
pub fn stmt<N: Nested>(
    nest: &Nest<'_, N>,
    at: u32,
    within: Within,
) -> Result<(Stmt, u32), ExprFault>
    requires { N.can nest.now.inner.now }
    ensures { Gives (spec.stmt nest.now.here.tokens.now nest.now.here.level (N.nests nest.now.inner.now) within at) result }
{
    if begins_bracketed(nest.here.tokens, at) {
        stmt_braces(nest, at, within)
    } else {
        other_stmt(nest, at, nest.here.level + 1, within)
    }
}

// A statement of a body at this level.
#[derive(Clone, Copy)]
struct StmtHere<'a, N> {
    nest: &'a Nest<'a, N>,
    within: Within,
}

impl<N: Nested> Part for StmtHere<'_, N> {
    type Tree = Stmt;

    ghost can = { λ p. N.can p.nest.now.inner.now };

    ghost part = { λ p. spec.stmt p.nest.now.here.tokens.now p.nest.now.here.level (N.nests p.nest.now.inner.now) p.within };

    fn read(&self, at: u32) -> Result<(Stmt, u32), ExprFault> {
        stmt(self.nest, at, self.within)
    }
}

// A member of a class at this level.
#[derive(Clone, Copy)]
struct MemberHere<'a, N>(&'a Nest<'a, N>);

impl<N: Nested> Part for MemberHere<'_, N> {
    type Tree = Member;

    ghost can = { λ p. N.can p.0.now.inner.now };

    ghost part = { λ p. classes.member p.0.now.here.tokens.now p.0.now.here.level (N.nests p.0.now.inner.now) };

    fn read(&self, at: u32) -> Result<(Member, u32), ExprFault> {
        member(self.0, at)
    }
}

#[tactic(auto, unfolding(crate::specs::Joined::sub_braces))]
fn sub_braces<N: Nested>(
    nest: &Nest<'_, N>,
    at: u32,
    within: Within,
) -> Result<(Stmt, u32), ExprFault>
    requires { N.can nest.now.inner.now }
    ensures { Gives (joined.sub_braces nest.now.here.tokens.now nest.now.here.level (N.nests nest.now.inner.now) within at) result }
{
    let statements = StmtHere { nest, within };
    let evaluated = StmtHere {
        nest,
        within: Within::block(),
    };
    let members = MemberHere(nest);
    braces(&nest.here, &statements, &members, &evaluated, at, within)
}

/// A statement within a statement, whose own braces are its level, in the same way.
#[tactic(auto, using(crate::proofs::BracketArms::sub_arms))]
pub fn sub<N: Nested>(nest: &Nest<'_, N>, at: u32, within: Within) -> Result<(Stmt, u32), ExprFault>
    requires { N.can nest.now.inner.now }
    ensures { Gives (spec.sub nest.now.here.tokens.now nest.now.here.level (N.nests nest.now.inner.now) within at) result }
{
    if begins_bracketed(nest.here.tokens, at) {
        sub_braces(nest, at, within)
    } else {
        other_stmt(nest, at, nest.here.level, within)
    }
}
