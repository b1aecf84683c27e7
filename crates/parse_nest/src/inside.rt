//! What stands in the braces of a body or a class, as parts of it.

use crate::nested::Nested;
use cxx_grammar::Within;
use cxx_reading::ExprFault;
use cxx_tree::{Member, Stmt};
use parse_repeat::Part;

/// A statement of a body, one level deeper.
#[derive(Clone, Copy)]
pub struct InnerStmt<'a, N> {
    pub inner: &'a N,
    pub within: Within,
}

impl<N: Nested> Part for InnerStmt<'_, N> {
    type Tree = Stmt;

    ghost can = { λ p. N.can p.inner.now };

    ghost part = { λ p. (N.nests p.inner.now).stmt p.within };

    fn read(&self, at: u32) -> Result<(Stmt, u32), ExprFault> {
        self.inner.stmt(at, self.within)
    }
}

/// A member of a class, one level deeper.
#[derive(Clone, Copy)]
pub struct InnerMember<'a, N>(pub &'a N);

impl<N: Nested> Part for InnerMember<'_, N> {
    type Tree = Member;

    ghost can = { λ p. N.can p.0.now };

    ghost part = { λ p. (N.nests p.0.now).member };

    fn read(&self, at: u32) -> Result<(Member, u32), ExprFault> {
        self.0.member(at)
    }
}
