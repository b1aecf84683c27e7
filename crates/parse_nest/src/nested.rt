//! What a parser is handed for what nests.

ghost use Rattle.cxx_grammar.specs.Nests.{Nests};
ghost use Rattle.cxx_reading.specs.Reading.{Gives};

use cxx_grammar::Within;
use cxx_reading::ExprFault;
use cxx_tree::{Member, Stmt};
use parse_repeat::Here;

/// What reads that which nests, one level deeper than where it is handed on. `nests` are the rules that it reads, and `can` says
/// whether it may be called.
pub trait Nested: Copy {
    ghost can: { Self → Type 0 };

    ghost nests: { Self → Nests };

    /// Reads a statement of a body.
    fn stmt(&self, at: u32, within: Within) -> Result<(Stmt, u32), ExprFault>
        requires { can self.now }
        ensures { Gives ((nests self.now).stmt within at) result };

    /// Reads a statement within a statement.
    fn sub(&self, at: u32, within: Within) -> Result<(Stmt, u32), ExprFault>
        requires { can self.now }
        ensures { Gives ((nests self.now).sub within at) result };

    /// Reads a member of a class.
    fn member(&self, at: u32) -> Result<(Member, u32), ExprFault>
        requires { can self.now }
        ensures { Gives ((nests self.now).member at) result };
}

/// Where a parser reads, with what reads that which nests there.
#[derive(Clone, Copy)]
pub struct Nest<'a, N> {
    pub here: Here<'a>,
    pub inner: &'a N,
}
