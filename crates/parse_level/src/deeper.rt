//! What reads one level further in.

ghost use Rattle.std.specs.Prelude.{ℕ};
ghost use Rattle.cxx_grammar.specs.Read.{read};
ghost use Rattle.cxx_grammar.specs.Unaries.{sized};
ghost use Rattle.cxx_reading.specs.Reading.{Gives};
ghost use Rattle.cxx_tokens.specs.declared.token.Tokens.{Tokens};

use cxx_grammar::SizedOperand;
use cxx_reading::ExprFault;
use cxx_tokens::Tokens;
use cxx_tree::{BracedTree, Expr, TypeTree};
use std::alloc::Global;

/// Reads the rules of a level, each at each token exactly as the grammar says.
pub trait Deeper {
    /// Whether these tokens may be read at this level.
    ghost ready: { Self → Tokens → ℕ → Type 0 };

    /// An expression ([expr]).
    fn expr(
        &self,
        alloc: Global,
        tokens: &Tokens,
        at: u32,
        level: u32,
    ) -> Result<(Expr, u32), ExprFault>
        requires { ready self.now tokens.now level }
        ensures { Gives ((read tokens.now level).expr at) result };

    /// A braced list ([dcl.init.list]).
    fn braced(
        &self,
        alloc: Global,
        tokens: &Tokens,
        at: u32,
        level: u32,
    ) -> Result<(BracedTree, u32), ExprFault>
        requires { ready self.now tokens.now level }
        ensures { Gives ((read tokens.now level).braced at) result };

    /// A unary expression ([expr.unary]).
    fn unary(
        &self,
        alloc: Global,
        tokens: &Tokens,
        at: u32,
        level: u32,
    ) -> Result<(Expr, u32), ExprFault>
        requires { ready self.now tokens.now level }
        ensures { Gives ((read tokens.now level).unary at) result };

    /// A type ([dcl.name]).
    fn type_tree(
        &self,
        alloc: Global,
        tokens: &Tokens,
        at: u32,
        level: u32,
    ) -> Result<(TypeTree, u32), ExprFault>
        requires { ready self.now tokens.now level }
        ensures { Gives ((read tokens.now level).type_tree at) result };

    /// The operand of `sizeof` ([expr.sizeof]).
    fn sized(
        &self,
        alloc: Global,
        tokens: &Tokens,
        at: u32,
        level: u32,
    ) -> Result<(SizedOperand, u32), ExprFault>
        requires { ready self.now tokens.now level }
        ensures { Gives (sized tokens.now (read tokens.now level) at) result };
}
