//! Calls of what is one level further in.

ghost use Rattle.cxx_grammar.specs.Read.{read};
ghost use Rattle.cxx_grammar.specs.Unaries.{sized};
ghost use Rattle.cxx_reading.specs.Reading.{Gives};

use crate::deeper::Deeper;
use cxx_grammar::SizedOperand;
use cxx_reading::{ExprFault, Reader};
use cxx_tree::{BracedTree, Expr, TypeTree};

/// An expression one level deeper.
pub fn deep_expr<D: Deeper>(reader: &Reader<'_, D>, at: u32) -> Result<(Expr, u32), ExprFault>
    requires { D.ready reader.now.deeper reader.now.tokens.now reader.now.level }
    ensures { Gives ((read reader.now.tokens.now reader.now.level).expr at) result }
{
    reader
        .deeper
        .expr(reader.alloc, reader.tokens, at, reader.level)
}

/// A braced list one level deeper.
pub fn deep_braced<D: Deeper>(
    reader: &Reader<'_, D>,
    at: u32,
) -> Result<(BracedTree, u32), ExprFault>
    requires { D.ready reader.now.deeper reader.now.tokens.now reader.now.level }
    ensures { Gives ((read reader.now.tokens.now reader.now.level).braced at) result }
{
    reader
        .deeper
        .braced(reader.alloc, reader.tokens, at, reader.level)
}

/// A unary expression one level deeper.
pub fn deep_unary<D: Deeper>(reader: &Reader<'_, D>, at: u32) -> Result<(Expr, u32), ExprFault>
    requires { D.ready reader.now.deeper reader.now.tokens.now reader.now.level }
    ensures { Gives ((read reader.now.tokens.now reader.now.level).unary at) result }
{
    reader
        .deeper
        .unary(reader.alloc, reader.tokens, at, reader.level)
}

/// A type one level deeper.
pub fn deep_type<D: Deeper>(reader: &Reader<'_, D>, at: u32) -> Result<(TypeTree, u32), ExprFault>
    requires { D.ready reader.now.deeper reader.now.tokens.now reader.now.level }
    ensures { Gives ((read reader.now.tokens.now reader.now.level).type_tree at) result }
{
    reader
        .deeper
        .type_tree(reader.alloc, reader.tokens, at, reader.level)
}

/// The operand of `sizeof` one level deeper.
pub fn deep_sized<D: Deeper>(
    reader: &Reader<'_, D>,
    at: u32,
) -> Result<(SizedOperand, u32), ExprFault>
    requires { D.ready reader.now.deeper reader.now.tokens.now reader.now.level }
    ensures { Gives (sized reader.now.tokens.now (read reader.now.tokens.now reader.now.level) at) result }
{
    reader
        .deeper
        .sized(reader.alloc, reader.tokens, at, reader.level)
}
