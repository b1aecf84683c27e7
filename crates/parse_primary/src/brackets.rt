//! Primary expressions that are in brackets: parentheses, splices, casts and vectors.

ghost use Rattle.cxx_grammar.specs.Primaries as spec;
ghost use Rattle.cxx_grammar.specs.Joined as joined;
ghost use Rattle.cxx_grammar.specs.Read.{read};
ghost use Rattle.cxx_reading.specs.Reading.{Gives};

use crate::made::{braced, static_cast};
use containers::Boxed;
use cxx_reading::{ExprFault, Reader, expect, expect_word, span};
use cxx_tokens::keyword::STATIC_CAST;
use cxx_tokens::mark::{GREATER, LEFT_PAREN, LESS, RIGHT_PAREN};
use cxx_tree::Expr;
use parse_level::{Deeper, deep_expr};
use parse_list::braced_list;
use parse_type::{basic_vector, splice, type_tree};

/// An expression in parentheses ([expr.prim.paren]). Answers `S1` exactly where none begins, `S2` exactly where it is too deep, or `Memory`.
#[inline(never)]
#[tactic(auto, unfolding(cxx_grammar::specs::Primaries::paren_form))]
pub fn paren_form<D: Deeper>(reader: &Reader<'_, D>, start: u32) -> Result<(Expr, u32), ExprFault>
    requires { D.ready reader.now.deeper reader.now.tokens.now reader.now.level }
    ensures { Gives (spec.paren_form reader.now.tokens.now (read reader.now.tokens.now reader.now.level) start) result }
{
    let at = expect(reader.tokens, LEFT_PAREN, start)?;
    let (x, at) = deep_expr(reader, at)?;
    let end = expect(reader.tokens, RIGHT_PAREN, at)?;
    let x = Boxed::new(reader.alloc, x)?;
    Ok((Expr::Paren(span(reader.tokens, start, end), x), end))
}

/// A splice (P2996R13). Answers `S1` exactly where none begins, `S2` exactly where it is too deep, or `Memory`.
#[inline(never)]
#[tactic(auto, unfolding(cxx_grammar::specs::Primaries::splice_form))]
pub fn splice_form<D: Deeper>(reader: &Reader<'_, D>, start: u32) -> Result<(Expr, u32), ExprFault>
    requires { D.ready reader.now.deeper reader.now.tokens.now reader.now.level }
    ensures { Gives (spec.splice_form reader.now.tokens.now (read reader.now.tokens.now reader.now.level) start) result }
{
    let (x, end) = splice(reader, start)?;
    Ok((Expr::Splice(x), end))
}

/// A `static_cast` ([expr.static.cast]). Answers `S1` exactly where none begins, `S2` exactly where it is too deep, or `Memory`.
#[inline(never)]
#[tactic(auto, unfolding(cxx_grammar::specs::Primaries::cast_form))]
pub fn cast_form<D: Deeper>(reader: &Reader<'_, D>, start: u32) -> Result<(Expr, u32), ExprFault>
    requires { D.ready reader.now.deeper reader.now.tokens.now reader.now.level }
    ensures { Gives (spec.cast_form reader.now.tokens.now (read reader.now.tokens.now reader.now.level) start) result }
{
    let at = expect_word(reader.tokens, STATIC_CAST, start)?;
    let at = expect(reader.tokens, LESS, at)?;
    let (to, at) = type_tree(reader, at)?;
    let at = expect(reader.tokens, GREATER, at)?;
    let at = expect(reader.tokens, LEFT_PAREN, at)?;
    let (x, at) = deep_expr(reader, at)?;
    let end = expect(reader.tokens, RIGHT_PAREN, at)?;
    let span = span(reader.tokens, start, end);
    Ok((static_cast(reader.alloc, span, to, x)?, end))
}

/// A `std::vector` of some type with a braced list behind it ([expr.type.conv]). Answers `S1` exactly where none begins, `S2` exactly where it is too deep, or `Memory`.
#[inline(never)]
#[tactic(auto, unfolding(cxx_grammar::specs::Joined::vector_form))]
pub fn vector_form<D: Deeper>(reader: &Reader<'_, D>, start: u32) -> Result<(Expr, u32), ExprFault>
    requires { D.ready reader.now.deeper reader.now.tokens.now reader.now.level }
    ensures { Gives (joined.vector_form reader.now.tokens.now (read reader.now.tokens.now reader.now.level) start) result }
{
    let (basic, at) = basic_vector(reader.alloc, reader.tokens, start)?;
    let (x, end) = braced_list(reader, at)?;
    let span = span(reader.tokens, start, end);
    Ok((braced(reader.alloc, span, basic, x)?, end))
}
