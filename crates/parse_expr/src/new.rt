//! New expressions ([expr.new]).

ghost use Rattle.cxx_grammar.specs.Read.{read};
ghost use Rattle.cxx_grammar.specs.Unaries as spec;
ghost use Rattle.cxx_reading.specs.Reading.{Gives};
ghost use Rattle.cxx_reading.specs.Reading.{optional};

use crate::made::new;
use cxx_reading::{ExprFault, Reader, expect, expect_word, optional, span};
use cxx_tokens::keyword::NEW;
use cxx_tokens::mark::{LEFT_BRACKET, RIGHT_BRACKET};
use cxx_tree::{Expr, NewInit};
use parse_level::{Deeper, deep_expr, deep_type};
use parse_primary::initializer;

#[tactic(auto, unfolding(cxx_grammar::specs::Unaries::new_bound))]
fn new_bound<D: Deeper>(reader: &Reader<'_, D>, start: u32) -> Result<(Expr, u32), ExprFault>
    requires { D.ready reader.now.deeper reader.now.tokens.now reader.now.level }
    ensures { Gives (spec.new_bound reader.now.tokens.now (read reader.now.tokens.now reader.now.level) start) result }
{
    let at = expect(reader.tokens, LEFT_BRACKET, start)?;
    let (x, at) = deep_expr(reader, at)?;
    let end = expect(reader.tokens, RIGHT_BRACKET, at)?;
    Ok((x, end))
}

#[tactic(auto, unfolding(cxx_reading::specs::Reading::optional), using(cxx_reading::proofs::Answers::none_left))]
fn bound_if_any<D: Deeper>(
    reader: &Reader<'_, D>,
    start: u32,
) -> Result<(Option<Expr>, u32), ExprFault>
    requires { D.ready reader.now.deeper reader.now.tokens.now reader.now.level }
    ensures { Gives (optional (spec.new_bound reader.now.tokens.now (read reader.now.tokens.now reader.now.level)) start) result }
{
    optional(new_bound(reader, start), start)
}

#[tactic(auto, unfolding(cxx_reading::specs::Reading::optional), using(cxx_reading::proofs::Answers::none_left))]
fn init_if_any<D: Deeper>(
    reader: &Reader<'_, D>,
    start: u32,
) -> Result<(Option<NewInit>, u32), ExprFault>
    requires { D.ready reader.now.deeper reader.now.tokens.now reader.now.level }
    ensures { Gives (optional (spec.new_init reader.now.tokens.now (read reader.now.tokens.now reader.now.level)) start) result }
{
    optional(initializer(reader, start), start)
}

/// The `new` ([expr.new]) that begins at token number `start`, and the number of the token after it: exactly what the grammar gives.
/// It answers `S1` exactly where none begins, `S2` exactly where it is too deep, or `Memory`.
#[inline(never)]
#[tactic(auto, unfolding(cxx_grammar::specs::Unaries::new_form))]
pub fn new_form<D: Deeper>(reader: &Reader<'_, D>, start: u32) -> Result<(Expr, u32), ExprFault>
    requires { D.ready reader.now.deeper reader.now.tokens.now reader.now.level }
    ensures { Gives (spec.new_form reader.now.tokens.now (read reader.now.tokens.now reader.now.level) start) result }
{
    let at = expect_word(reader.tokens, NEW, start)?;
    let (of, at) = deep_type(reader, at)?;
    let (bound, at) = bound_if_any(reader, at)?;
    let (init, end) = init_if_any(reader, at)?;
    let span = span(reader.tokens, start, end);
    Ok((new(reader.alloc, span, of, bound, init)?, end))
}
