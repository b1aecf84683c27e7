//! Bounds of a declarator ([dcl.array]).

ghost use Rattle.std.specs.Prelude.{◌+◌, []};
ghost use Rattle.cxx_grammar.specs.Locals as spec;
ghost use Rattle.cxx_grammar.specs.Read.{read};
ghost use Rattle.cxx_reading.specs.Reading.{Gives};

use containers::Items;
use cxx_reading::{ExprFault, expect, sees, span};
use cxx_tokens::mark::{LEFT_BRACKET, RIGHT_BRACKET};
use cxx_tree::{BoundTree, Expr};
use parse_expr::expression;
use parse_repeat::{Here, Part, many, optional};

// The length of a bound of a declarator at this level.
#[derive(Clone, Copy)]
struct Length<'a>(Here<'a>);

impl Part for Length<'_> {
    type Tree = Expr;

    ghost can = { λ _. Unit {0} };

    ghost part = { λ p. (read p.0.tokens.now (p.0.level + 1)).expr };

    fn read(&self, at: u32) -> Result<(Expr, u32), ExprFault> {
        expression(self.0.alloc, self.0.tokens, at, self.0.level + 1)
    }
}

// A bound of a declarator at this level.
#[derive(Clone, Copy)]
struct Bound<'a>(Here<'a>);

impl Part for Bound<'_> {
    type Tree = BoundTree;

    ghost can = { λ _. Unit {0} };

    ghost part = { λ p. spec.bound p.0.tokens.now p.0.level };

    #[tactic(auto, unfolding(cxx_grammar::specs::Locals::bound))]
    fn read(&self, start: u32) -> Result<(BoundTree, u32), ExprFault> {
        let at = expect(self.0.tokens, LEFT_BRACKET, start)?;
        let (length, at) = optional(&Length(self.0), at)?;
        let end = expect(self.0.tokens, RIGHT_BRACKET, at)?;
        let span = span(self.0.tokens, start, end);
        Ok((BoundTree { span, length }, end))
    }
}

/// The bounds, of which there may be none, that begin at token number `at`, and the number of the token after them. It
/// answers `S2` exactly where the grammar says that they are too deep, or `Memory`.
#[inline(always)]
#[tactic(auto, using(crate::proofs::Looks::no_bounds))]
pub fn bounds(here: &Here<'_>, at: u32) -> Result<(Items<BoundTree>, u32), ExprFault>
    ensures { Gives (spec.bounds here.now.tokens.now here.now.level [] at) result }
{
    if sees(here.tokens, LEFT_BRACKET, at) {
        some_bounds(here, at)
    } else {
        Ok((Items::new(here.alloc), at))
    }
}

#[inline(never)]
#[tactic(auto, unfolding(cxx_grammar::specs::Locals::bounds))]
fn some_bounds(here: &Here<'_>, at: u32) -> Result<(Items<BoundTree>, u32), ExprFault>
    ensures { Gives (spec.bounds here.now.tokens.now here.now.level [] at) result }
{
    many(
        here.alloc,
        here.tokens,
        &Bound(*here),
        Items::new(here.alloc),
        at,
    )
}
