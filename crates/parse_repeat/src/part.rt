//! Parts, and parts that may be missing.

ghost use Rattle.cxx_reading.specs.Reading.{Rule, Gives};
ghost use Rattle.cxx_reading.specs.Reading as reading;

use containers::Boxed;
use cxx_reading::{ExprFault, identifier};
use cxx_tokens::Tokens;
use cxx_tree::Identifier;
use std::alloc::Global;

/// What reads a part of a form at each token. `part` is the rule that it reads, and `can` says where it may be asked.
pub trait Part {
    type Tree: Drop;

    ghost can: { Self → Type 0 };

    ghost part: { Self → Rule Self.Tree };

    /// Reads the part that begins there.
    fn read(&self, at: u32) -> Result<(Self::Tree, u32), ExprFault>
        requires { can self.now }
        ensures { Gives (part self.now at) result };
}

/// The part, where it is there.
#[tactic(auto, unfolding(cxx_reading::specs::Reading::optional), using(cxx_reading::proofs::Answers::none_left))]
pub fn optional<P: Part>(part: &P, at: u32) -> Result<(Option<P::Tree>, u32), ExprFault>
    requires { P.can part.now }
    ensures { Gives (reading.optional (P.part part.now) at) result }
{
    cxx_reading::optional(part.read(at), at)
}

/// The same in its box.
#[tactic(auto, unfolding(cxx_reading::specs::Reading::optional))]
pub fn boxed_if_any<P: Part>(
    alloc: Global,
    part: &P,
    at: u32,
) -> Result<(Option<Boxed<P::Tree>>, u32), ExprFault>
    requires { P.can part.now }
    ensures { Gives (reading.optional (P.part part.now) at) result }
{
    match part.read(at) {
        Ok((x, end)) => Ok((Some(Boxed::new(alloc, x)?), end)),
        Err(ExprFault::S1) => Ok((None, at)),
        Err(ExprFault::S2) => Err(ExprFault::S2),
        Err(ExprFault::Memory) => Err(ExprFault::Memory),
    }
}

/// Identifiers ([lex.name]).
#[derive(Clone, Copy)]
pub struct Identifiers<'a>(pub &'a Tokens);

impl Part for Identifiers<'_> {
    type Tree = Identifier;

    ghost can = { λ _. Unit {0} };

    ghost part = { λ p. reading.identifier p.0.now };

    fn read(&self, at: u32) -> Result<(Identifier, u32), ExprFault> {
        identifier(self.0, at)
    }
}
