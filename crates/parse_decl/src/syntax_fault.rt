//! Why a text has no unit.

use cxx_base::Place;
use std::alloc::AllocError;

/// Why a text has no unit, with the place that is told.
#[derive(Clone, Copy, Debug, PartialEq, Eq)]
pub enum SyntaxFault {
    /// No item begins there, or it is a `}` that closes nothing, or a namespace is open at the end.
    S1(Place),
    /// The item that begins there is too deep.
    S2(Place),
    /// No memory was found for the trees.
    Memory,
}

impl From<AllocError> for SyntaxFault {
    ghost use Rattle.std.specs.Prelude.{◌≡◌};
    ghost use Rattle.parse_decl.specs.declared.syntax_fault.SyntaxFault.TheVariants.{Memory};

    ghost from_gives = { λ _ fault. fault ≡ Memory };

    fn from(_refused: AllocError) -> SyntaxFault {
        SyntaxFault::Memory
    }
}
