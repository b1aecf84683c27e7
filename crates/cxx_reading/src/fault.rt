//! Why a rule gives no tree.

use cxx_base::Memory;
use std::alloc::AllocError;

/// Why a rule gives no tree at a token.
#[derive(Clone, Copy, Debug, PartialEq, Eq)]
pub enum ExprFault {
    /// Nothing of this rule begins there.
    S1,
    /// The rule is too deep there.
    S2,
    /// No memory was found for the tree.
    Memory,
}

impl From<AllocError> for ExprFault {
    ghost use Rattle.std.specs.Prelude.{◌≡◌};
    ghost use Rattle.cxx_reading.specs.declared.fault.ExprFault.TheVariants.{Memory};

    ghost from_gives = { λ _ fault. fault ≡ Memory };

    fn from(_refused: AllocError) -> ExprFault {
        ExprFault::Memory
    }
}

impl From<Memory> for ExprFault {
    ghost use Rattle.std.specs.Prelude.{◌≡◌};
    ghost use Rattle.cxx_reading.specs.declared.fault.ExprFault.TheVariants.{Memory};

    ghost from_gives = { λ _ fault. fault ≡ Memory };

    fn from(_refused: Memory) -> ExprFault {
        ExprFault::Memory
    }
}
