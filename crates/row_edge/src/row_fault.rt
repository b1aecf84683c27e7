//! Why a row has no answer.

use cxx_base::Memory;
use std::alloc::{AllocError, AllocFailed};
use thiserror::Error;

/// Why a row has no answer.
#[derive(Clone, Copy, Debug, PartialEq, Eq, Error)]
pub enum RowFault {
    /// It asks for no call, or its arguments are none that the call may have. This stands in place of the answer.
    #[error("not understood")]
    Unread,
    /// No memory was found. No row is answered then.
    #[error("no memory was found")]
    Memory,
}

impl From<Memory> for RowFault {
    ghost use Rattle.std.specs.Prelude.{◌≡◌};
    ghost use Rattle.row_edge.specs.declared.row_fault.RowFault.TheVariants.{Memory};

    ghost from_gives = { λ _ fault. fault ≡ Memory };

    fn from(_refused: Memory) -> RowFault {
        RowFault::Memory
    }
}

impl From<AllocError> for RowFault {
    ghost use Rattle.std.specs.Prelude.{◌≡◌};
    ghost use Rattle.row_edge.specs.declared.row_fault.RowFault.TheVariants.{Memory};

    ghost from_gives = { λ _ fault. fault ≡ Memory };

    fn from(_refused: AllocError) -> RowFault {
        RowFault::Memory
    }
}

impl<T: Drop> From<AllocFailed<T>> for RowFault {
    ghost use Rattle.std.specs.Prelude.{◌≡◌};
    ghost use Rattle.row_edge.specs.declared.row_fault.RowFault.TheVariants.{Memory};

    ghost from_gives = { λ _ fault. fault ≡ Memory };

    fn from(_refused: AllocFailed<T>) -> RowFault {
        RowFault::Memory
    }
}
