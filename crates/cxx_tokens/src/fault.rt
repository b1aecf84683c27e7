//! Why a text has no tokens.

use cxx_base::{Memory, Place};
use std::alloc::AllocError;

/// Why a text has no list of tokens, and where.
#[derive(Clone, Copy, Debug, PartialEq, Eq)]
pub enum LexFault {
    /// The source is not UTF-8: the first byte that begins no character stands here.
    L1(Place),
    /// No token begins here.
    L2(Place),
    /// An integer literal is too large: no kind holds it.
    L3(Place),
    /// A string or a comment does not end.
    L4(Place),
    /// An identifier is longer than 255 bytes, or not in normalization form C.
    L5(Place),
    /// No memory was found for the tokens or for the names.
    Memory,
}

impl From<Memory> for LexFault {
    ghost use Rattle.std.specs.Prelude.{◌≡◌};
    ghost use Rattle.cxx_tokens.specs.declared.fault.LexFault.TheVariants.{Memory};

    ghost from_gives = { λ _ e. e ≡ Memory };

    fn from(_refused: Memory) -> LexFault {
        LexFault::Memory
    }
}

impl From<AllocError> for LexFault {
    ghost use Rattle.std.specs.Prelude.{◌≡◌};
    ghost use Rattle.cxx_tokens.specs.declared.fault.LexFault.TheVariants.{Memory};

    ghost from_gives = { λ _ e. e ≡ Memory };

    fn from(_refused: AllocError) -> LexFault {
        LexFault::Memory
    }
}
