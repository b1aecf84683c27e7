//! Why an operation of the evaluation has no result.

ghost use Rattle.std.specs.Prelude.{◌≡◌};

use cxx_base::{Code, Memory};

/// A refusal without its places, which whoever asked adds.
#[derive(Clone, Copy, Debug, PartialEq, Eq)]
pub struct Cause {
    pub code: Code,
    /// As in a [`Refusal`](cxx_base::Refusal): the piece of `R1`, the place of the [`cause`](cxx_base::cause) of `V1` and `V14`, else `cause::ONE`.
    pub detail: u64,
}

/// Why a place is not read, or a pointer not moved.
#[derive(Clone, Copy, Debug, PartialEq, Eq)]
pub enum ReadStop {
    Refused(Cause),
    Memory,
}

impl From<Memory> for ReadStop {
    ghost use Rattle.std.specs.Prelude.{◌≡◌};
    ghost use Rattle.core_words.specs.declared.stop.ReadStop.TheVariants as stop;

    ghost from_gives = { λ _ stopped. stopped ≡ stop.Memory };

    fn from(_refused: Memory) -> ReadStop {
        ReadStop::Memory
    }
}

/// Why a call is not entered.
#[derive(Clone, Copy, Debug, PartialEq, Eq)]
pub enum CallStop {
    Refused(Cause),
    Memory,
}

impl From<Memory> for CallStop {
    ghost use Rattle.std.specs.Prelude.{◌≡◌};
    ghost use Rattle.core_words.specs.declared.stop.CallStop.TheVariants as stop;

    ghost from_gives = { λ _ stopped. stopped ≡ stop.Memory };

    fn from(_refused: Memory) -> CallStop {
        CallStop::Memory
    }
}
