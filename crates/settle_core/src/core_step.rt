//! The steps of the machine.

ghost use Rattle.std.specs.Prelude.{◌≡◌};
ghost use Rattle.settle_core.specs.Steps.{named};

use cxx_base::PieceNo;

/// A step of the machine. The first number of each is the piece that it moves.
#[derive(Clone, Copy, Debug, PartialEq, Eq)]
pub enum CoreStep {
    /// A worker claims a fresh piece.
    Claim(PieceNo, u32),
    /// A held piece that has not finished takes the outcome of its next read, where it has one.
    Advance(PieceNo),
    /// A held piece is parked on its next read.
    Park(PieceNo, PieceNo),
    /// A worker takes a parked piece. What it is parked on is settled.
    Resume(PieceNo, u32),
    /// A held piece that has finished is settled.
    Settle(PieceNo),
}

impl CoreStep {
    /// The piece that it moves.
    pub fn piece(self) -> PieceNo
        ensures { result.0 ≡ named self }
    {
        match self {
            CoreStep::Claim(k, _)
            | CoreStep::Advance(k)
            | CoreStep::Park(k, _)
            | CoreStep::Resume(k, _)
            | CoreStep::Settle(k) => k,
        }
    }
}
