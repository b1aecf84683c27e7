//! What calls answer.

use cxx_base::PieceNo;
use settle_core::Meaning;

/// Whether a seat got the piece that it claimed, and if not, what stood in the way.
#[derive(Drop)]
pub enum Claim<M: Meaning> {
    /// The piece was fresh, and the seat holds it.
    Start,
    /// The piece was parked, and the seat holds it. This is the task that lay in its slot, and the seat's hold names it.
    Resume(M::Task),
    /// The piece had this word: it is held or settled, or another seat was faster.
    NotNow(u64),
    /// The piece is parked on another, which had this word and is not settled.
    StillParked { on: PieceNo, word: u64 },
}

/// Whether a seat got the outcome that it wanted to borrow, and if not, what stood in the way.
#[derive(Drop)]
pub enum Lend<M: Meaning> {
    /// The outcome. The seat has it until it gives it back.
    Got(M::Outcome),
    /// The piece had this word, and is not settled.
    NotSettled(u64),
    /// The piece had this word, 4: its outcome is lent to another seat.
    Busy(u64),
}

/// Why a closed board has no outcomes: a piece was left.
#[derive(Clone, Copy, Debug, PartialEq, Eq)]
pub struct Unsettled {
    /// The first that no seat saw settled.
    pub piece: PieceNo,
    /// 0 where it is fresh, 8 + j where it is parked on the piece j.
    pub word: u64,
}
