//! A hand that works on a board.

use settle_board::BoardSeat;
use settle_core::Meaning;

/// How a hand works.
#[derive(Clone, Copy, Debug, PartialEq, Eq)]
pub struct Plan {
    /// The piece that it tries first.
    pub first: u32,
    /// Whether it goes from a fresh piece to the one before it, and not to the one behind it.
    pub down: bool,
    /// After so many pieces it tells all hands to stop.
    pub pieces: u64,
}

/// How the work of a hand ended.
#[derive(Clone, Copy, Debug, PartialEq, Eq)]
pub enum HandEnd {
    /// It saw each piece settled.
    AllSettled,
    /// It saw that the hands are told to stop, or told them so.
    Stopped,
    /// Memory ran out, and it told all hands to stop. It still holds the piece on which it worked.
    NoMemory,
}

/// A hand: a seat, how it works, and how it ended, once it has.
#[derive(Drop)]
pub struct Hand<M: Meaning> {
    pub seat: BoardSeat<M>,
    pub plan: Plan,
    pub end: HandEnd,
}
