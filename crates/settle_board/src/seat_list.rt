//! Seats that no worker has.

ghost use Rattle.std.specs.Prelude.{◌≡◌, ◌≤◌, true, vec_capacity};
ghost use Rattle.settle_board.specs.Boards.{are_idle};

use crate::board::BoardSeat;
use settle_core::Meaning;

/// The seats of a board that no worker has. None of them holds a piece or has an outcome lent.
#[derive(Drop)]
pub struct Seats<M: Meaning> {
    pub(crate) list: Vec<BoardSeat<M>>,
    // How many the board has.
    pub(crate) count: u32,
    ghost roomy: { count ≤ vec_capacity list },
    ghost idle: { are_idle list.items ≡ true },
}
