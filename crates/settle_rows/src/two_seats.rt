//! A board of the three pieces with two seats.

ghost use Rattle.std.specs.Prelude.{◌≡◌, ◌<◌, [], IfOk};
ghost use Rattle.settle_core.specs.Meant.{outcomes_below};
ghost use Rattle.settle_board.specs.Boards.{IsIdle, IsOfBy, meaning_of, view_of};
ghost use Rattle.settle_board.specs.Seating.{seats_in, room_of, seat_count};
ghost use Rattle.settle_samples.specs.ThreePieces.{three_pieces};

use cxx_base::{Memory, OutcomeList};
use settle_board::{Board, BoardSeat, Seats, Unsettled};
use settle_samples::Three;
use std::alloc::Global;

/// A board of the three pieces, the list of its seats, and the two seats, which are out.
#[derive(Drop)]
pub struct Opened {
    pub board: Board<Three>,
    pub seats: Seats<Three>,
    pub first: BoardSeat<Three>,
    pub second: BoardSeat<Three>,
}

/// A new board of three pieces with two seats. Piece 0 comes to `first`.
pub fn open(alloc: Global, first: u64) -> Result<Opened, Memory>
    ensures meaning { IfOk result (λ r. meaning_of r.board ≡ record { first = first }) }
    ensures seats { IfOk result (λ r. (seats_in r.seats ≡ []) × (room_of r.seats ≡ 2)
        × (seat_count r.board ≡ 2)) }
    ensures first { IfOk result (λ r. IsOfBy (λ x. three_pieces x.first) r.board r.first
        × IsIdle (view_of r.first)) }
    ensures second { IfOk result (λ r. IsOfBy (λ x. three_pieces x.first) r.board r.second
        × IsIdle (view_of r.second)) }
{
    let (board, mut seats) = Board::new(alloc, Three { first }, 2)?;
    let Some(second) = seats.take() else {
        unreachable!()
    };
    let Some(other) = seats.take() else {
        unreachable!()
    };
    Ok(Opened {
        board,
        seats,
        first: other,
        second,
    })
}

/// Both seats come back, and the board is closed.
pub fn close(
    board: Board<Three>,
    mut seats: Seats<Three>,
    first: BoardSeat<Three>,
    second: BoardSeat<Three>,
) -> Result<OutcomeList<u64>, Unsettled>
    requires seats { (seats_in seats ≡ []) × (room_of seats ≡ 2) × (seat_count board ≡ 2) }
    requires first { IsOfBy (λ x. three_pieces x.first) board first × IsIdle (view_of first) }
    requires second { IsOfBy (λ x. three_pieces x.first) board second × IsIdle (view_of second) }
    ensures { IfOk result (λ outcomes.
        outcomes ≡ outcomes_below (three_pieces (meaning_of board).first) 3) }
{
    seats.give(first);
    seats.give(second);
    board.close(seats)
}
