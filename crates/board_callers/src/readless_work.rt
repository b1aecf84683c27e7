//! A worker of pieces without reads.

ghost use Rattle.std.specs.Prelude.{◌≡◌, ◌+◌, ◌≤◌, ◌<◌, IsTrue, IsFalse};
ghost use Rattle.settle_board.specs.Boards.{IsIdle, IsOfBy, meaning_of, view_of};
ghost use Rattle.settle_samples.specs.Readless.{pieces_without_reads};

use cxx_base::PieceNo;
use settle_board::{Board, BoardSeat, Claim};
use settle_samples::Readless;

/// Tries the pieces from the first to the last in order, and settles those that it gets. Answers how many these are, each of which
/// took one step.
pub fn settle_some(
    board: &Board<Readless>,
    seat: &mut BoardSeat<Readless>,
    first: u32,
    last: u32,
) -> u32
    requires of { IsOfBy (λ x. pieces_without_reads x.pieces) board.now seat.old }
    requires idle { IsIdle (view_of seat.old) }
    requires pieces { last ≤ (meaning_of board.now).pieces }
    ensures of { IsOfBy (λ x. pieces_without_reads x.pieces) board.now seat.new }
    ensures idle { IsIdle (view_of seat.new) }
    ensures spent { (view_of seat.new).spent ≡ (view_of seat.old).spent + result }
{
    let mut settled = 0;
    for k in first..last {
        if settle_one(board, seat, PieceNo(k)) {
            settled += 1;
        }
    }
    settled
}

// Settles a piece where it is fresh. Whether it was.
fn settle_one(board: &Board<Readless>, seat: &mut BoardSeat<Readless>, k: PieceNo) -> bool
    requires of { IsOfBy (λ x. pieces_without_reads x.pieces) board.now seat.old }
    requires idle { IsIdle (view_of seat.old) }
    requires piece { k.0 < (meaning_of board.now).pieces }
    ensures of { IsOfBy (λ x. pieces_without_reads x.pieces) board.now seat.new }
    ensures idle { IsIdle (view_of seat.new) }
    ensures got { IsTrue result → (view_of seat.new).spent ≡ (view_of seat.old).spent + 1 }
    ensures none { IsFalse result → (view_of seat.new).spent ≡ (view_of seat.old).spent }
{
    match board.claim(seat, k) {
        Claim::Start => {
            board.settle(seat, k, k.0 as u64);
            true
        }
        Claim::Resume(_) => unreachable!(),
        Claim::NotNow(_) => false,
        Claim::StillParked { .. } => false,
    }
}
