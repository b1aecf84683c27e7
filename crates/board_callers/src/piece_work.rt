//! The work on one piece.

ghost use Rattle.std.specs.Prelude.{◌≡◌, ◌<◌, OnOk, OnErr};
ghost use Rattle.settle_board.specs.Boards.{IsOf, meaning_of, means, view_of};
ghost use Rattle.board_callers.specs.Holding.{HoldsOnly, IsClaimedFor, WorkSays};

use crate::borrowing::{Loan, borrow};
use crate::tasked::Tasked;
use cxx_base::{Memory, PieceNo};
use settle_board::{Board, BoardSeat};
use settle_core::{NextOf, TakenList};
use std::alloc::Global;
use std::sync::Wait;
use std::thread;

/// Settles the one piece that the seat holds, once it has borrowed the outcomes that the piece reads, or parks it on the first of
/// these that is not settled. Without memory the seat still holds the piece, and nothing is lent to it.
pub fn work<R: Wait, M: Tasked>(
    rt: &R,
    alloc: Global,
    board: &Board<M>,
    meaning: &M,
    seat: &mut BoardSeat<M>,
    k: PieceNo,
    claimed: Option<M::Task>,
) -> Result<(), Memory>
    requires meaning { meaning.now ≡ meaning_of board.now }
    requires of { IsOf M.Meaning board.now seat.old }
    requires piece { k.0 < (means M.Meaning board.now).pieces }
    requires holds { HoldsOnly k.0 claimed (view_of seat.old) }
    requires claimed { IsClaimedFor (means M.Meaning board.now) k.0 claimed }
    ensures of { IsOf M.Meaning board.now seat.new }
    ensures worked { OnOk result (WorkSays (means M.Meaning board.now) k.0 (view_of seat.old)
        (view_of seat.new)) }
    ensures holds { OnErr result (HoldsOnly k.0 claimed (view_of seat.new)) }
{
    let mut taken = TakenList::new(alloc);
    for _ in rt.forever() {
        match meaning.next(alloc, k, &taken)? {
            NextOf::Read(j) => match borrow(alloc, board, meaning, seat, j, &mut taken)? {
                Loan::Took => {}
                Loan::Open => {
                    let task = meaning.parked(k, taken.len(), claimed);
                    board.park(seat, k, task, j);
                    return Ok(());
                }
                Loan::Busy => thread::yield_now(),
            },
            NextOf::Ends(outcome) => {
                board.settle(seat, k, outcome);
                return Ok(());
            }
        }
    }
    unreachable!()
}
