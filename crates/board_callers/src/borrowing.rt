//! Outcomes that a task takes.

ghost use Rattle.std.specs.Prelude.{◌≡◌, ◌<◌, None, IfOk, OnErr};
ghost use Rattle.settle_board.specs.Boards.{IsOf, means, view_of};
ghost use Rattle.board_callers.specs.Holding.{BorrowSays, IsBorrowed};

use crate::tasked::Tasked;
use cxx_base::{Memory, PieceNo};
use settle_board::{Board, BoardSeat, Lend};
use settle_core::TakenList;
use std::alloc::Global;

/// What became of a wish to take an outcome.
#[derive(Clone, Copy, Debug, PartialEq, Eq)]
pub enum Loan {
    /// It was taken.
    Took,
    /// The piece is not settled.
    Open,
    /// Another seat has it.
    Busy,
}

/// Borrows the outcome of a piece, takes a copy, and gives it back. Without memory it was given back all the same, and not taken.
pub fn borrow<M: Tasked>(
    alloc: Global,
    board: &Board<M>,
    meaning: &M,
    seat: &mut BoardSeat<M>,
    j: PieceNo,
    taken: &mut TakenList<M::Outcome>,
) -> Result<Loan, Memory>
    requires of { IsOf M.Meaning board.now seat.old }
    requires piece { j.0 < (means M.Meaning board.now).pieces }
    requires none_lent { (view_of seat.old).lent ≡ None }
    ensures of { IsOf M.Meaning board.now seat.new }
    ensures says { IfOk result (λ b.
        BorrowSays (means M.Meaning board.now) j.0 taken.old (view_of seat.old) b taken.new
        (view_of seat.new)) }
    ensures given_back { OnErr result ((taken.new ≡ taken.old)
        × IsBorrowed j.0 (view_of seat.old) (view_of seat.new)) }
{
    match board.lend(seat, j) {
        Lend::Got(outcome) => {
            let copied = meaning.copy(alloc, &outcome);
            board.give_back(seat, j, outcome);
            let copy = copied?;
            taken.push(j, copy)?;
            Ok(Loan::Took)
        }
        Lend::NotSettled(_) => Ok(Loan::Open),
        Lend::Busy(_) => Ok(Loan::Busy),
    }
}
