//! The turns of a hand.

ghost use Rattle.std.specs.Prelude.{◌≡◌, ◌≤◌, ◌<◌, IsTrue};
ghost use Rattle.settle_board.specs.Boards.{IsIdle, IsOf, meaning_of, means, view_of};
ghost use Rattle.board_callers.specs.Ends.{HasSeenAll, LooksSay, TurnSays};

use crate::piece_work::work;
use crate::tasked::Tasked;
use cxx_base::{Memory, PieceNo};
use piece_search::{Found, search};
use settle_board::{Board, BoardSeat};
use settle_core::Meaning;
use std::alloc::Global;
use std::sync::Wait;

/// What a turn came to.
#[derive(Clone, Copy, Debug, PartialEq, Eq)]
pub enum TurnEnd {
    /// A piece was settled or parked.
    Worked(PieceNo),
    /// No piece was to be had, and each was seen settled.
    SawAll,
    /// No piece was to be had, and one was seen unsettled.
    Waits,
    /// Memory ran out. The seat holds the piece that it had got.
    Fails,
}

/// Takes the first piece that is to be had, from the pick round, and settles or parks it.
pub fn turn<R: Wait, M: Tasked>(
    rt: &R,
    alloc: Global,
    board: &Board<M>,
    meaning: &M,
    seat: &mut BoardSeat<M>,
    pieces: u32,
    pick: u32,
) -> TurnEnd
    requires meaning { meaning.now ≡ meaning_of board.now }
    requires of { IsOf M.Meaning board.now seat.old }
    requires idle { IsIdle (view_of seat.old) }
    requires all { pieces ≡ (means M.Meaning board.now).pieces }
    requires pick { pick ≤ pieces }
    ensures of { IsOf M.Meaning board.now seat.new }
    ensures turn { TurnSays (means M.Meaning board.now) pieces result (view_of seat.old)
        (view_of seat.new) }
{
    match search(board, seat, pieces, pick) {
        Found::Fresh(k) => match work(rt, alloc, board, meaning, seat, k, None) {
            Ok(()) => TurnEnd::Worked(k),
            Err(Memory) => TurnEnd::Fails,
        },
        Found::Parked(k, task) => match work(rt, alloc, board, meaning, seat, k, Some(task)) {
            Ok(()) => TurnEnd::Worked(k),
            Err(Memory) => TurnEnd::Fails,
        },
        Found::Nothing => {
            if sees_all(board, seat, pieces) {
                TurnEnd::SawAll
            } else {
                TurnEnd::Waits
            }
        }
    }
}

// Looks at the pieces, up to the first that is not settled. Whether there was none.
fn sees_all<M: Meaning>(board: &Board<M>, seat: &mut BoardSeat<M>, pieces: u32) -> bool
    requires of { IsOf M.Meaning board.now seat.old }
    requires idle { IsIdle (view_of seat.old) }
    requires all { pieces ≡ (means M.Meaning board.now).pieces }
    ensures of { IsOf M.Meaning board.now seat.new }
    ensures idle { IsIdle (view_of seat.new) }
    ensures all { IsTrue result → HasSeenAll pieces (view_of seat.new) }
    ensures looks { LooksSay pieces result (view_of seat.old) (view_of seat.new) }
{
    for k in 0..pieces {
        let word = board.look(seat, PieceNo(k));
        if word != 3 && word != 4 {
            return false;
        }
    }
    true
}
