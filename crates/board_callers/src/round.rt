//! A hand at work, from its first turn to its last.

ghost use Rattle.std.specs.Prelude.{◌≡◌, ◌≤◌, ◌<◌};
ghost use Rattle.settle_board.specs.Boards.{IsIdle, IsOf, meaning_of, means, view_of};
ghost use Rattle.board_callers.specs.Ends.{EndSays, IsReady, HasEnded};

use crate::hand::{Hand, HandEnd, Plan};
use crate::tasked::Tasked;
use crate::turns::{TurnEnd, turn};
use settle_board::{Board, BoardSeat};
use std::alloc::Global;
use std::sync::Wait;
use std::thread;

/// The hand works until it sees all pieces settled, finds the stop word set or sets it.
pub fn run<R: Wait, M: Tasked>(
    rt: &R,
    alloc: Global,
    board: &Board<M>,
    meaning: &M,
    hand: &mut Hand<M>,
)
    requires meaning { meaning.now ≡ meaning_of board.now }
    requires ready { IsReady (λ x. M.meant x) board.now hand.old }
    ensures ended { HasEnded (λ x. M.meant x) board.now hand.new }
{
    hand.end = take_turns(rt, alloc, board, meaning, &mut hand.seat, hand.plan);
}

// It looks at the stop word before each turn.
fn take_turns<R: Wait, M: Tasked>(
    rt: &R,
    alloc: Global,
    board: &Board<M>,
    meaning: &M,
    seat: &mut BoardSeat<M>,
    plan: Plan,
) -> HandEnd
    requires meaning { meaning.now ≡ meaning_of board.now }
    requires of { IsOf M.Meaning board.now seat.old }
    requires idle { IsIdle (view_of seat.old) }
    ensures of { IsOf M.Meaning board.now seat.new }
    ensures end { EndSays (means M.Meaning board.now).pieces result (view_of seat.new) }
{
    let pieces = meaning.pieces();
    let mut pick = if plan.first < pieces { plan.first } else { 0 };
    let mut left = plan.pieces;
    for _ in rt.forever() {
        if board.stopped(seat) {
            return HandEnd::Stopped;
        }
        if left == 0 {
            board.stop(seat);
            return HandEnd::Stopped;
        }
        match turn(rt, alloc, board, meaning, seat, pieces, pick) {
            TurnEnd::Worked(k) => {
                pick = next_pick(plan.down, k.0, pieces);
                left -= 1;
            }
            TurnEnd::SawAll => return HandEnd::AllSettled,
            TurnEnd::Waits => thread::yield_now(),
            TurnEnd::Fails => {
                board.stop(seat);
                return HandEnd::NoMemory;
            }
        }
    }
    unreachable!()
}

// The piece that is tried first after this one.
fn next_pick(down: bool, k: u32, pieces: u32) -> u32
    requires { k < pieces }
    ensures { result ≤ pieces }
{
    if down && k > 0 { k - 1 } else { k + 1 }
}
