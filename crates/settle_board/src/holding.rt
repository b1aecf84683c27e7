//! Holds that end: a piece is settled, or parked.

ghost use Rattle.std.specs.Prelude.{◌≡◌, ◌<◌, ◌≤◌, ◌+◌, ◌-◌, length, Some, IsSome};
ghost use Rattle.settle_core.specs.Meant.{outcome as outcome_in_order, reads};
ghost use Rattle.board_rule.specs.Standing.{next_read, steps_at, taken_at};
ghost use Rattle.board_rule.specs.Views.{hold_on, after_settle, after_park, last_unsettled};
ghost use Rattle.board_rule.specs.Rule.{work};
ghost use Rattle.board_rule.specs.Plays.{CanPark};
ghost use Rattle.board_rule.specs.declared.view.Hold.{Hold};
ghost use Rattle.settle_board.specs.Boards.{HasSeen, IsOf, means, view_of};

use crate::board::{Board, BoardSeat};
use board_rule::{Home, Park, Settle, TakeSlot};
use cxx_base::PieceNo;
use settle_core::Meaning;

impl<M: Meaning> Board<M> {
    /// Settles a piece that the seat holds, with its outcome. The seat has spent the steps that the task used since it was
    /// claimed.
    pub fn settle(&self, seat: &mut BoardSeat<M>, k: PieceNo, outcome: M::Outcome)
        requires of { IsOf M.Meaning self.now seat.old }
        requires piece { k.0 < (means M.Meaning self.now).pieces }
        requires holds { IsSome (hold_on k.0 (view_of seat.old).held) }
        requires is_outcome { outcome ≡ outcome_in_order (means M.Meaning self.now) k.0 }
        requires reads { HasSeen (means M.Meaning self.now) k.0
            (length (reads (means M.Meaning self.now) k.0)) (view_of seat.old) }
        ensures of { IsOf M.Meaning self.now seat.new }
        ensures view { (h : Hold M.Task) → hold_on k.0 (view_of seat.old).held ≡ Some h →
            view_of seat.new ≡ after_settle k.0
            ((means M.Meaning self.now).outcome_steps outcome
            - steps_at (means M.Meaning self.now) h.claimed) (view_of seat.old) }
        ensures within { (view_of seat.new).spent ≤ work (means M.Meaning self.now) }
    {
        let shared = &self.table.shared;
        shared.load::<TakeSlot>(&mut seat.seat, k.0 as usize);
        let empty = shared.exchange(&mut seat.seat, k.0 as usize, Home::Outcome(outcome));
        let Home::Empty = empty else { unreachable!() };
        shared.store::<Settle>(&mut seat.seat, k.0 as usize, 3);
    }

    /// Parks a piece that the seat holds on the next read of its task, which it saw unsettled. The seat has spent the steps
    /// that the task used since it was claimed.
    pub fn park(&self, seat: &mut BoardSeat<M>, k: PieceNo, task: M::Task, on: PieceNo)
        requires of { IsOf M.Meaning self.now seat.old }
        requires piece { k.0 < (means M.Meaning self.now).pieces }
        requires holds { IsSome (hold_on k.0 (view_of seat.old).held) }
        requires is_task { CanPark (means M.Meaning self.now) k.0 task }
        requires next { on.0 ≡ next_read (means M.Meaning self.now) k.0
            ((means M.Meaning self.now).taken task) }
        requires unsettled { last_unsettled k.0 (view_of seat.old).trail ≡ Some on.0 }
        requires goes_on { (h : Hold M.Task) → hold_on k.0 (view_of seat.old).held ≡ Some h →
            (taken_at (means M.Meaning self.now) h.claimed
            ≤ (means M.Meaning self.now).taken task)
            × (steps_at (means M.Meaning self.now) h.claimed
            ≤ (means M.Meaning self.now).task_steps task) }
        requires reads { HasSeen (means M.Meaning self.now) k.0
            ((means M.Meaning self.now).taken task) (view_of seat.old) }
        ensures of { IsOf M.Meaning self.now seat.new }
        ensures view { (h : Hold M.Task) → hold_on k.0 (view_of seat.old).held ≡ Some h →
            view_of seat.new ≡ after_park k.0 (8 + on.0) task
            ((means M.Meaning self.now).task_steps task
            - steps_at (means M.Meaning self.now) h.claimed) (view_of seat.old) }
        ensures within { (view_of seat.new).spent ≤ work (means M.Meaning self.now) }
    {
        let shared = &self.table.shared;
        shared.load::<TakeSlot>(&mut seat.seat, k.0 as usize);
        let empty = shared.exchange(&mut seat.seat, k.0 as usize, Home::Task(task));
        let Home::Empty = empty else { unreachable!() };
        shared.store::<Park>(&mut seat.seat, k.0 as usize, 8 + on.0 as u64);
    }
}
