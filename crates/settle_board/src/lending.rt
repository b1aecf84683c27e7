//! Outcomes that go out to a seat, and come back.

ghost use Rattle.std.specs.Prelude.{◌≡◌, ◌<◌, Some, None};
ghost use Rattle.settle_core.specs.Meant.{outcome as outcome_in_order};
ghost use Rattle.board_rule.specs.Views.{after_give_back};
ghost use Rattle.settle_board.specs.Boards.{IsOf, means, view_of};
ghost use Rattle.settle_board.specs.Answers.{LendSays};

use crate::answers::Lend;
use crate::board::{Board, BoardSeat};
use board_rule::{GiveBack, Home, LendStep, PutSlotBack, TakeSlot};
use cxx_base::PieceNo;
use settle_core::Meaning;

impl<M: Meaning> Board<M> {
    /// Borrows the outcome of a piece that is settled, where no seat has it. A seat borrows one at a time. The answer has its
    /// cause, and tells the view.
    pub fn lend(&self, seat: &mut BoardSeat<M>, j: PieceNo) -> Lend<M>
        requires of { IsOf M.Meaning self.now seat.old }
        requires piece { j.0 < (means M.Meaning self.now).pieces }
        requires none_lent { (view_of seat.old).lent ≡ None }
        ensures of { IsOf M.Meaning self.now seat.new }
        ensures answer { LendSays (means M.Meaning self.now) j.0 (view_of seat.old) result
            (view_of seat.new) }
    {
        let shared = &self.table.shared;
        let found = shared.compare_exchange::<LendStep>(&mut seat.seat, j.0 as usize, 3, 4);
        if found == 4 {
            return Lend::Busy(found);
        }
        if found != 3 {
            return Lend::NotSettled(found);
        }
        let home = shared.exchange(&mut seat.seat, j.0 as usize, Home::Empty);
        shared.load::<PutSlotBack>(&mut seat.seat, j.0 as usize);
        let Home::Outcome(outcome) = home else {
            unreachable!()
        };
        Lend::Got(outcome)
    }

    /// Gives back the outcome that is lent to the seat.
    pub fn give_back(&self, seat: &mut BoardSeat<M>, j: PieceNo, outcome: M::Outcome)
        requires of { IsOf M.Meaning self.now seat.old }
        requires piece { j.0 < (means M.Meaning self.now).pieces }
        requires is_lent { (view_of seat.old).lent ≡ Some j.0 }
        requires is_outcome { outcome ≡ outcome_in_order (means M.Meaning self.now) j.0 }
        ensures of { IsOf M.Meaning self.now seat.new }
        ensures view { view_of seat.new ≡ after_give_back j.0 (view_of seat.old) }
    {
        let shared = &self.table.shared;
        shared.load::<TakeSlot>(&mut seat.seat, j.0 as usize);
        let empty = shared.exchange(&mut seat.seat, j.0 as usize, Home::Outcome(outcome));
        let Home::Empty = empty else { unreachable!() };
        shared.store::<GiveBack>(&mut seat.seat, j.0 as usize, 3);
    }
}
