//! Seats go out to workers, and come back.

ghost use Rattle.std.specs.Prelude.{◌≡◌, ◌<◌, [], ◌∷◌, ◌++◌, MatchOption, IfSome, length};
ghost use Rattle.settle_board.specs.Boards.{IsIdle, view_of};
ghost use Rattle.settle_board.specs.Seating.{seats_in, room_of};

use crate::board::BoardSeat;
use crate::seat_list::Seats;
use settle_core::Meaning;

impl<M: Meaning> Seats<M> {
    /// The last seat, which leaves the list; it holds no piece and has nothing lent. None where there is none.
    #[tactic(auto, using(crate::proofs::SeatLists::idle_less, crate::proofs::SeatLists::idle_last))]
    pub fn take(&mut self) -> Option<BoardSeat<M>>
        ensures seat { MatchOption result
            ((seats_in self.old ≡ []) × (seats_in self.new ≡ []))
            (λ seat. seats_in self.old ≡ seats_in self.new ++ seat ∷ []) }
        ensures idle { IfSome result (λ seat. IsIdle (view_of seat)) }
        ensures count { room_of self.new ≡ room_of self.old }
    {
        self.list.pop()
    }

    /// Puts a seat at the end, which holds no piece and has nothing lent.
    #[tactic(auto, using(crate::proofs::SeatLists::idle_more))]
    pub fn give(&mut self, seat: BoardSeat<M>)
        requires idle { IsIdle (view_of seat) }
        requires room { length (seats_in self.old) < room_of self.old }
        ensures seat { seats_in self.new ≡ seats_in self.old ++ seat ∷ [] }
        ensures count { room_of self.new ≡ room_of self.old }
    {
        self.list.push_reserved(seat);
    }
}
