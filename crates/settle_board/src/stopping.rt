//! The stop word, which every seat may set and no seat clears.

ghost use Rattle.std.specs.Prelude.{◌≡◌, ◌↔◌, ℕ, ◌≤◌, true, IsTrue};
ghost use Rattle.board_rule.specs.Views.{after_stop, after_stop_look};
ghost use Rattle.settle_board.specs.Boards.{IsOf, view_of};

use crate::board::{Board, BoardSeat};
use board_rule::{LookAtStop, Stop};
use settle_core::Meaning;

impl<M: Meaning> Board<M> {
    /// Tells all workers to stop. No call takes this back.
    pub fn stop(&self, seat: &mut BoardSeat<M>)
        requires of { IsOf M.Meaning self.now seat.old }
        ensures of { IsOf M.Meaning self.now seat.new }
        ensures view { view_of seat.new ≡ after_stop (view_of seat.old) }
    {
        let last = self.key.meaning.pieces() as usize;
        self.table.shared.store::<Stop>(&mut seat.seat, last, 1);
    }

    /// Whether the stop word is set. To a seat that set it or saw it set it is.
    pub fn stopped(&self, seat: &mut BoardSeat<M>) -> bool
        requires of { IsOf M.Meaning self.now seat.old }
        ensures of { IsOf M.Meaning self.now seat.new }
        ensures view { (w : ℕ) × (view_of seat.new ≡ after_stop_look w (view_of seat.old)) × (w ≤ 1)
            × (IsTrue result ↔ (w ≡ 1)) }
        ensures set { IsTrue (view_of seat.old).stopped → IsTrue result }
        ensures seen { IsTrue (view_of seat.old).saw_stop → IsTrue result }
    {
        let last = self.key.meaning.pieces() as usize;
        let found = self.table.shared.load::<LookAtStop>(&mut seat.seat, last);
        found == 1
    }
}
