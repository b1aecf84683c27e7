//! The end of a board, which takes all its seats.

ghost use Rattle.std.specs.Prelude.{◌≡◌, ◌⊎◌, ◌↔◌, ℕ, ◌+◌, ◌<◌, ◌≤◌, length, IfOk, IfErr, OnOk};
ghost use Rattle.settle_core.specs.Meant.{outcomes_below};
ghost use Rattle.board_rule.specs.Maps.{IsAmong};
ghost use Rattle.board_rule.specs.Rule.{work};
ghost use Rattle.settle_board.specs.Boards.{means};
ghost use Rattle.settle_board.specs.Seating.{AreOf, AreBack, Gathered, SeenBy, BegunBy, StandsWith, seats_in, seat_count, spent_by};

use crate::answers::Unsettled;
use crate::board::{Board, BoardSeat};
use crate::emptying::take_outcomes;
use crate::seat_list::Seats;
use atomic_table::Seat;
use board_rule::{Home, Merge, View};
use cxx_base::OutcomeList;
use settle_core::Meaning;

impl<M: Meaning> Board<M> {
    /// The outcomes in order, once all seats are back. They are those of work in order, the seats have spent their steps, and each
    /// piece was seen settled by some seat. Else the first piece that no seat saw settled, with its word: 0, where no seat ever
    /// claimed it, or the word of a parked piece.
    pub fn close(self, seats: Seats<M>) -> Result<OutcomeList<M::Outcome>, Unsettled>
        requires seats { AreOf (λ x. M.meant x) self (seats_in seats) }
        requires all { length (seats_in seats) ≡ seat_count self }
        ensures outcomes { IfOk result (λ outcomes.
            outcomes ≡ outcomes_below (means M.Meaning self) (means M.Meaning self).pieces) }
        ensures spent { OnOk result (spent_by (seats_in seats) ≡ work (means M.Meaning self)) }
        ensures seen { OnOk result ((k : ℕ) → k < (means M.Meaning self).pieces →
            SeenBy k (seats_in seats)) }
        ensures first { IfErr result (λ unsettled.
            (unsettled.piece.0 < (means M.Meaning self).pieces)
            × ((k : ℕ) → k < unsettled.piece.0 → SeenBy k (seats_in seats))
            × ¬ SeenBy unsettled.piece.0 (seats_in seats)) }
        ensures word { IfErr result (λ unsettled.
            ((unsettled.word ≡ 0) × ¬ BegunBy unsettled.piece.0 (seats_in seats))
            ⊎ ((8 ≤ unsettled.word) × (unsettled.word < 8 + unsettled.piece.0)
            × BegunBy unsettled.piece.0 (seats_in seats))) }
        ensures stands { IfErr result (λ unsettled.
            StandsWith (λ x. M.meant x) self (seats_in seats) unsettled.piece.0 unsettled.word) }
    {
        let Seats { mut list, count: _ } = seats;
        let last = list.pop();
        let Some(last) = last else { unreachable!() };
        let BoardSeat { seat: first } = last;
        let seat = gather(&self, first, list);
        let Board {
            key: _,
            table,
            room,
        } = self;
        match take_outcomes(table.close_with(seat), room) {
            Ok(outcomes) => Ok(OutcomeList::from_vec(outcomes)),
            Err(unsettled) => Err(unsettled),
        }
    }
}

// Joins each seat of the list to `first`, which then stands for all of them.
fn gather<M: Meaning>(
    board: &Board<M>,
    mut first: Seat<Home<M::Task, M::Outcome>, View<M, M::Task>>,
    mut list: Vec<BoardSeat<M>>,
) -> Seat<Home<M::Task, M::Outcome>, View<M, M::Task>>
    requires first { Gathered (means M.Meaning board.now) board.now.table.shared.table_id
        board.now.key 1 first }
    requires list { AreBack (λ x. M.meant x) board.now list.items }
    ensures at { Gathered (means M.Meaning board.now) board.now.table.shared.table_id
        board.now.key (1 + length list.items) result }
    ensures spent { result.me.0.spent ≡ first.me.0.spent + spent_by list.items }
    ensures seen { (k : ℕ) →
        IsAmong k result.me.0.seen ↔ (IsAmong k first.me.0.seen ⊎ SeenBy k list.items) }
    ensures begun { (k : ℕ) →
        IsAmong k result.me.0.begun ↔ (IsAmong k first.me.0.begun ⊎ BegunBy k list.items) }
{
    while let Some(other) = list.pop() {
        let BoardSeat { seat } = other;
        board.table.shared.join_seat::<Merge>(&mut first, seat);
    }
    first
}
