//! Looks at pieces, and claims.

ghost use Rattle.std.specs.Prelude.{◌≡◌, ◌≢◌, ◌⊎◌, ◌+◌, ◌-◌, ◌<◌, ◌≤◌, MatchResult, true, false};
ghost use Rattle.board_rule.specs.Maps.{IsAmong};
ghost use Rattle.board_rule.specs.Standing.{next_read};
ghost use Rattle.board_rule.specs.Views.{task_hold, after_look, after_start, after_claim, Knows};
ghost use Rattle.board_rule.specs.Plays.{IsWordOf, CanPark};
ghost use Rattle.board_rule.specs.declared.view.Entry.TheVariants.{Looks, ClaimsFresh, ClaimsParked};
ghost use Rattle.settle_board.specs.Boards.{IsOf, means, view_of};
ghost use Rattle.settle_board.specs.Answers.{ClaimSays};

use crate::answers::Claim;
use crate::board::{Board, BoardSeat};
use board_rule::{ClaimFresh, ClaimParked, Home, Look, PutSlotBack};
use cxx_base::PieceNo;
use settle_core::Meaning;

impl<M: Meaning> Board<M> {
    /// The word of a piece. One that the seat knows to be settled has 3 or 4.
    pub fn look(&self, seat: &mut BoardSeat<M>, k: PieceNo) -> u64
        requires of { IsOf M.Meaning self.now seat.old }
        requires piece { k.0 < (means M.Meaning self.now).pieces }
        ensures of { IsOf M.Meaning self.now seat.new }
        ensures view { view_of seat.new
            ≡ after_look (Looks k.0 result) k.0 result (view_of seat.old) }
        ensures word { IsWordOf k.0 result }
        ensures known { Knows (means M.Meaning self.now) k.0 (view_of seat.old) →
            (result ≡ 3) ⊎ (result ≡ 4) }
    {
        self.table.shared.load::<Look>(&mut seat.seat, k.0 as usize)
    }

    /// Takes a piece that is fresh, or that is parked on a settled one. The answer has its cause, and tells the view.
    pub fn claim(&self, seat: &mut BoardSeat<M>, k: PieceNo) -> Claim<M>
        requires of { IsOf M.Meaning self.now seat.old }
        requires piece { k.0 < (means M.Meaning self.now).pieces }
        ensures of { IsOf M.Meaning self.now seat.new }
        ensures answer { ClaimSays (means M.Meaning self.now) k.0 (view_of seat.old) result
            (view_of seat.new) }
    {
        let word = self.look(seat, k);
        if word == 0 {
            let found = self.claim_fresh(seat, k);
            if found == 0 {
                Claim::Start
            } else {
                Claim::NotNow(found)
            }
        } else if word < 8 {
            Claim::NotNow(word)
        } else {
            let on = PieceNo((word - 8) as u32);
            let found = self.look(seat, on);
            if found != 3 && found != 4 {
                return Claim::StillParked { on, word: found };
            }
            match self.resume(seat, k, word) {
                Ok(task) => Claim::Resume(task),
                Err(other) => Claim::NotNow(other),
            }
        }
    }

    fn claim_fresh(&self, seat: &mut BoardSeat<M>, k: PieceNo) -> u64
        requires of { IsOf M.Meaning self.now seat.old }
        requires piece { k.0 < (means M.Meaning self.now).pieces }
        ensures of { IsOf M.Meaning self.now seat.new }
        ensures won { result ≡ 0 → view_of seat.new ≡ after_start k.0 (view_of seat.old) }
        ensures word { IsWordOf k.0 result }
        ensures lost { result ≢ 0 →
            view_of seat.new ≡ after_look (ClaimsFresh k.0 result false) k.0 result
            (view_of seat.old) }
    {
        self.table
            .shared
            .compare_exchange::<ClaimFresh>(&mut seat.seat, k.0 as usize, 0, 1)
    }

    // Takes a piece that had the word `word`, whose task waits for a piece that was seen settled. Else the word that it has.
    fn resume(&self, seat: &mut BoardSeat<M>, k: PieceNo, word: u64) -> Result<M::Task, u64>
        requires of { IsOf M.Meaning self.now seat.old }
        requires piece { k.0 < (means M.Meaning self.now).pieces }
        requires parked { 8 ≤ word }
        requires seen { IsAmong (word - 8) (view_of seat.old).seen }
        ensures of { IsOf M.Meaning self.now seat.new }
        ensures answer { MatchResult result
            (λ t. CanPark (means M.Meaning self.now) k.0 t
            × (word ≡ 8 + next_read (means M.Meaning self.now) k.0
            ((means M.Meaning self.now).taken t))
            × (view_of seat.new ≡ after_claim (ClaimsParked k.0 word true) (task_hold k.0 t)
            (view_of seat.old)))
            (λ w. (w ≢ word) × IsWordOf k.0 w
            × (view_of seat.new ≡ after_look (ClaimsParked k.0 w false) k.0 w (view_of seat.old))) }
    {
        let shared = &self.table.shared;
        let found = shared.compare_exchange::<ClaimParked>(&mut seat.seat, k.0 as usize, word, 1);
        if found != word {
            return Err(found);
        }
        let home = shared.exchange(&mut seat.seat, k.0 as usize, Home::Empty);
        shared.load::<PutSlotBack>(&mut seat.seat, k.0 as usize);
        let Home::Task(task) = home else {
            unreachable!()
        };
        Ok(task)
    }
}
