//! Hands that settle the pieces of a meaning together.

ghost use Rattle.std.specs.Prelude.{◌≡◌, ◌≤◌, ◌<◌, [], length, IfOk, IfSome};
ghost use Rattle.settle_board.specs.Boards.{meaning_of};
ghost use Rattle.settle_board.specs.Seating.{AreNew, AreOf, seats_in, room_of, seat_count};
ghost use Rattle.board_callers.specs.Ends.{AreReady, HasEnded, HaveEnded, IsReady};
ghost use Rattle.board_callers.specs.Ending.{EndingSays};

use crate::hand::{Hand, HandEnd, Plan};
use crate::round::run;
use crate::tasked::Tasked;
use cxx_base::{Memory, OutcomeList};
use settle_board::{Board, Seats, Unsettled};
use settle_core::Meaning;
use settle_samples::Behind;
use std::alloc::Global;
use std::sync::Wait;
use std::thread::{Threads, for_each_mut};

/// What a board came to, once all hands were back.
#[derive(Drop)]
pub enum Ending<O> {
    /// The outcomes of work in order.
    Settled(OutcomeList<O>),
    /// The first piece that no hand saw settled.
    Left(Unsettled),
}

/// Settles the pieces by as many hands as there are plans, each in a thread of its own, on a board that has the meaning behind a
/// reference. Whatever the hands do, the outcomes are those of work in order.
pub fn settle_all<R: Threads + Wait + Sync, M: Tasked + Sync>(
    rt: &R,
    alloc: Global,
    meaning: &M,
    plans: &[Plan],
) -> Result<Ending<M::Outcome>, Memory>
where
    M::Task: Send,
    M::Outcome: Send + Sync,
    requires hands { (1 ≤ length plans.now) × (length plans.now ≤ 32) }
    ensures { IfOk result (EndingSays (M.meant meaning.now)) }
{
    let (board, seats) = Board::new(alloc, Behind { meaning }, plans.len() as u32)?;
    let (seats, mut hands) = hand_out(alloc, &board, seats, plans)?;
    let behind = Behind { meaning };
    work_all(rt, alloc, &board, &behind, hands.as_mut_slice());
    let Some(seats) = take_back(&board, seats, hands) else {
        return Err(Memory);
    };
    Ok(match board.close(seats) {
        Ok(outcomes) => Ending::Settled(outcomes),
        Err(left) => Ending::Left(left),
    })
}

// Each hand works in a thread of its own.
fn work_all<R: Threads + Wait + Sync, M: Tasked + Sync>(
    rt: &R,
    alloc: Global,
    board: &Board<M>,
    meaning: &M,
    hands: &mut [Hand<M>],
)
where
    M::Task: Send,
    M::Outcome: Send + Sync,
    requires meaning { meaning.now ≡ meaning_of board.now }
    requires some_hand { 1 ≤ length hands.old }
    requires ready { AreReady (λ x. M.meant x) board.now hands.old }
    ensures ended { HaveEnded (λ x. M.meant x) board.now hands.new }
    ensures count { length hands.new ≡ length hands.old }
{
    let count = hands.len();
    let at_work = move |_: usize, hand: &mut Hand<M>|
        requires { (meaning.now ≡ meaning_of board.now)
            × IsReady (λ x. M.meant x) board.now hand.old }
        ensures { HasEnded (λ x. M.meant x) board.entry.now hand.new }
    {
        run(rt, alloc, board, meaning, hand);
    };
    for_each_mut(rt, hands, count, &at_work);
}

// A hand for each plan, with a seat.
fn hand_out<M: Meaning>(
    alloc: Global,
    board: &Board<M>,
    mut seats: Seats<M>,
    plans: &[Plan],
) -> Result<(Seats<M>, Vec<Hand<M>>), Memory>
    requires new { AreNew (λ x. M.meant x) board.now (seats_in seats) }
    requires all { (length (seats_in seats) ≡ length plans.now)
        × (room_of seats ≡ length plans.now) }
    ensures seats { IfOk result (λ r. (seats_in r.0 ≡ []) × (room_of r.0 ≡ length plans.now)) }
    ensures hands { IfOk result (λ r. AreReady (λ x. M.meant x) board.now r.1.items
        × (length r.1.items ≡ length plans.now)) }
{
    let mut hands = Vec::new(alloc);
    while let Some(seat) = seats.take() {
        let plan = plans[hands.len()];
        hands.push(Hand {
            seat,
            plan,
            end: HandEnd::Stopped,
        })?;
    }
    Ok((seats, hands))
}

// All seats, once their hands have ended. None where one of them may still hold a piece.
fn take_back<M: Meaning>(
    board: &Board<M>,
    mut seats: Seats<M>,
    mut hands: Vec<Hand<M>>,
) -> Option<Seats<M>>
    requires seats { (seats_in seats ≡ []) × (room_of seats ≡ length hands.items) }
    requires ended { HaveEnded (λ x. M.meant x) board.now hands.items }
    ensures of { IfSome result (λ r. AreOf (λ x. M.meant x) board.now (seats_in r)) }
    ensures all { IfSome result (λ r. length (seats_in r) ≡ length hands.items) }
{
    while let Some(hand) = hands.pop() {
        if hand.end == HandEnd::NoMemory {
            return None;
        }
        seats.give(hand.seat);
    }
    Some(seats)
}
