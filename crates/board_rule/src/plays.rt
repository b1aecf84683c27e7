//! What each step on the table tells the seat that makes it.

ghost use Rattle.board_rule.specs.Plays.{look_tells, stop_look_tells, stop_tells, start_tells, take_slot_tells, put_slot_back_tells, give_back_tells, settle_tells, park_tells, resume_tells, lend_tells};
ghost use Rattle.board_rule.specs.Views.{with_less, newcomer, joined, gone};

use crate::home::Home;
use crate::view::View;
use atomic_table::{Join, Play, Split};
use settle_core::Meaning;

/// A load of the word of a piece.
pub struct Look;

impl<M: Meaning> Play<Home<M::Task, M::Outcome>, View<M, M::Task>> for Look {
    ghost then = { look_tells (λ x. M.meant x) };
}

/// A load of the stop word.
pub struct LookAtStop;

impl<T, O, X> Play<Home<T, O>, View<X, T>> for LookAtStop {
    ghost then = { stop_look_tells };
}

/// The store that sets the stop word.
pub struct Stop;

impl<T, O, X> Play<Home<T, O>, View<X, T>> for Stop {
    ghost then = { stop_tells };
}

/// An exchange of 0 for 1.
pub struct ClaimFresh;

impl<T, O, X> Play<Home<T, O>, View<X, T>> for ClaimFresh {
    ghost then = { start_tells };
}

/// An exchange of the word of a parked piece for 1. The slot comes to hand with the task.
pub struct ClaimParked;

impl<M: Meaning> Play<Home<M::Task, M::Outcome>, View<M, M::Task>> for ClaimParked {
    ghost then = { resume_tells (λ x. M.meant x) };
}

/// A load by which a seat takes the empty slot of a piece that it has.
pub struct TakeSlot;

impl<T, O, X> Play<Home<T, O>, View<X, T>> for TakeSlot {
    ghost then = { take_slot_tells };
}

/// A load by which a seat leaves the emptied slot of a piece that it has.
pub struct PutSlotBack;

impl<T, O, X> Play<Home<T, O>, View<X, T>> for PutSlotBack {
    ghost then = { put_slot_back_tells };
}

/// The store of 3 that settles a piece.
pub struct Settle;

impl<M: Meaning> Play<Home<M::Task, M::Outcome>, View<M, M::Task>> for Settle {
    ghost then = { settle_tells (λ x. M.meant x) };
}

/// The store of 8 and the piece that is waited for.
pub struct Park;

impl<M: Meaning> Play<Home<M::Task, M::Outcome>, View<M, M::Task>> for Park {
    ghost then = { park_tells (λ x. M.meant x) };
}

/// An exchange of 3 for 4. The slot comes to hand with the outcome.
pub struct LendStep;

impl<M: Meaning> Play<Home<M::Task, M::Outcome>, View<M, M::Task>> for LendStep {
    ghost then = { lend_tells (λ x. M.meant x) };
}

/// The store of 3 that gives an outcome back.
pub struct GiveBack;

impl<T, O, X> Play<Home<T, O>, View<X, T>> for GiveBack {
    ghost then = { give_back_tells };
}

/// One seat is cut off from the share of another.
pub struct Cut;

impl<X, T> Split<View<X, T>> for Cut {
    ghost left = { with_less };

    ghost right = { newcomer };
}

/// A seat takes over what another has.
pub struct Merge;

impl<X, T> Join<View<X, T>> for Merge {
    ghost both = { joined };

    ghost spent = { gone };
}
