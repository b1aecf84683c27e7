//! The rule.

use crate::home::Home;
use crate::view::{Key, View};
use atomic_table::TableRule;
use settle_core::Meaning;
use std::marker::PhantomData;

/// The rule of a board: between any two steps it shows one sound state, and the first seat has the share of all.
pub struct Law<M> {
    marker: PhantomData<M>,
}

impl<M: Meaning> TableRule<Home<M::Task, M::Outcome>, View<M, M::Task>, Key<M>> for Law<M> {
    ghost use Rattle.board_rule.specs.Rule.{OneState};
    ghost use Rattle.board_rule.specs.Views.{first_view};

    ghost holds = { OneState (λ x. M.meant x) };

    ghost first = { first_view };
}
