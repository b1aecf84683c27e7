//! A meaning that is borrowed.

ghost use Rattle.std.specs.Prelude.{◌≡◌};

use cxx_base::{Memory, PieceNo};
use settle_core::{Meaning, NextOf, Played, TakenList};
use std::alloc::Global;

/// A meaning behind a reference, which is what it refers to.
#[derive(Drop)]
pub struct Behind<'a, M> {
    pub meaning: &'a M,
}

impl<'a, M: Meaning> Meaning for Behind<'a, M> {
    type Task = M::Task;

    type Outcome = M::Outcome;

    ghost meant = { λ x. M.meant x.meaning.now };

    ghost lawful = { λ x. M.lawful x.meaning.now };

    fn pieces(&self) -> u32 {
        self.meaning.pieces()
    }
}

impl<'a, M: Played> Played for Behind<'a, M> {
    ghost next_of = { λ x. M.next_of x.meaning.now };

    ghost plays = { λ x. M.plays x.meaning.now };

    fn next(
        &self,
        alloc: Global,
        k: PieceNo,
        taken: &TakenList<M::Outcome>,
    ) -> Result<NextOf<M::Outcome>, Memory> {
        self.meaning.next(alloc, k, taken)
    }

    fn copy(&self, alloc: Global, outcome: &M::Outcome) -> Result<M::Outcome, Memory> {
        self.meaning.copy(alloc, outcome)
    }
}
