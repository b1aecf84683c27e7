//! Pieces without reads.

ghost use Rattle.std.specs.Prelude.{◌≡◌, ◌<◌, ◌^◌};

use cxx_base::{Memory, PieceNo};
use settle_core::{Meaning, NextOf, Played, TakenList};
use std::alloc::Global;

/// So many pieces, of which each reads nothing and comes to its number, in one step.
#[derive(Drop)]
pub struct Readless {
    pub pieces: u32,
    ghost small: { pieces < 2 ^ 32 },
}

impl Meaning for Readless {
    ghost use Rattle.settle_samples.specs.Readless.{pieces_without_reads, lawful_without_reads};

    type Task = u64;

    type Outcome = u64;

    ghost meant = { λ x. pieces_without_reads x.pieces };

    ghost lawful = { λ x. lawful_without_reads x.pieces x.small };

    fn pieces(&self) -> u32 {
        self.pieces
    }
}

impl Played for Readless {
    ghost use Rattle.settle_samples.specs.Readless.{readless_next, readless_plays};

    ghost next_of = { λ _. readless_next };

    ghost plays = { λ x. readless_plays x.pieces };

    fn next(
        &self,
        _alloc: Global,
        k: PieceNo,
        _taken: &TakenList<u64>,
    ) -> Result<NextOf<u64>, Memory> {
        Ok(NextOf::Ends(k.0 as u64))
    }

    fn copy(&self, _alloc: Global, outcome: &u64) -> Result<u64, Memory> {
        Ok(*outcome)
    }
}
