//! A chain of pieces.

ghost use Rattle.std.specs.Prelude.{◌≡◌, ◌<◌, ◌^◌};

use cxx_base::{Memory, PieceNo};
use settle_core::{Meaning, NextOf, Played, TakenList};
use std::alloc::Global;

/// So many pieces, of which each reads the two before it, and comes to their sum and one more.
#[derive(Drop)]
pub struct Chain {
    pub pieces: u32,
    ghost small: { pieces < 2 ^ 32 },
}

impl Meaning for Chain {
    ghost use Rattle.settle_samples.specs.Chained.{chain_of};
    ghost use Rattle.settle_samples.specs.ChainLaws.{chain_lawful};

    /// The number of the reads that it has taken.
    type Task = u64;

    type Outcome = u64;

    ghost meant = { λ x. chain_of x.pieces };

    ghost lawful = { λ x. chain_lawful x.pieces x.small };

    fn pieces(&self) -> u32 {
        self.pieces
    }
}

impl Played for Chain {
    ghost use Rattle.settle_samples.specs.Chained.{chain_next};
    ghost use Rattle.settle_samples.specs.ChainLaws.{chain_plays};

    ghost next_of = { λ x. chain_next };

    ghost plays = { λ x. chain_plays x.pieces };

    fn next(
        &self,
        _alloc: Global,
        k: PieceNo,
        taken: &TakenList<u64>,
    ) -> Result<NextOf<u64>, Memory> {
        if k.0 == 0 {
            return Ok(NextOf::Ends(1));
        }
        let last = PieceNo(k.0 - 1);
        let Some(a) = taken.outcome_of(last) else {
            return Ok(NextOf::Read(last));
        };
        if last.0 == 0 {
            return Ok(NextOf::Ends(a.wrapping_add(1)));
        }
        let other = PieceNo(last.0 - 1);
        Ok(match taken.outcome_of(other) {
            Some(b) => NextOf::Ends(a.wrapping_add(*b).wrapping_add(1)),
            None => NextOf::Read(other),
        })
    }

    fn copy(&self, _alloc: Global, outcome: &u64) -> Result<u64, Memory> {
        Ok(*outcome)
    }
}
