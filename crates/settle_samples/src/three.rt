//! Three pieces.

ghost use Rattle.std.specs.Prelude.{◌≡◌};
ghost use Rattle.settle_samples.specs.ThreePieces.{goes_further};

use cxx_base::{Memory, PieceNo};
use settle_core::{Meaning, NextOf, Played, TakenList};
use std::alloc::Global;

/// Three pieces. Piece 0 comes to `first`, and piece 1 reads it and comes to ten more. Piece 2 reads piece 0, and then piece 1 where
/// the outcome of piece 0 is odd; it comes to ten more than what it read last.
#[derive(Drop)]
pub struct Three {
    pub first: u64,
}

impl Meaning for Three {
    ghost use Rattle.settle_samples.specs.ThreePieces.{three_pieces};
    ghost use Rattle.settle_samples.specs.ThreeLaws.{three_lawful};

    /// The number of its steps.
    type Task = u64;

    type Outcome = u64;

    ghost meant = { λ x. three_pieces x.first };

    ghost lawful = { λ x. three_lawful x.first };

    fn pieces(&self) -> u32 {
        3
    }
}

impl Played for Three {
    ghost use Rattle.settle_samples.specs.ThreePieces.{three_next};
    ghost use Rattle.settle_samples.specs.ThreeLaws.{three_plays};

    ghost next_of = { λ x. three_next x.first };

    ghost plays = { λ x. three_plays x.first };

    fn next(
        &self,
        _alloc: Global,
        k: PieceNo,
        taken: &TakenList<u64>,
    ) -> Result<NextOf<u64>, Memory> {
        if k.0 == 0 {
            return Ok(NextOf::Ends(self.first));
        }
        let Some(first) = taken.outcome_of(PieceNo(0)) else {
            return Ok(NextOf::Read(PieceNo(0)));
        };
        if !names_second(k, *first) {
            return Ok(NextOf::Ends(first.wrapping_add(10)));
        }
        Ok(match taken.outcome_of(PieceNo(1)) {
            Some(second) => NextOf::Ends(second.wrapping_add(10)),
            None => NextOf::Read(PieceNo(1)),
        })
    }

    fn copy(&self, _alloc: Global, outcome: &u64) -> Result<u64, Memory> {
        Ok(*outcome)
    }
}

// Whether the piece reads piece 1 after this outcome of piece 0.
fn names_second(k: PieceNo, first: u64) -> bool
    ensures { result ≡ goes_further k.0 first }
{
    k.0 == 2 && first % 2 == 1
}
