//! A list of known pieces.

ghost use Rattle.std.specs.Prelude.{◌≡◌, [], ◌∷◌, ◌++◌, map, OnOk, OnErr};
ghost use Rattle.std.specs.Option.{option_copied};
ghost use Rattle.outcome_facts.specs.Known.{first_known};

use crate::facts::Facts;
use core_outcome::{Fact, Outcome};
use cxx_base::{Memory, PieceNo};
use std::alloc::Global;
use std::marker::Model;

/// Pieces with their outcomes, in any order. Contracts see the list of their numbers and outcomes. A piece is searched from the start.
pub struct KnownPieces {
    known: Vec<(PieceNo, Outcome)>,
}

impl Drop for KnownPieces {
    fn drop(self) {
        let KnownPieces { known: _ } = self;
    }
}

impl Model for KnownPieces {
    ghost use Rattle.std.specs.Prelude.{List, ℕ, map};
    ghost use Rattle.std.specs.Coded.{coded_list, coded×, coded_ℕ};
    ghost use Rattle.core_outcome.specs.declared.outcome.OutcomeParts.{OutcomeParts};
    ghost use Rattle.core_outcome.specs.contracts.outcome.OutcomeParts as held;

    ghost Value = { List (ℕ × OutcomeParts) };

    ghost coded = { coded_list (coded× coded_ℕ held.the_row.coded) };

    ghost view = { λ l. map (λ k. (k.0.0, k.1)) l.known.items };
}

impl KnownPieces {
    /// No piece is known. It takes no memory.
    pub fn new(alloc: Global) -> KnownPieces
        ensures { result ≡ [] }
    {
        KnownPieces {
            known: Vec::new(alloc),
        }
    }

    /// Puts a piece and its outcome at the end. Without memory nothing changes.
    pub fn push(&mut self, piece: PieceNo, outcome: Outcome) -> Result<(), Memory>
        ensures ok { OnOk result (self.new ≡ self.old ++ (piece.0, outcome) ∷ []) }
        ensures err { OnErr result (self.new ≡ self.old) }
    {
        self.known.push((piece, outcome))?;
        Ok(())
    }
}

impl Facts for KnownPieces {
    ghost use Rattle.outcome_facts.specs.Known.{first_known};

    ghost known = { first_known };

    fn read(&self, j: PieceNo) -> Fact<'_> {
        match outcome_among(self.known.as_slice(), j) {
            Some(outcome) => Fact::Known(outcome),
            None => Fact::NotYet,
        }
    }
}

fn outcome_among(known: &[(PieceNo, Outcome)], piece: PieceNo) -> Option<&Outcome>
    ensures { option_copied result ≡ first_known (map (λ k. (k.0.0, k.1)) known.now) piece.0 }
{
    for (of, outcome) in known {
        if *of == piece {
            return Some(outcome);
        }
    }
    None
}
