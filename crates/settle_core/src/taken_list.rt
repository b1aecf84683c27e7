//! The outcomes that a task has taken.

ghost use Rattle.std.specs.Prelude.{◌≡◌, ◌<◌, [], ◌∷◌, ◌++◌, map, length, OnOk, OnErr};
ghost use Rattle.std.specs.Option.{option_copied};
ghost use Rattle.settle_core.specs.Next.{taken_outcome};

use cxx_base::{Memory, PieceNo};
use std::alloc::Global;
use std::marker::Model;

/// The pieces that a task has taken, in the order in which it took them, each with its outcome. Contracts see the list of
/// their numbers and outcomes.
#[derive(Debug, Drop)]
pub struct TakenList<O> {
    taken: Vec<(PieceNo, O)>,
}

impl<O> Model for TakenList<O> {
    ghost use Rattle.std.specs.Prelude.{List, ℕ, map};
    ghost use Rattle.std.specs.Coded.{coded_list, coded×, coded_ℕ};

    ghost Value = { List (ℕ × O) };

    ghost coded = { coded_list (coded× coded_ℕ O.code) };

    ghost view = { λ l. map (λ t. (t.0.0, t.1)) l.taken.items };
}

impl<O> TakenList<O> {
    /// The empty list. It takes no memory.
    pub fn new(alloc: Global) -> TakenList<O>
        ensures { result ≡ [] }
    {
        TakenList {
            taken: Vec::new(alloc),
        }
    }

    /// Puts a piece and its outcome at the end. Without memory nothing changes.
    pub fn push(&mut self, piece: PieceNo, outcome: O) -> Result<(), Memory>
    where
        O: Drop,
        ensures ok { OnOk result (self.new ≡ self.old ++ (piece.0, outcome) ∷ []) }
        ensures err { OnErr result (self.new ≡ self.old) }
    {
        self.taken.push((piece, outcome))?;
        Ok(())
    }

    /// How many pieces were taken.
    pub fn len(&self) -> usize
        ensures { result ≡ length self.now }
    {
        self.taken.len()
    }

    /// The outcome of a piece, where it was taken. The list is searched from its start.
    pub fn outcome_of(&self, piece: PieceNo) -> Option<&O>
        ensures { option_copied result ≡ taken_outcome self.now piece.0 }
    {
        outcome_among(self.taken.as_slice(), piece)
    }
}

fn outcome_among<O>(taken: &[(PieceNo, O)], piece: PieceNo) -> Option<&O>
    ensures { option_copied result ≡ taken_outcome (map (λ t. (t.0.0, t.1)) taken.now) piece.0 }
{
    for (of, outcome) in taken {
        if *of == piece {
            return Some(outcome);
        }
    }
    None
}
