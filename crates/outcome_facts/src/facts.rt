//! Facts.

ghost use Rattle.std.specs.Prelude.{◌≡◌};
ghost use Rattle.outcome_facts.specs.Known.{known_by, outcome_at};

use core_outcome::{Fact, Outcome};
use cxx_base::{OutcomeList, PieceNo};

/// What is known of pieces: the outcome of each that is at hand.
pub trait Facts {
    ghost use Rattle.std.specs.Prelude.{ℕ, Option};
    ghost use Rattle.core_outcome.specs.declared.outcome.OutcomeParts.{OutcomeParts};

    /// The outcome of a piece of a number, where it is known.
    ghost known: { Self → ℕ → Option OutcomeParts };

    /// The outcome of a piece, or `NotYet`, which comes only where it is not known.
    fn read(&self, j: PieceNo) -> Fact<'_>
        ensures { known_by result ≡ known self.now j.0 };
}

/// Of a list of the first outcomes, in the order of their pieces, these are known.
impl Facts for OutcomeList<Outcome> {
    ghost use Rattle.outcome_facts.specs.Known.{outcome_at};

    ghost known = { outcome_at };

    fn read(&self, j: PieceNo) -> Fact<'_> {
        match self.get(j) {
            Some(outcome) => Fact::Known(outcome),
            None => Fact::NotYet,
        }
    }
}
