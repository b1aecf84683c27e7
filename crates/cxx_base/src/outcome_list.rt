//! A list of outcomes.

ghost use Rattle.std.specs.Prelude.{◌≡◌, length, slice_get};
ghost use Rattle.std.specs.Option.{option_copied};

use crate::number::PieceNo;
use std::marker::Model;

/// Outcomes in the order of their pieces. Contracts see the list of them.
#[derive(Debug)]
pub struct OutcomeList<O> {
    outcomes: Vec<O>,
}

impl<O: Drop> Drop for OutcomeList<O> {
    fn drop(self) {
        let OutcomeList { outcomes: _ } = self;
    }
}

impl<O> Model for OutcomeList<O> {
    ghost use Rattle.std.specs.Prelude.{List};
    ghost use Rattle.std.specs.Coded.{coded_list};

    ghost Value = { List O };

    ghost coded = { coded_list O.code };

    ghost view = { λ l. l.outcomes.items };
}

impl<O> OutcomeList<O> {
    /// The outcomes of a `Vec`, without a copy.
    pub fn from_vec(outcomes: Vec<O>) -> OutcomeList<O>
        ensures { result ≡ outcomes.items }
    {
        OutcomeList { outcomes }
    }

    /// The outcome of a piece. None where there is no such piece.
    pub fn get(&self, k: PieceNo) -> Option<&O>
        ensures { option_copied result ≡ slice_get self.now k.0 }
    {
        self.outcomes.get(k.0 as usize)
    }

    /// All outcomes, in the order of their pieces.
    pub fn as_slice(&self) -> &[O]
        ensures { result.now ≡ self.now }
    {
        self.outcomes.as_slice()
    }

    /// How many outcomes there are.
    pub fn len(&self) -> usize
        ensures { result ≡ length self.now }
    {
        self.outcomes.len()
    }
}
