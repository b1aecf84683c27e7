//! A meaning that is computed.

ghost use Rattle.std.specs.Prelude.{◌≡◌, ◌<◌, ℕ, List, IfOk};
ghost use Rattle.settle_core.specs.Next.{NextOf, IsNext};

use crate::meaning::Meaning;
use crate::next_of::NextOf;
use crate::taken_list::TakenList;
use cxx_base::{Memory, PieceNo};
use std::alloc::Global;

/// A meaning whose next reads and outcomes are computed from what was taken.
pub trait Played: Meaning {
    ghost next_of: { Self → ℕ → List (ℕ × Self.Outcome) → NextOf Self.Outcome };

    /// What the piece `k` does next, where it has taken `taken`.
    fn next(
        &self,
        alloc: Global,
        k: PieceNo,
        taken: &TakenList<Self::Outcome>,
    ) -> Result<NextOf<Self::Outcome>, Memory>
        requires { k.0 < (Self.meant self.now).pieces }
        ensures { IfOk result (λ next. next ≡ next_of self.now k.0 taken.now) };

    /// An outcome that is equal.
    fn copy(&self, alloc: Global, outcome: &Self::Outcome) -> Result<Self::Outcome, Memory>
        ensures { IfOk result (λ copy. copy ≡ outcome.now) };

    ghost plays: { (x : Self) → IsNext (Self.meant x) (next_of x) };
}
