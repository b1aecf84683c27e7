//! Laws over all lists of steps. Each function does nothing, and a call of it gives its caller the law.

ghost use Rattle.std.specs.Prelude.{◌≡◌, ℕ, List, IsSome};
ghost use Rattle.settle_core.specs.Bound.{IsWithinBound};
ghost use Rattle.settle_core.specs.Next.{NextOf, IsNext, next_by_reads};
ghost use Rattle.settle_core.specs.Sound.{Sound, SettlesFold, EarliestGoesOn};
ghost use Rattle.settle_core.specs.State.{CoreStep, PieceState, all_fresh};
ghost use Rattle.settle_core.specs.Steps.{replayed, IsReached};

use crate::meaning::Meaning;

/// Whatever a meaning's pieces do next by what it says of them, and whatever steps are made in whatever order, each state that is
/// reached is sound. So each settled piece has its outcome in the fold, and the earliest unsettled piece is never parked on an
/// unsettled one. And a list of steps has no more of them than 3 for each piece, 3 for each read, and 2 for each Park on a piece
/// that was settled.
pub fn every_order_is_sound<M: Meaning>(meaning: &M)
    ensures sound { (next : ℕ → List (ℕ × M.Outcome) → NextOf M.Outcome)
        (s : List (PieceState M.Outcome)) →
        IsNext (M.meant meaning.now) next → IsReached next (M.meant meaning.now).pieces s →
        Sound (M.meant meaning.now) s }
    ensures fold { (next : ℕ → List (ℕ × M.Outcome) → NextOf M.Outcome)
        (s : List (PieceState M.Outcome)) →
        IsNext (M.meant meaning.now) next → IsReached next (M.meant meaning.now).pieces s →
        SettlesFold (M.meant meaning.now) s }
    ensures earliest { (next : ℕ → List (ℕ × M.Outcome) → NextOf M.Outcome)
        (s : List (PieceState M.Outcome)) →
        IsNext (M.meant meaning.now) next → IsReached next (M.meant meaning.now).pieces s →
        EarliestGoesOn s }
    ensures bound { (next : ℕ → List (ℕ × M.Outcome) → NextOf M.Outcome) (steps : List CoreStep) →
        IsNext (M.meant meaning.now) next →
        IsSome (replayed next (all_fresh (M.meant meaning.now).pieces) steps) →
        IsWithinBound (M.meant meaning.now) next steps }
{}

/// A meaning says what its pieces do next, whether that is computed or not: each reads the first of its reads that it has not
/// taken, or ends with its outcome.
pub fn reads_say_what_is_next<M: Meaning>(meaning: &M)
    ensures { IsNext (M.meant meaning.now) (next_by_reads (M.meant meaning.now)) }
{}
