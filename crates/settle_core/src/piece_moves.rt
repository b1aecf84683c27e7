//! What each step makes of the piece that it names.

ghost use Rattle.std.specs.Prelude.{◌≡◌, ◌<◌, ℕ, List, IfOk};
ghost use Rattle.settle_core.specs.Next.{NextOf};
ghost use Rattle.settle_core.specs.State.{PieceState, Claim, Advance, Park, Resume, Settle};
ghost use Rattle.settle_core.specs.Steps.{named, made};

use crate::core_state::CoreState;
use crate::core_step::CoreStep;
use crate::meaning::Meaning;
use crate::next_of::NextOf;
use crate::piece_state::PieceState;
use crate::played::Played;
use crate::taken_list::TakenList;
use cxx_base::{Memory, PieceNo};
use std::alloc::Global;

/// What a step makes of the piece that it names, which was taken out of the state. None where the step's condition fails.
pub(crate) fn moved<M: Played>(
    alloc: Global,
    meaning: &M,
    state: &CoreState<M>,
    next: CoreStep,
    piece: PieceState<M::Outcome>,
) -> Result<Option<PieceState<M::Outcome>>, Memory>
    requires { named next < (M.meant meaning.now).pieces }
    ensures { IfOk result (λ after. after ≡ made (M.next_of meaning.now) state.now next piece) }
{
    match next {
        CoreStep::Claim(_, worker) => Ok(claim(alloc, worker, piece)),
        CoreStep::Advance(k) => advance(alloc, meaning, state, k, piece),
        CoreStep::Park(k, on) => park(alloc, meaning, k, on, piece),
        CoreStep::Resume(_, worker) => Ok(resume(state, worker, piece)),
        CoreStep::Settle(k) => settle(alloc, meaning, k, piece),
    }
}

fn claim<O: Drop>(alloc: Global, worker: u32, piece: PieceState<O>) -> Option<PieceState<O>>
    ensures { (next : ℕ → List (ℕ × O) → NextOf O) (s : List (PieceState O)) (k : _) →
        result ≡ made next s (Claim k worker) piece }
{
    let PieceState::Fresh = piece else {
        return None;
    };
    Some(PieceState::Held {
        worker,
        taken: TakenList::new(alloc),
        advanced: false,
    })
}

fn advance<M: Played>(
    alloc: Global,
    meaning: &M,
    state: &CoreState<M>,
    k: PieceNo,
    piece: PieceState<M::Outcome>,
) -> Result<Option<PieceState<M::Outcome>>, Memory>
    requires { k.0 < (M.meant meaning.now).pieces }
    ensures { IfOk result (λ after.
        after ≡ made (M.next_of meaning.now) state.now (Advance k) piece) }
{
    let PieceState::Held {
        worker,
        mut taken,
        advanced,
    } = piece
    else {
        return Ok(None);
    };
    match meaning.next(alloc, k, &taken)? {
        NextOf::Read(j) => {
            let Some(outcome) = state.outcome(j) else {
                return Ok(None);
            };
            taken.push(j, meaning.copy(alloc, outcome)?)?;
        }
        NextOf::Ends(_) => {
            if advanced {
                return Ok(None);
            }
        }
    }
    Ok(Some(PieceState::Held {
        worker,
        taken,
        advanced: true,
    }))
}

fn park<M: Played>(
    alloc: Global,
    meaning: &M,
    k: PieceNo,
    on: PieceNo,
    piece: PieceState<M::Outcome>,
) -> Result<Option<PieceState<M::Outcome>>, Memory>
    requires { k.0 < (M.meant meaning.now).pieces }
    ensures { IfOk result (λ after. (s : List (PieceState M.Outcome)) →
        after ≡ made (M.next_of meaning.now) s (Park k on) piece) }
{
    let PieceState::Held {
        taken,
        advanced,
        ..
    } = piece
    else {
        return Ok(None);
    };
    Ok(match meaning.next(alloc, k, &taken)? {
        NextOf::Read(j) if j == on => Some(PieceState::Parked {
            taken,
            advanced,
            on,
        }),
        _ => None,
    })
}

fn resume<M: Meaning>(
    state: &CoreState<M>,
    worker: u32,
    piece: PieceState<M::Outcome>,
) -> Option<PieceState<M::Outcome>>
    ensures { (next : ℕ → List (ℕ × M.Outcome) → NextOf M.Outcome) (k : _) →
        result ≡ made next state.now (Resume k worker) piece }
{
    let PieceState::Parked {
        taken,
        advanced,
        on,
    } = piece
    else {
        return None;
    };
    state.outcome(on)?;
    Some(PieceState::Held {
        worker,
        taken,
        advanced,
    })
}

fn settle<M: Played>(
    alloc: Global,
    meaning: &M,
    k: PieceNo,
    piece: PieceState<M::Outcome>,
) -> Result<Option<PieceState<M::Outcome>>, Memory>
    requires { k.0 < (M.meant meaning.now).pieces }
    ensures { IfOk result (λ after. (s : List (PieceState M.Outcome)) →
        after ≡ made (M.next_of meaning.now) s (Settle k) piece) }
{
    let PieceState::Held {
        taken,
        advanced,
        ..
    } = piece
    else {
        return Ok(None);
    };
    let next = meaning.next(alloc, k, &taken)?;
    Ok(match next {
        NextOf::Ends(outcome) if advanced => Some(PieceState::Settled(outcome)),
        _ => None,
    })
}
