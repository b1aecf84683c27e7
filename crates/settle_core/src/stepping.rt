//! One step, and a list of steps.

ghost use Rattle.std.specs.Prelude.{◌≡◌, length, IfOk, IfSome, OnSome};
ghost use Rattle.settle_core.specs.Steps.{stepped, replayed};
ghost use Rattle.settle_core.specs.State.{all_fresh};
ghost use Rattle.settle_core.specs.Sound.{Sound, SettlesFold, EarliestGoesOn};
ghost use Rattle.settle_core.specs.Bound.{IsWithinBound};

use crate::core_state::CoreState;
use crate::core_step::CoreStep;
use crate::piece_moves::moved;
use crate::played::Played;
use cxx_base::Memory;
use std::alloc::Global;

/// The state that a step makes of the one handed in, or None exactly where the step's condition fails. At None and without
/// memory the state is gone.
pub fn step<M: Played>(
    alloc: Global,
    meaning: &M,
    mut state: CoreState<M>,
    next: CoreStep,
) -> Result<Option<CoreState<M>>, Memory>
    requires { length state ≡ (M.meant meaning.now).pieces }
    ensures exact { IfOk result (λ after. after ≡ stepped (M.next_of meaning.now) state next) }
    ensures whole { IfOk result (λ after.
        IfSome after (λ s. length s ≡ (M.meant meaning.now).pieces)) }
    ensures sound { IfOk result (λ after.
        IfSome after (λ s. Sound (M.meant meaning.now) state → Sound (M.meant meaning.now) s)) }
{
    let Some(piece) = state.take(next.piece()) else {
        return Ok(None);
    };
    match moved(alloc, meaning, &state, next, piece)? {
        Some(piece) => {
            state.put(next.piece(), piece);
            Ok(Some(state))
        }
        None => Ok(None),
    }
}

/// The state after a list of steps, from the one in which every piece is fresh. None exactly where the condition of one of
/// them fails.
pub fn replay<M: Played>(
    alloc: Global,
    meaning: &M,
    steps: &[CoreStep],
) -> Result<Option<CoreState<M>>, Memory>
    ensures exact { IfOk result (λ after.
        after ≡ replayed (M.next_of meaning.now) (all_fresh (M.meant meaning.now).pieces)
        steps.now) }
    ensures sound { IfOk result (λ after. IfSome after (Sound (M.meant meaning.now))) }
    ensures fold { IfOk result (λ after. IfSome after (SettlesFold (M.meant meaning.now))) }
    ensures earliest { IfOk result (λ after. IfSome after EarliestGoesOn) }
    ensures bound { IfOk result (λ after.
        OnSome after (IsWithinBound (M.meant meaning.now) (M.next_of meaning.now) steps.now)) }
{
    let mut state = CoreState::fresh(alloc, meaning)?;
    for next in steps {
        let Some(after) = step(alloc, meaning, state, *next)? else {
            return Ok(None);
        };
        state = after;
    }
    Ok(Some(state))
}
