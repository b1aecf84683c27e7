//! States of the machine, as the answers have them.

use cxx_base::PieceNo;
use settle_core::{CoreState, PieceState};
use settle_samples::Three;

/// A piece of a state.
#[derive(Clone, Copy, Debug)]
pub enum Shown {
    /// There is no such piece.
    Nowhere,
    Fresh,
    /// The worker that holds it, how many outcomes its task has taken, and whether that was advanced.
    Held(u32, usize, bool),
    /// How many outcomes its task has taken, whether that was advanced, and the piece that it waits for.
    Parked(usize, bool, u32),
    /// Its outcome.
    Settled(u64),
}

/// A piece of a state.
pub fn look_at(state: &CoreState<Three>, k: PieceNo) -> Shown {
    match state.at(k) {
        None => Shown::Nowhere,
        Some(PieceState::Fresh) => Shown::Fresh,
        Some(
            PieceState::Held {
                worker,
                taken,
                advanced,
            },
        ) => Shown::Held(*worker, taken.len(), *advanced),
        Some(
            PieceState::Parked {
                taken,
                advanced,
                on,
            },
        ) => Shown::Parked(taken.len(), *advanced, on.0),
        Some(PieceState::Settled(outcome)) => Shown::Settled(*outcome),
    }
}

/// The three pieces of a state.
pub fn look_at_all(state: &CoreState<Three>) -> [Shown; 3] {
    [
        look_at(state, PieceNo(0)),
        look_at(state, PieceNo(1)),
        look_at(state, PieceNo(2)),
    ]
}
