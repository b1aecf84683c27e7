//! The state of one piece.

use crate::taken_list::TakenList;
use cxx_base::PieceNo;

/// Where a piece is. A task of it is what it has taken, and whether it was advanced.
#[derive(Debug, Drop)]
pub enum PieceState<O> {
    /// It was never claimed.
    Fresh,
    /// A worker holds it with its task.
    Held {
        worker: u32,
        taken: TakenList<O>,
        advanced: bool,
    },
    /// Its task is parked on another piece.
    Parked {
        taken: TakenList<O>,
        advanced: bool,
        on: PieceNo,
    },
    /// It has its outcome.
    Settled(O),
}
