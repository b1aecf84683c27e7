//! What a piece does next.

use cxx_base::PieceNo;

/// What a piece that has taken some outcomes does next: it reads a piece before it that it has not taken, or it ends with its
/// outcome.
#[derive(Debug, Drop)]
pub enum NextOf<O> {
    Read(PieceNo),
    Ends(O),
}
