//! What lookups answer.

use cxx_base::{EntityNo, PieceNo, Refusal};

/// What a name finds.
#[derive(Clone, Copy, Debug, PartialEq, Eq)]
pub enum FindStep {
    /// A declared entity.
    Found(EntityNo),
    /// A member of a class that a block completed, by its place among those that were described.
    Member { class: EntityNo, index: u32 },
    /// `N1`, `N3`, `N4` or `N5`, or `R1` where a piece that is read is refused, at the name.
    Refused(Refusal),
    /// The next piece that is read is not known.
    Needs(PieceNo),
}

/// How a class stands at a point.
#[derive(Clone, Copy, Debug, PartialEq, Eq)]
pub enum ClassStep {
    /// Complete by its text, whose closing is this piece.
    Text(PieceNo),
    /// Complete by this block.
    Injected(PieceNo),
    Incomplete,
    /// This piece is refused, the closing of its text.
    Refused(PieceNo),
    /// The next piece that is read is not known.
    Needs(PieceNo),
}

/// Whether a member or a base is accessible.
#[derive(Clone, Copy, Debug, PartialEq, Eq)]
pub enum AccessStep {
    Yes,
    No,
    /// This piece, which is read for it, is refused.
    Refused(PieceNo),
    /// The next piece that is read is not known.
    Needs(PieceNo),
}
