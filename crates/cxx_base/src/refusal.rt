//! Refusals.

ghost use Rattle.std.specs.Prelude.{◌≡◌};
ghost use Rattle.cxx_base.specs.Refusals as spec;

use crate::cause;
use crate::code::Code;
use crate::note::Notes;
use crate::number::PieceNo;
use crate::place::Place;

/// A refusal with its places. It is made by its three makers alone, so that what it is has a name in each definition.
#[derive(Clone, Copy, Debug, PartialEq, Eq, Hash)]
pub struct Refusal {
    pub code: Code,
    /// For `R1` the number of the piece that is refused. For `V1` and `V14` the cause, by its constant in
    /// [`cause`](crate::cause). Else [`cause::ONE`](crate::cause::ONE).
    pub detail: u64,
    /// Where the report says that it is.
    pub place: Place,
    /// The refused tree, where the refusal was met inside an evaluation.
    pub inner: Option<Place>,
    /// The calls that were active there. None, where it was met in no evaluation.
    pub notes: Notes,
}

impl Refusal {
    /// A refusal that is met in no evaluation, of a source as a whole or of a piece, for a cause that has no detail.
    pub fn whole(code: Code, place: Place) -> Refusal
        ensures { result ≡ spec.whole code place }
    {
        Refusal {
            code,
            detail: cause::ONE,
            place,
            inner: None,
            notes: Notes::NONE,
        }
    }

    /// The refusal of what reads a refused piece, in no evaluation.
    pub fn of_read(piece: PieceNo, place: Place) -> Refusal
        ensures { result ≡ spec.of_read piece place }
    {
        Refusal {
            code: Code::R1,
            detail: u64::from(piece.0),
            place,
            inner: None,
            notes: Notes::NONE,
        }
    }

    /// A refusal that is met in an evaluation: its place is that of the root's first token, and `inner` that of the
    /// refusing tree's. The calls are those that were active there.
    pub fn met(code: Code, detail: u64, place: Place, inner: Place, notes: Notes) -> Refusal
        ensures { result ≡ spec.met code detail place inner notes }
    {
        Refusal {
            code,
            detail,
            place,
            inner: Some(inner),
            notes,
        }
    }
}
