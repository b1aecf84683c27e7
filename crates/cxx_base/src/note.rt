//! Notes: the calls that were active where a refusal was met.

ghost use Rattle.std.specs.Prelude.{◌≡◌, ◌+◌, ◌<◌, ◌^◌, List, [], ◌∷◌, ◌++◌};
ghost use Rattle.cxx_base.specs.Refusals as spec;

use crate::number::EntityNo;
use crate::place::Place;

/// How many of the active calls a refusal shows.
pub const SHOWN_CALLS: usize = 8;

/// An active call: what is called, and the place of the call.
#[derive(Clone, Copy, Debug, PartialEq, Eq, Hash)]
pub struct Note {
    pub function: EntityNo,
    pub place: Place,
}

impl Note {
    /// What stands where no call is shown: the entity 0 at 0:0, which is no place of a text.
    pub const NONE: Note = Note {
        function: EntityNo(0),
        place: Place { line: 0, column: 0 },
    };
}

/// The calls that were active where a refusal was met in an evaluation.
#[derive(Clone, Copy, Debug, PartialEq, Eq, Hash)]
pub struct Notes {
    /// How many calls were active.
    pub count: u32,
    /// The innermost of them, innermost first, and `Note::NONE` behind the outermost.
    pub shown: [Note; 8],
}

impl Notes {
    /// No call was active, or the refusal is met in no evaluation.
    pub const NONE: Notes = Notes {
        count: 0,
        shown: [Note::NONE; 8],
    };

    /// The notes where one call more was active, around all that are noted.
    pub fn called_from(self, outer: Note) -> Notes
        requires { self.count + 1 < 2 ^ 32 }
        ensures { (calls : List Note) → self ≡ spec.notes_of calls → result ≡ spec.notes_of (calls ++ outer ∷ []) }
    {
        let mut notes = self;
        let at = notes.count as usize;
        if at < SHOWN_CALLS {
            notes.shown[at] = outer;
        }
        notes.count += 1;
        notes
    }
}

/// The notes of no call are those of the empty list of calls.
pub fn no_call_is_noted()
    ensures { Notes.NONE ≡ spec.notes_of [] }
{}
