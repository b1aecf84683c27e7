//! Active calls.

ghost use Rattle.std.specs.Prelude.{◌≡◌, [], ◌∷◌, List, length, slice_get, IfOk};
ghost use Rattle.active_calls.specs.Entering.{Entered, Left};

use core_words::CallStop;
use cxx_base::{EntityNo, Note, Place};
use std::alloc::Global;

/// The calls that are active in an evaluation ([expr.call]), constructors and written destructors among them, each with the place of its call.
pub trait Calls {
    ghost use Rattle.std.specs.Prelude.{List};
    ghost use Rattle.cxx_base.specs.declared.note.Note.{Note};

    /// The active calls, the innermost first.
    ghost calls: { Self → List Note };

    /// No call is active. It takes no memory.
    fn empty(alloc: Global) -> Self
        ensures { calls result ≡ [] };

    /// A call begins, unless at least `depth` calls are active: that is refused `V13`. Where it does not begin, nothing changes.
    fn enter(&mut self, function: EntityNo, at: Place, depth: u32) -> Result<(), CallStop>
        ensures { Entered depth (record { function = function; place = at }) (calls self.old) result (calls self.new) };

    /// The innermost call ends. None where no call is active.
    fn leave(&mut self) -> Option<EntityNo>
        ensures { Left (calls self.old) result (calls self.new) };

    /// How many calls are active.
    fn active(&self) -> u32
        ensures { result ≡ length (calls self.now) };

    /// The call so many calls out from the innermost. None where there are not so many.
    fn nth(&self, back: u32) -> Option<Note>
        ensures { result ≡ slice_get (calls self.now) back };
}
