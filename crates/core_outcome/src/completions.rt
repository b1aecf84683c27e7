//! What an evaluation has completed.

ghost use Rattle.std.specs.Prelude.{◌≡◌, IfOk};

use containers::Items;
use core_shape::Class;
use cxx_base::Memory;
use cxx_type::CxxType;
use sharing::Shared;

/// A class that the evaluation of a consteval block completed: its entity, its members with their types, alignments and offsets, and its layout
/// (P2996R13, [meta.reflection.define.aggregate]).
pub struct Completion {
    pub class: Shared<Class>,
}

impl Drop for Completion {
    fn drop(self) {
        let Completion { class: _ } = self;
    }
}

impl Completion {
    /// The same completion. It costs a count.
    pub fn copy(&self) -> Result<Completion, Memory>
        ensures { IfOk result (λ copy. copy ≡ self.now) }
    {
        let class = self.class.copy()?;
        Ok(Completion { class })
    }
}

/// What the evaluation at hand knows beside the outcomes of earlier pieces.
pub struct Completions {
    /// The classes that it has completed, in order. They are complete for the rest of it.
    pub classes: Items<Completion>,
    /// Whether it is that of a consteval block. A tree that is evaluated while the body of a block is elaborated is not.
    pub is_block: bool,
    /// The type of the variable that the piece at hand declares, which is known in its own initializer. (Of an enumeration whose list is at
    /// hand, the frame tells: it is the entity that the piece declares.)
    pub own: Option<CxxType>,
}

impl Drop for Completions {
    fn drop(self) {
        let Completions {
            classes: _,
            is_block: _,
            own: _,
        } = self;
    }
}
