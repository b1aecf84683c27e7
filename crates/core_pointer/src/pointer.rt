//! Pointers.

ghost use Rattle.std.specs.Prelude.{◌≡◌, [], false, IfOk, IsTrue, ◌↔◌};
ghost use Rattle.core_pointer.specs.declared.origin.Origin.TheVariants as origin;

use crate::origin::Origin;
use crate::path::Path;
use cxx_base::Memory;
use std::alloc::Global;

/// A pointer, or what a reference is bound to ([basic.compound]): the object, the way to a part of it, and whether it points past that
/// part, which is then the last element of an array or an object that is no element. The null pointer has the null origin, no step, and
/// does not point past anything.
pub struct Pointer {
    pub origin: Origin,
    pub path: Path,
    pub past: bool,
}

impl Drop for Pointer {
    fn drop(self) {
        let Pointer {
            origin: _,
            path: _,
            past: _,
        } = self;
    }
}

impl Pointer {
    /// The null pointer. It takes no memory.
    pub fn null(alloc: Global) -> Pointer
        ensures { result ≡ record { origin = origin.Null; path = []; past = false } }
    {
        Pointer {
            origin: Origin::Null,
            path: Path::whole(alloc),
            past: false,
        }
    }

    /// The pointer to a whole object. It takes no memory.
    pub fn to(alloc: Global, object: Origin) -> Pointer
        ensures { result ≡ record { origin = object; path = []; past = false } }
    {
        Pointer {
            origin: object,
            path: Path::whole(alloc),
            past: false,
        }
    }

    /// The same pointer.
    pub fn copy(&self) -> Result<Pointer, Memory>
        ensures { IfOk result (λ copy. copy ≡ self.now) }
    {
        let origin = self.origin.copy()?;
        let path = self.path.copy()?;
        Ok(Pointer {
            origin,
            path,
            past: self.past,
        })
    }

    /// Whether two pointers have the same origin, path and mark.
    pub fn same(&self, other: &Pointer) -> bool
        ensures { IsTrue result ↔ (self.now ≡ other.now) }
    {
        self.past == other.past && self.origin.same(&other.origin) && self.path.same(&other.path)
    }
}
