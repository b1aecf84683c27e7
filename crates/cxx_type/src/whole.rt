//! Whole types.

ghost use Rattle.std.specs.Prelude.{◌≡◌, IfOk, IsTrue, ◌↔◌};

use crate::basic::BasicType;
use crate::layering::Layers;
use cxx_base::Memory;

/// A type ([basic.types]): what it is made of, whether that is const, and the pointers, references and arrays over it,
/// the outermost first. `const char *const &` is char, const, and the layers of a reference and a const pointer.
pub struct CxxType {
    pub basic: BasicType,
    pub is_const: bool,
    pub layers: Layers,
}

impl Drop for CxxType {
    fn drop(self) {
        let CxxType {
            basic: _,
            is_const: _,
            layers: _,
        } = self;
    }
}

impl CxxType {
    /// The same type. It costs a count, however many layers there are.
    pub fn copy(&self) -> Result<CxxType, Memory>
        ensures { IfOk result (λ copy. copy ≡ self.now) }
    {
        Ok(CxxType {
            basic: self.basic,
            is_const: self.is_const,
            layers: self.layers.copy()?,
        })
    }
    /// Whether two types are equal.
    pub fn same(&self, other: &CxxType) -> bool
        ensures { IsTrue result ↔ (self.now ≡ other.now) }
    {
        basics_same(self.basic, other.basic)
            && self.is_const == other.is_const
            && self.layers.same(&other.layers)
    }
}

fn basics_same(basic: BasicType, other: BasicType) -> bool
    ensures { IsTrue result ↔ (basic ≡ other) }
{
    basic == other
}
