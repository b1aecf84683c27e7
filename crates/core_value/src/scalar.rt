//! Values of scalars.

ghost use Rattle.std.specs.Prelude.{◌≡◌, IfOk, IsTrue, ◌↔◌};

use crate::info_list::InfoList;
use core_pointer::Pointer;
use core_reflection::Reflection;
use core_words::AccessContext;
use cxx_base::{Bytes, Memory};
use sharing::Shared;

/// The value of a scalar ([basic.types.general]), to which values of the library belong, of a `std::meta::member_offset` the numbers in it.
pub enum Scalar {
    /// Of an integral type or an enumeration.
    Number(i128),
    /// Of a pointer type, or what a reference is bound to.
    Pointer(Shared<Pointer>),
    /// Of `std::meta::info`.
    Reflection(Reflection),
    /// Of `std::vector<std::meta::info>`.
    Reflections(InfoList),
    /// Of `std::string_view`: the bytes.
    Text(Shared<Bytes>),
    /// Of `std::meta::access_context`.
    Context(AccessContext),
}

impl Drop for Scalar {
    fn drop(self) {
        match self {
            Scalar::Number(_) => {}
            Scalar::Pointer(_) => {}
            Scalar::Reflection(_) => {}
            Scalar::Reflections(_) => {}
            Scalar::Text(_) => {}
            Scalar::Context(_) => {}
        }
    }
}

impl Scalar {
    /// The same value. It costs a count at most.
    pub fn copy(&self) -> Result<Scalar, Memory>
        ensures { IfOk result (λ copy. copy ≡ self.now) }
    {
        match self {
            Scalar::Number(n) => Ok(Scalar::Number(*n)),
            Scalar::Pointer(pointer) => Ok(Scalar::Pointer(pointer.copy()?)),
            Scalar::Reflection(reflection) => Ok(Scalar::Reflection(reflection.copy()?)),
            Scalar::Reflections(list) => Ok(Scalar::Reflections(list.copy()?)),
            Scalar::Text(bytes) => Ok(Scalar::Text(bytes.copy()?)),
            Scalar::Context(context) => Ok(Scalar::Context(*context)),
        }
    }

    /// Whether two values are equal. (Two pointers that are not can still not be compared: `Store` says so.)
    pub fn same(&self, other: &Scalar) -> bool
        ensures { IsTrue result ↔ (self.now ≡ other.now) }
    {
        match self {
            Scalar::Number(n) => match other {
                Scalar::Number(m) => *n == *m,
                _ => false,
            },
            Scalar::Pointer(pointer) => match other {
                Scalar::Pointer(other) => pointer.get().same(other.get()),
                _ => false,
            },
            Scalar::Reflection(reflection) => match other {
                Scalar::Reflection(other) => reflection.same(other),
                _ => false,
            },
            Scalar::Reflections(list) => match other {
                Scalar::Reflections(other) => list.same(other),
                _ => false,
            },
            Scalar::Text(bytes) => match other {
                Scalar::Text(other) => bytes.get().as_slice() == other.get().as_slice(),
                _ => false,
            },
            Scalar::Context(context) => match other {
                Scalar::Context(other) => *context == *other,
                _ => false,
            },
        }
    }
}
