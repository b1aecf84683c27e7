//! What reflections are made of.

ghost use Rattle.std.specs.Prelude.{◌≡◌, IfOk, IsTrue, ◌↔◌};

use cxx_base::{EntityNo, Memory, Name};
use cxx_type::CxxType;

/// A data member that is not static.
#[derive(Clone, Copy, Debug, PartialEq, Eq)]
pub enum DataMember {
    /// One that is declared.
    Declared(EntityNo),
    /// One of a class that was injected, by its place among the members that were described. It has its name with it, so that it is printed
    /// without a look at the class, which a later text may have refused.
    Injected {
        class: EntityNo,
        index: u32,
        name: Name,
    },
}

/// The description of a data member that is to be injected (P2996R13, [meta.reflection.define.aggregate]).
pub struct Description {
    pub of: CxxType,
    pub name: Option<Name>,
    pub alignment: Option<u64>,
}

impl Drop for Description {
    fn drop(self) {
        let Description {
            of: _,
            name: _,
            alignment: _,
        } = self;
    }
}

impl Description {
    /// The same description. It costs a count.
    pub fn copy(&self) -> Result<Description, Memory>
        ensures { IfOk result (λ copy. copy ≡ self.now) }
    {
        Ok(Description {
            of: self.of.copy()?,
            name: self.name,
            alignment: self.alignment,
        })
    }

    /// Whether two descriptions are equal.
    pub fn same(&self, other: &Description) -> bool
        ensures { IsTrue result ↔ (self.now ≡ other.now) }
    {
        self.name == other.name && self.alignment == other.alignment && self.of.same(&other.of)
    }
}

/// The constant of a whole number or an enumeration: its type and its value.
pub struct IntConstant {
    pub of: CxxType,
    pub value: i128,
}

impl Drop for IntConstant {
    fn drop(self) {
        let IntConstant { of: _, value: _ } = self;
    }
}

impl IntConstant {
    /// Whether two constants have equal types and values.
    pub fn same(&self, other: &IntConstant) -> bool
        ensures { IsTrue result ↔ (self.now ≡ other.now) }
    {
        self.value == other.value && self.of.same(&other.of)
    }
}
