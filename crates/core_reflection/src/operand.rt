//! What is reflected.

use cxx_base::{EntityNo, Name};
use cxx_type::CxxType;

/// What a declared entity is that is reflected, and is neither a type nor a namespace.
#[derive(Clone, Copy, Debug, PartialEq, Eq)]
pub enum ReflectedKind {
    Variable,
    Function,
    Enumerator,
    DataMember,
}

/// The operand of `^^` once it is resolved (P2996R13, [expr.reflect]).
pub enum TypedOperand {
    /// A type, and the alias that named it.
    Type(CxxType, Option<EntityNo>),
    /// A namespace, and the alias that named it.
    Namespace(EntityNo, Option<EntityNo>),
    /// A declared entity.
    Entity(EntityNo, ReflectedKind),
    /// A member of a class that was injected, by the class and its place, with its name.
    Member {
        class: EntityNo,
        index: u32,
        name: Name,
    },
}

impl Drop for TypedOperand {
    fn drop(self) {
        match self {
            TypedOperand::Type(_, _) => {}
            TypedOperand::Namespace(_, _) => {}
            TypedOperand::Entity(_, _) => {}
            TypedOperand::Member {
                class: _,
                index: _,
                name: _,
            } => {}
        }
    }
}
