//! What types are made of.

use cxx_base::{EntityNo, IntKind};

/// What a type is made of. Types of the library beside the fundamental ones are those of `std` and `std::meta`.
#[derive(Clone, Copy, Debug, PartialEq, Eq)]
pub enum BasicType {
    Void,
    Int(IntKind),
    /// `std::nullptr_t`
    Nullptr,
    /// `std::meta::info`
    Info,
    /// `std::string_view`
    StringView,
    /// `std::meta::access_context`
    AccessContext,
    /// `std::meta::member_offset`
    MemberOffset,
    /// `std::vector<std::meta::info>`
    InfoVector,
    Class(EntityNo),
    /// An enumeration: its entity, its underlying kind, whether it is scoped, and whether its type is written.
    Enum {
        entity: EntityNo,
        underlying: IntKind,
        scoped: bool,
        written: bool,
    },
}
