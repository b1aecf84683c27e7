//! The types that every code has without a table.

ghost use Rattle.std.specs.Prelude.{◌≡◌, ◌<◌, ◌^◌, ℕ, Some, slice_get, IfNone, IfSome};
ghost use Rattle.typed_code.specs.Basics.{basic_number};

use cxx_base::IntKind;
use cxx_type::BasicType;

/// How many numbers these types take: each has one, and one as a const type.
pub const BASIC_TYPES: u32 = 38;

/// These types without const, in the order of their numbers.
pub const BASICS: [BasicType; 19] = [
    BasicType::Void,
    BasicType::Int(IntKind::Bool),
    BasicType::Int(IntKind::Char),
    BasicType::Int(IntKind::SChar),
    BasicType::Int(IntKind::UChar),
    BasicType::Int(IntKind::Short),
    BasicType::Int(IntKind::UShort),
    BasicType::Int(IntKind::Int),
    BasicType::Int(IntKind::UInt),
    BasicType::Int(IntKind::Long),
    BasicType::Int(IntKind::ULong),
    BasicType::Int(IntKind::LongLong),
    BasicType::Int(IntKind::ULongLong),
    BasicType::Nullptr,
    BasicType::Info,
    BasicType::StringView,
    BasicType::AccessContext,
    BasicType::MemberOffset,
    BasicType::InfoVector,
];

// The basic type of a place among them.
pub(crate) fn basic_at(at: u32) -> Option<BasicType>
    ensures { result ≡ slice_get BASICS at }
{
    match BASICS.get(at as usize) {
        Some(basic) => Some(*basic),
        None => None,
    }
}

// The place of a basic type among them.
fn place_of(basic: BasicType) -> Option<u32>
    ensures place { IfSome result (λ at. slice_get BASICS at ≡ Some basic) }
    ensures within { IfSome result (λ at. at < 19) }
    ensures none { IfNone result ((at : ℕ) → slice_get BASICS at ≡ Some basic → ⊥) }
{
    match basic {
        BasicType::Void => Some(0),
        BasicType::Int(IntKind::Bool) => Some(1),
        BasicType::Int(IntKind::Char) => Some(2),
        BasicType::Int(IntKind::SChar) => Some(3),
        BasicType::Int(IntKind::UChar) => Some(4),
        BasicType::Int(IntKind::Short) => Some(5),
        BasicType::Int(IntKind::UShort) => Some(6),
        BasicType::Int(IntKind::Int) => Some(7),
        BasicType::Int(IntKind::UInt) => Some(8),
        BasicType::Int(IntKind::Long) => Some(9),
        BasicType::Int(IntKind::ULong) => Some(10),
        BasicType::Int(IntKind::LongLong) => Some(11),
        BasicType::Int(IntKind::ULongLong) => Some(12),
        BasicType::Nullptr => Some(13),
        BasicType::Info => Some(14),
        BasicType::StringView => Some(15),
        BasicType::AccessContext => Some(16),
        BasicType::MemberOffset => Some(17),
        BasicType::InfoVector => Some(18),
        BasicType::Class(_) => None,
        BasicType::Enum {
            entity: _,
            underlying: _,
            scoped: _,
            written: _,
        } => None,
    }
}

// Twice the place, and one more where it is const.
fn number_at(place: u32, is_const: bool) -> u32
    requires { place < 2 ^ 31 }
    ensures { result ≡ basic_number place is_const }
{
    if is_const { 2 * place + 1 } else { 2 * place }
}

/// The number of a type without a layer that no declaration makes, for types and for shapes. None of others.
pub fn basic_number_of(basic: BasicType, is_const: bool) -> Option<u32>
    ensures some { IfSome result (λ n. (at : ℕ) × (slice_get BASICS at ≡ Some basic) × (n ≡ basic_number at is_const)) }
    ensures none { IfNone result ((at : ℕ) → slice_get BASICS at ≡ Some basic → ⊥) }
{
    match place_of(basic) {
        Some(place) => Some(number_at(place, is_const)),
        None => None,
    }
}
