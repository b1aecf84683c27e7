//! Promotions, and the common kind of two operands.
ghost use Rattle.std.specs.Prelude.{◌≡◌, ◌≤◌};
ghost use Rattle.int_kinds.specs.Convert.{common_mixed, common_of, has_values_of, promoted, rank_of, unsigned_of, IsPromoted};
ghost use Rattle.int_kinds.specs.Kind.{is_signed};

use crate::kind::{greatest, least};
use cxx_base::IntKind;

/// The kind of an operand after its promotion ([conv.prom]): `int` for a kind of a lower rank, all of whose values it has,
/// and else the kind itself.
pub fn promote(kind: IntKind) -> IntKind
    ensures kind { result ≡ promoted kind }
    ensures promoted { IsPromoted result }
{
    match kind {
        IntKind::Bool
        | IntKind::Char
        | IntKind::SChar
        | IntKind::UChar
        | IntKind::Short
        | IntKind::UShort => IntKind::Int,
        IntKind::Int
        | IntKind::UInt
        | IntKind::Long
        | IntKind::ULong
        | IntKind::LongLong
        | IntKind::ULongLong => kind,
    }
}

/// The common kind of two operands, by the usual arithmetic conversions ([expr.arith.conv]).
///
/// Both are promoted. Of two kinds with a sign, or two without, it is the one of the greater rank. Else it is the kind
/// without a sign where its rank is not lower; else the one with a sign where it has all values of the other; else the
/// kind without a sign of that rank.
pub fn common(a: IntKind, b: IntKind) -> IntKind
    ensures kind { result ≡ common_of a b }
    ensures promoted { IsPromoted result }
{
    let a = promote(a);
    let b = promote(b);
    match (has_sign(a), has_sign(b)) {
        (true, false) => mixed(a, b),
        (false, true) => mixed(b, a),
        (true, true) | (false, false) => { if rank(a) < rank(b) { b } else { a } }
    }
}

// The common kind of one with a sign and one without.
fn mixed(signed: IntKind, unsigned: IntKind) -> IntKind
    ensures { result ≡ common_mixed signed unsigned }
{
    if rank(signed) <= rank(unsigned) {
        unsigned
    } else if has_values(signed, unsigned) {
        signed
    } else {
        without_sign(signed)
    }
}

fn has_values(wide: IntKind, kind: IntKind) -> bool
    ensures { result ≡ has_values_of wide kind }
{
    least(wide) <= least(kind) && greatest(kind) <= greatest(wide)
}

fn has_sign(kind: IntKind) -> bool
    ensures { result ≡ is_signed kind }
{
    match kind {
        IntKind::Char
        | IntKind::SChar
        | IntKind::Short
        | IntKind::Int
        | IntKind::Long
        | IntKind::LongLong => true,
        IntKind::Bool
        | IntKind::UChar
        | IntKind::UShort
        | IntKind::UInt
        | IntKind::ULong
        | IntKind::ULongLong => false,
    }
}

fn rank(kind: IntKind) -> u32
    ensures { result ≡ rank_of kind }
{
    match kind {
        IntKind::Bool => 0,
        IntKind::Char | IntKind::SChar | IntKind::UChar => 1,
        IntKind::Short | IntKind::UShort => 2,
        IntKind::Int | IntKind::UInt => 3,
        IntKind::Long | IntKind::ULong => 4,
        IntKind::LongLong | IntKind::ULongLong => 5,
    }
}

fn without_sign(kind: IntKind) -> IntKind
    ensures { result ≡ unsigned_of kind }
{
    match kind {
        IntKind::Bool => IntKind::Bool,
        IntKind::Char | IntKind::SChar | IntKind::UChar => IntKind::UChar,
        IntKind::Short | IntKind::UShort => IntKind::UShort,
        IntKind::Int | IntKind::UInt => IntKind::UInt,
        IntKind::Long | IntKind::ULong => IntKind::ULong,
        IntKind::LongLong | IntKind::ULongLong => IntKind::ULongLong,
    }
}
