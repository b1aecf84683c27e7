//! The values of a kind.
ghost use Rattle.std.specs.Prelude.{◌≡◌, ◌↔◌, IsTrue};
ghost use Rattle.int_kinds.specs.Kind.{least_of, greatest_of, IsInRange};

use cxx_base::IntKind;

/// The least value of the kind ([basic.fundamental]). Plain `char` is signed, `int` has 32 bits, and `long` and
/// `long long` have 64.
pub fn least(kind: IntKind) -> i128
    ensures { result ≡ least_of kind }
{
    match kind {
        IntKind::Bool
        | IntKind::UChar
        | IntKind::UShort
        | IntKind::UInt
        | IntKind::ULong
        | IntKind::ULongLong => 0,
        IntKind::Char | IntKind::SChar => -0x80,
        IntKind::Short => -0x8000,
        IntKind::Int => -0x8000_0000,
        IntKind::Long | IntKind::LongLong => -0x8000_0000_0000_0000,
    }
}

/// The greatest value of the kind ([basic.fundamental]), at the same widths as [`least`].
pub fn greatest(kind: IntKind) -> i128
    ensures { result ≡ greatest_of kind }
{
    match kind {
        IntKind::Bool => 1,
        IntKind::Char | IntKind::SChar => 0x7f,
        IntKind::UChar => 0xff,
        IntKind::Short => 0x7fff,
        IntKind::UShort => 0xffff,
        IntKind::Int => 0x7fff_ffff,
        IntKind::UInt => 0xffff_ffff,
        IntKind::Long | IntKind::LongLong => 0x7fff_ffff_ffff_ffff,
        IntKind::ULong | IntKind::ULongLong => 0xffff_ffff_ffff_ffff,
    }
}

/// Whether the number is a value of the kind, for each of the twelve kinds ([basic.fundamental]).
pub fn is_in_range(kind: IntKind, n: i128) -> bool
    ensures { IsTrue result ↔ IsInRange kind n }
{
    least(kind) <= n && n <= greatest(kind)
}
