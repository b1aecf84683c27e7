//! The kind of an integer literal.
ghost use Rattle.std.specs.Prelude.{◌≡◌, ◌≤◌};
ghost use Rattle.int_kinds.specs.Literal.{kind_of_literal};

use cxx_base::IntKind;

// The same with at most two `l`.
fn kind_of_few(decimal: bool, unsigned: bool, longs: u32, n: u64) -> Option<IntKind>
    requires { longs ≤ 2 }
    ensures { result ≡ kind_of_literal decimal unsigned longs n }
{
    if longs == 0 {
        if !unsigned && n <= 0x7fff_ffff {
            return Some(IntKind::Int);
        }
        if (unsigned || !decimal) && n <= 0xffff_ffff {
            return Some(IntKind::UInt);
        }
    }
    // `long` and `long long` have the same values, so the first of them decides.
    let (signed, without_sign) = if longs == 2 {
        (IntKind::LongLong, IntKind::ULongLong)
    } else {
        (IntKind::Long, IntKind::ULong)
    };
    if !unsigned && n <= 0x7fff_ffff_ffff_ffff {
        Some(signed)
    } else if unsigned || !decimal {
        Some(without_sign)
    } else {
        None
    }
}

/// The kind of an integer literal of value `n` ([lex.icon]): the first of the list of its base and suffix that holds
/// the value, or none where no kind of the list does.
///
/// `decimal` says whether the literal is written in base 10, `unsigned` whether its suffix has a `u`, and `longs` is the
/// number of `l` there: 0, 1 or 2, and more count as 2.
#[tactic(auto, using(crate::proofs::LiteralLaws::more_longs))]
pub fn literal_kind(decimal: bool, unsigned: bool, longs: u32, n: u64) -> Option<IntKind>
    ensures { result ≡ kind_of_literal decimal unsigned longs n }
{
    if longs <= 2 {
        kind_of_few(decimal, unsigned, longs, n)
    } else {
        kind_of_few(decimal, unsigned, 2, n)
    }
}
