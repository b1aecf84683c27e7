//! The operators on whole numbers, kind by kind.
ghost use Rattle.std.specs.Prelude.{◌≡◌, IfOk};
ghost use Rattle.int_kinds.specs.Convert.{converted, IsPromoted};
ghost use Rattle.int_kinds.specs.Kind.{IsInRange};
ghost use Rattle.int_kinds.specs.Operate.{applied, compared, complemented, negated, IsShift};

use crate::fault::ArithFault;
use crate::int::Int;
use cxx_base::{CompareOp, IntKind, IntOp};

// The call at the width and the sign of the kind.
macro_rules! at_kind {
    // Of a kind that promotion gives: no other comes.
    ($kind:expr, promoted $call:ident($($argument:expr),*)) => {
        match $kind {
            IntKind::Int => Int::<32, 1>::$call($($argument),*),
            IntKind::UInt => Int::<32, 0>::$call($($argument),*),
            IntKind::Long | IntKind::LongLong => Int::<64, 1>::$call($($argument),*),
            IntKind::ULong | IntKind::ULongLong => Int::<64, 0>::$call($($argument),*),
            IntKind::Bool
            | IntKind::Char
            | IntKind::SChar
            | IntKind::UChar
            | IntKind::Short
            | IntKind::UShort => unreachable!(),
        }
    };
    // Of each kind; `bool` has a rule of its own.
    ($kind:expr, bool $bool:expr, $call:ident($($argument:expr),*)) => {
        match $kind {
            IntKind::Bool => $bool,
            IntKind::Char | IntKind::SChar => Int::<8, 1>::$call($($argument),*),
            IntKind::UChar => Int::<8, 0>::$call($($argument),*),
            IntKind::Short => Int::<16, 1>::$call($($argument),*),
            IntKind::UShort => Int::<16, 0>::$call($($argument),*),
            IntKind::Int => Int::<32, 1>::$call($($argument),*),
            IntKind::UInt => Int::<32, 0>::$call($($argument),*),
            IntKind::Long | IntKind::LongLong => Int::<64, 1>::$call($($argument),*),
            IntKind::ULong | IntKind::ULongLong => Int::<64, 0>::$call($($argument),*),
        }
    };
}

/// The operator at the kind: arithmetic of whole numbers without bounds, or why it gives no value.
///
/// With a sign, `+`, `-` and `*` give the exact result where the kind has it, and `Overflow` elsewhere ([expr.add],
/// [expr.mul], [expr.pre]); without, the result modulo 2 to the power of the width ([basic.fundamental]). `/` gives the
/// quotient cut toward 0, and `%` the remainder, with the sign of the left side ([expr.mul]); both give `ZeroDivisor` where
/// the right side is 0, and `LeastByMinusOne` for the least value of a kind with a sign by -1. `<<` gives the value of the
/// kind that is congruent to the left side times a power of 2, and `>>` rounds the quotient by that power down
/// ([expr.shift]); both give `ShiftCount` where the right side is negative or not below the width. `&`, `|` and `^` go
/// bit by bit in two's complement ([expr.bit.and], [expr.or], [expr.xor]).
///
/// The kind is one that promotion gives, both sides are values of it, and the right side of a shift is any number.
pub fn apply(op: IntOp, kind: IntKind, a: i128, b: i128) -> Result<i128, ArithFault>
    requires promoted { IsPromoted kind }
    requires left { IsInRange kind a }
    requires right { (¬ IsShift op) → IsInRange kind b }
    ensures exact { result ≡ applied op kind a b }
    ensures in_range { IfOk result (λ n. IsInRange kind n) }
{
    applied_exactly(op, kind, a, b)
}

fn applied_exactly(op: IntOp, kind: IntKind, a: i128, b: i128) -> Result<i128, ArithFault>
    requires promoted { IsPromoted kind }
    requires left { IsInRange kind a }
    requires right { (¬ IsShift op) → IsInRange kind b }
    ensures { result ≡ applied op kind a b }
{
    at_kind!(kind, promoted apply(op, a, b))
}

/// The operator `-` with one operand ([expr.unary.op]): `Overflow` exactly at the least value of a kind with a sign, where
/// the negative is no value of the kind; without a sign, the negative modulo 2 to the power of the width.
///
/// The kind is one that promotion gives, and `a` is a value of it.
pub fn negate(kind: IntKind, a: i128) -> Result<i128, ArithFault>
    requires promoted { IsPromoted kind }
    requires operand { IsInRange kind a }
    ensures exact { result ≡ negated kind a }
    ensures in_range { IfOk result (λ n. IsInRange kind n) }
{
    negated_exactly(kind, a)
}

fn negated_exactly(kind: IntKind, a: i128) -> Result<i128, ArithFault>
    requires promoted { IsPromoted kind }
    requires operand { IsInRange kind a }
    ensures { result ≡ negated kind a }
{
    at_kind!(kind, promoted negative(a))
}

/// The operator `~` ([expr.unary.op]): the value with each bit turned.
///
/// The kind is one that promotion gives, and `a` is a value of it.
pub fn complement(kind: IntKind, a: i128) -> i128
    requires promoted { IsPromoted kind }
    requires operand { IsInRange kind a }
    ensures exact { result ≡ complemented kind a }
    ensures in_range { IsInRange kind result }
{
    complemented_exactly(kind, a)
}

fn complemented_exactly(kind: IntKind, a: i128) -> i128
    requires promoted { IsPromoted kind }
    requires operand { IsInRange kind a }
    ensures { result ≡ complemented kind a }
{
    at_kind!(kind, promoted turned(a))
}

/// The number as a value of the kind: as `bool`, 0 for 0 and 1 for each other number ([conv.bool]); else the value of the
/// kind that is congruent to it modulo 2 to the power of the width ([conv.integral]). A value of the kind stays.
pub fn convert(kind: IntKind, n: i128) -> i128
    ensures value { result ≡ converted kind n }
    ensures in_range { IsInRange kind result }
    ensures same { IsInRange kind n → result ≡ n }
{
    converted_exactly(kind, n)
}

fn converted_exactly(kind: IntKind, n: i128) -> i128
    ensures { result ≡ converted kind n }
{
    at_kind!(kind, bool if n == 0 { 0 } else { 1 }, wrapped(n))
}

/// The comparison of two numbers ([expr.rel], [expr.eq]).
pub fn compare(op: CompareOp, a: i128, b: i128) -> bool
    ensures { result ≡ compared op a b }
{
    match op {
        CompareOp::Lt => a < b,
        CompareOp::Le => a <= b,
        CompareOp::Gt => a > b,
        CompareOp::Ge => a >= b,
        CompareOp::Eq => a == b,
        CompareOp::Ne => a != b,
    }
}
