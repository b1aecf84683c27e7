//! Laws: what the standard says of the definitions that the contracts cite, proved of them. Each function does nothing, and
//! a call of it gives its caller the law.
ghost use Rattle.int_kinds.specs.BitFacts.{BitsAreJoined};
ghost use Rattle.int_kinds.specs.Division.{DivisionIsWhole, RefusesOnlyBeyondRange};
ghost use Rattle.int_kinds.specs.Literal.{NoKindBeyond};
ghost use Rattle.int_kinds.specs.Unary.{ComplementIsBelow, NegateOverflowsAtLeast};
ghost use Rattle.int_kinds.specs.Wrap.{WrapIsTheMember};

/// What is kept modulo 2 to the power of the width is the one value of the kind that is congruent ([basic.fundamental],
/// [conv.integral], [expr.shift]).
pub fn wrap_is_the_member()
    ensures { WrapIsTheMember }
{}

/// `/` and `%` fit together ([expr.mul]): where both give a value, the left side is the right side times the
/// quotient, plus the remainder; and the remainder is smaller than the right side, and has the sign of the left side.
pub fn division_is_whole()
    ensures { DivisionIsWhole }
{}

/// Besides a zero divisor, `/` gives no value exactly where the quotient is not a value of the kind ([expr.mul]).
pub fn refuses_only_beyond_range()
    ensures { RefusesOnlyBeyondRange }
{}

/// The operator `-` with one operand gives no value exactly at the least value of a kind with a sign ([expr.unary.op]).
pub fn negate_overflows_at_least()
    ensures { NegateOverflowsAtLeast }
{}

/// The operator `~` counts from the other end of the range: the sum of a value and of its complement is that of the least
/// and of the greatest value ([expr.unary.op]).
pub fn complement_is_below()
    ensures { ComplementIsBelow }
{}

/// Each bit of what `&`, `|`, `^` and `~` give comes from the bits of the sides at its place, in two's complement
/// ([expr.bit.and], [expr.or], [expr.xor], [expr.unary.op]).
pub fn bits_are_joined()
    ensures { BitsAreJoined }
{}

/// No kind holds a literal of more than 64 bits, whatever its base and suffix ([lex.icon]).
pub fn no_kind_beyond()
    ensures { NoKindBeyond }
{}
