//! The number of one width, and each operator on it.
ghost use Rattle.std.specs.Prelude.{◌≡◌, ◌==◌, ◌<◌, ◌≤◌, ◌^◌, pos, neg_ℤ, ◌+ℤ◌, ◌-ℤ◌, ◌*ℤ◌, ◌≤ℤ◌, ◌<ℤ◌, int_div, int_rem, IfSome};
ghost use Rattle.int_kinds.specs.Bits.{both, either, just_one, bitwise, representation, turned};
ghost use Rattle.int_kinds.specs.Kind.{IsInRangeAt, least_at, greatest_at};
ghost use Rattle.int_kinds.specs.Operate.{applied_at, division_fault_at, kept_at, shift_count_at, shifted_left_at, shifted_right, value_unless, IsShift};
ghost use Rattle.int_kinds.specs.Wrap.{wrap_at};

use crate::fault::ArithFault;
use cxx_base::IntOp;

/// A number of `BITS` bits, with a sign where `SIGNED` is 1 and without where it is 0.
#[derive(Clone, Copy)]
pub struct Int<const BITS: u32, const SIGNED: u32> {
    value: i128,
    ghost some_bits: { 0 < BITS },
    ghost few_bits: { BITS ≤ 64 },
    ghost in_range: { IsInRangeAt BITS (SIGNED == 1) value },
}

impl<const BITS: u32, const SIGNED: u32> Int<BITS, SIGNED> {
    /// The number, which is in the range of the width.
    pub fn new(value: i128) -> Self
        requires some_bits { 0 < BITS }
        requires few_bits { BITS ≤ 64 }
        requires in_range { IsInRangeAt BITS (SIGNED == 1) value }
        ensures { result.value ≡ value }
    {
        Self { value }
    }

    // The number, with what each width up to 64 bits says of it.
    fn get(self) -> i128
        ensures value { result ≡ self.entry.value }
        ensures low { neg_ℤ (pos (2 ^ 63)) ≤ℤ result }
        ensures high { result <ℤ pos (2 ^ 64) }
    {
        self.value
    }

    // The least number of the width.
    fn least() -> i128
        requires some_bits { 0 < BITS }
        requires few_bits { BITS ≤ 64 }
        ensures { result ≡ least_at BITS (SIGNED == 1) }
    {
        if SIGNED == 1 { -(1 << (BITS - 1)) } else { 0 }
    }

    // The greatest number of the width.
    fn greatest() -> i128
        requires some_bits { 0 < BITS }
        requires few_bits { BITS ≤ 64 }
        ensures { result ≡ greatest_at BITS (SIGNED == 1) }
    {
        if SIGNED == 1 {
            (1 << (BITS - 1)) - 1
        } else {
            (1 << BITS) - 1
        }
    }

    // The bits of the width, as a number without sign.
    fn low_bits(n: i128) -> i128
        requires few_bits { BITS ≤ 64 }
        ensures { result ≡ pos (representation BITS n) }
    {
        n & ((1 << BITS) - 1)
    }

    /// The number of the width that is congruent to `n` modulo 2^BITS: its lowest bits, of which the highest is the sign.
    pub fn wrapped(n: i128) -> i128
        requires some_bits { 0 < BITS }
        requires few_bits { BITS ≤ 64 }
        ensures { result ≡ wrap_at BITS (SIGNED == 1) n }
    {
        let low = Self::low_bits(n);
        if SIGNED != 1 {
            low
        } else if low < 1 << (BITS - 1) {
            low
        } else {
            low - (1 << BITS)
        }
    }

    // What is kept of an exact result: a number of the width, or `Overflow`; without sign, the number modulo 2^BITS.
    fn keep(exact: i128) -> Result<i128, ArithFault>
        requires some_bits { 0 < BITS }
        requires few_bits { BITS ≤ 64 }
        ensures { result ≡ kept_at BITS (SIGNED == 1) exact }
    {
        if SIGNED != 1 {
            Ok(Self::wrapped(exact))
        } else if Self::least() <= exact && exact <= Self::greatest() {
            Ok(exact)
        } else {
            Err(ArithFault::Overflow)
        }
    }

    /// The sum.
    pub fn add(self, other: Self) -> Result<i128, ArithFault>
        ensures { result ≡ kept_at BITS (SIGNED == 1) (self.entry.value +ℤ other.entry.value) }
    {
        Self::keep(self.get() + other.get())
    }

    /// The difference.
    pub fn subtract(self, other: Self) -> Result<i128, ArithFault>
        ensures { result ≡ kept_at BITS (SIGNED == 1) (self.entry.value -ℤ other.entry.value) }
    {
        Self::keep(self.get() - other.get())
    }

    /// The product. One of numbers without sign may need 128 bits, and the lowest of them are as right as ever.
    pub fn multiply(self, other: Self) -> Result<i128, ArithFault>
        ensures { result ≡ kept_at BITS (SIGNED == 1) (self.entry.value *ℤ other.entry.value) }
    {
        if SIGNED == 1 {
            Self::keep(self.value * other.value)
        } else {
            Ok(Self::wrapped(self.value.wrapping_mul(other.value)))
        }
    }

    // Why there is no quotient and no remainder, if so.
    fn division_fault(self, other: Self) -> Option<ArithFault>
        ensures { result ≡ division_fault_at BITS (SIGNED == 1) self.entry.value other.entry.value }
    {
        if other.value == 0 {
            Some(ArithFault::ZeroDivisor)
        } else if SIGNED == 1 && self.value == Self::least() && other.value == -1 {
            Some(ArithFault::LeastByMinusOne)
        } else {
            None
        }
    }

    /// The quotient, cut toward 0.
    pub fn divide(self, other: Self) -> Result<i128, ArithFault>
        ensures { result ≡ value_unless (division_fault_at BITS (SIGNED == 1) self.entry.value other.entry.value) (int_div self.entry.value other.entry.value) }
    {
        match self.division_fault(other) {
            Some(fault) => Err(fault),
            None => Ok(self.get() / other.get()),
        }
    }

    /// The remainder, with the sign of the left side.
    pub fn remainder(self, other: Self) -> Result<i128, ArithFault>
        ensures { result ≡ value_unless (division_fault_at BITS (SIGNED == 1) self.entry.value other.entry.value) (int_rem self.entry.value other.entry.value) }
    {
        match self.division_fault(other) {
            Some(fault) => Err(fault),
            None => Ok(self.get() % other.get()),
        }
    }

    // The count of a shift, where it is not negative and below the width.
    fn shift_count(count: i128) -> Option<u32>
        requires few_bits { BITS ≤ 64 }
        ensures count { result ≡ shift_count_at BITS count }
        ensures below { IfSome result (λ n. n < BITS) }
    {
        if count < 0 || count >= i128::from(BITS) {
            None
        } else {
            Some(count as u32)
        }
    }

    /// The number times 2 to the power of `count`, modulo 2^BITS.
    pub fn shift_left(self, count: i128) -> Result<i128, ArithFault>
        ensures { result ≡ shifted_left_at BITS (SIGNED == 1) self.entry.value (shift_count_at BITS count) }
    {
        match Self::shift_count(count) {
            Some(count) => Ok(Self::wrapped(self.value << count)),
            None => Err(ArithFault::ShiftCount),
        }
    }

    /// The number divided by 2 to the power of `count`, rounded down.
    pub fn shift_right(self, count: i128) -> Result<i128, ArithFault>
        ensures { result ≡ shifted_right self.entry.value (shift_count_at BITS count) }
    {
        match Self::shift_count(count) {
            Some(count) => Ok(self.value >> count),
            None => Err(ArithFault::ShiftCount),
        }
    }

    /// The number with the bits that both have.
    pub fn and(self, other: Self) -> i128
        ensures { result ≡ bitwise both BITS (SIGNED == 1) self.entry.value other.entry.value }
    {
        Self::wrapped(self.value & other.value)
    }

    /// The number with the bits that one at least has.
    pub fn or(self, other: Self) -> i128
        ensures { result ≡ bitwise either BITS (SIGNED == 1) self.entry.value other.entry.value }
    {
        Self::wrapped(self.value | other.value)
    }

    /// The number with the bits that just one has.
    pub fn xor(self, other: Self) -> i128
        ensures { result ≡ bitwise just_one BITS (SIGNED == 1) self.entry.value other.entry.value }
    {
        Self::wrapped(self.value ^ other.value)
    }

    /// The negative of the number.
    pub fn negate(self) -> Result<i128, ArithFault>
        ensures { result ≡ kept_at BITS (SIGNED == 1) (neg_ℤ self.entry.value) }
    {
        Self::keep(-self.get())
    }

    /// The number with each bit turned.
    pub fn complement(self) -> i128
        ensures { result ≡ turned BITS (SIGNED == 1) self.entry.value }
    {
        Self::wrapped(!self.value)
    }
    /// The binary operator.
    pub fn apply(op: IntOp, a: i128, b: i128) -> Result<i128, ArithFault>
        requires some_bits { 0 < BITS }
        requires few_bits { BITS ≤ 64 }
        requires left { IsInRangeAt BITS (SIGNED == 1) a }
        requires right { (¬ IsShift op) → IsInRangeAt BITS (SIGNED == 1) b }
        ensures { result ≡ applied_at op BITS (SIGNED == 1) a b }
    {
        let left = Self::new(a);
        match op {
            IntOp::Add => left.add(Self::new(b)),
            IntOp::Sub => left.subtract(Self::new(b)),
            IntOp::Mul => left.multiply(Self::new(b)),
            IntOp::Div => left.divide(Self::new(b)),
            IntOp::Rem => left.remainder(Self::new(b)),
            IntOp::Shl => left.shift_left(b),
            IntOp::Shr => left.shift_right(b),
            IntOp::And => Ok(left.and(Self::new(b))),
            IntOp::Or => Ok(left.or(Self::new(b))),
            IntOp::Xor => Ok(left.xor(Self::new(b))),
        }
    }
    /// The operator `-` with one operand.
    pub fn negative(a: i128) -> Result<i128, ArithFault>
        requires some_bits { 0 < BITS }
        requires few_bits { BITS ≤ 64 }
        requires operand { IsInRangeAt BITS (SIGNED == 1) a }
        ensures { result ≡ kept_at BITS (SIGNED == 1) (neg_ℤ a) }
    {
        Self::new(a).negate()
    }

    /// The operator `~`.
    pub fn turned(a: i128) -> i128
        requires some_bits { 0 < BITS }
        requires few_bits { BITS ≤ 64 }
        requires operand { IsInRangeAt BITS (SIGNED == 1) a }
        ensures { result ≡ turned BITS (SIGNED == 1) a }
    {
        Self::new(a).complement()
    }
}
