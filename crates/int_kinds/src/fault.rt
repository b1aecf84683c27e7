//! Why an operator gives no value.

/// Why an operator on whole numbers gives no value: each is undefined behavior in C++.
#[derive(Clone, Copy, Debug, PartialEq, Eq)]
pub enum ArithFault {
    /// The exact result of `+`, `-` or `*` is not a value of the kind ([expr.pre]).
    Overflow,
    /// The right side of `/` or `%` is 0 ([expr.mul]).
    ZeroDivisor,
    /// The least value of the kind is divided by -1, by `/` or `%`, so the quotient is not a value of the kind
    /// ([expr.mul]).
    LeastByMinusOne,
    /// The count of `<<` or `>>` is negative, or not below the width of the left side ([expr.shift]).
    ShiftCount,
}
