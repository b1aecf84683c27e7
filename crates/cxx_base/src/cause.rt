//! The causes of refusals whose code has several, as a refusal's detail tells them: each is the place of its text, counted
//! from 0, among those of its code. A greater number counts as the last of them.

/// The detail of a code that has one cause.
pub const ONE: u64 = 0;

/// `V1`: the exact result of an operation is no value of its kind ([expr.pre]).
pub const SIGNED_OVERFLOW: u64 = 0;

/// `V1`: the right side of `/` or `%` is 0 ([expr.mul]).
pub const DIVISION_BY_ZERO: u64 = 1;

/// `V1`: the least value of a kind is divided by -1 ([expr.mul]).
pub const LEAST_BY_MINUS_ONE: u64 = 2;

/// `V1`: the count of a shift is negative, or not below the width of the left side ([expr.shift]).
pub const SHIFT_COUNT: u64 = 3;

/// `V14`: a function is called that is neither `constexpr` nor `consteval` ([expr.const]).
pub const NOT_CONSTEXPR: u64 = 0;

/// `V14`: a function is called that is not yet defined ([expr.const]).
pub const NOT_DEFINED_YET: u64 = 1;

/// `V14`: a function that is to give a value ends without one ([stmt.return]).
pub const ENDED_WITHOUT_VALUE: u64 = 2;
