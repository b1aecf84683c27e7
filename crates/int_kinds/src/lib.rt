//! Arithmetic of C++'s whole numbers, kind by kind: the range of each kind, and the operators, which give the
//! exact number or name what C++ leaves undefined.
#![tactic(auto)]

mod fault;
mod int;
mod kind;
mod laws;
mod literal;
mod operate;
mod promotion;

pub use cxx_base::{CompareOp, IntKind, IntOp};
pub use fault::ArithFault;
pub use int::Int;
pub use kind::{greatest, is_in_range, least};
pub use laws::{
    bits_are_joined, complement_is_below, division_is_whole, negate_overflows_at_least,
    no_kind_beyond, refuses_only_beyond_range, wrap_is_the_member,
};
pub use literal::literal_kind;
pub use operate::{apply, compare, complement, convert, negate};
pub use promotion::{common, promote};
