//! Operators of expressions.

use cxx_base::{CompareOp, IntOp};

/// A binary operator: [expr.mul] to [expr.log.or].
#[derive(Clone, Copy, Debug, PartialEq, Eq)]
pub enum BinaryOp {
    Int(IntOp),
    Compare(CompareOp),
    LogicalAnd,
    LogicalOr,
}

/// A prefix operator with an expression as operand ([expr.unary.op]).
#[derive(Clone, Copy, Debug, PartialEq, Eq)]
pub enum UnaryOp {
    Plus,
    Minus,
    Not,
    Complement,
    Deref,
    AddressOf,
}
