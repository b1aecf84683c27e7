//! Binary operators with their precedence.

use cxx_tree::BinaryOp;

/// A binary operator, and its line of precedence: 0 for `* / %`, which bind most, to 9 for `||`.
#[derive(Clone, Copy, Debug, PartialEq, Eq)]
pub struct Operator {
    pub line: u32,
    pub op: BinaryOp,
}
