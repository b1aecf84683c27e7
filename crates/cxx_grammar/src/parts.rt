//! Parts of forms that are no trees.

use cxx_tree::{Expr, TypeTree};

/// The second and the third operand of `?:`.
#[derive(Drop)]
pub struct Arms {
    pub on_true: Expr,
    pub on_false: Expr,
}

/// The operand of `sizeof ( )`.
#[derive(Drop)]
pub enum SizedOperand {
    Type(TypeTree),
    Expr(Expr),
}
