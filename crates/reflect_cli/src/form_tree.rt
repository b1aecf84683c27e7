//! The trees of the accepted form.

use containers::Items;
use cxx_base::{IntOp, Name, Place};

/// An integer literal ([lex.icon]) of type `int`.
#[derive(Clone, Copy, Debug)]
pub struct Literal {
    pub place: Place,
    pub value: i32,
}

/// The operators of [expr.mul] and [expr.add].
#[derive(Clone, Copy, Debug)]
pub enum Arithmetic {
    Add,
    Sub,
    Mul,
    Div,
    Rem,
}

/// An operator and the operand on its right.
#[derive(Debug)]
pub struct Link<T> {
    pub operator: Arithmetic,
    pub operand: T,
}

impl<T: Drop> Drop for Link<T> {
    fn drop(self) {
        let Link {
            operator: _,
            operand: _,
        } = self;
    }
}

/// Operands joined by operators of one precedence, which group to the left.
#[derive(Debug)]
pub struct Chain<T> {
    pub first: T,
    pub rest: Items<Link<T>>,
}

impl<T: Drop> Drop for Chain<T> {
    fn drop(self) {
        let Chain { first: _, rest: _ } = self;
    }
}

/// A multiplicative-expression ([expr.mul]).
pub type Product = Chain<Literal>;

/// An additive-expression ([expr.add]).
pub type Sum = Chain<Product>;

/// A declaration `constexpr int NAME = SUM;` ([dcl.constexpr]).
#[derive(Debug)]
pub struct Declaration {
    pub name: Name,
    pub initializer: Sum,
}

impl Drop for Declaration {
    fn drop(self) {
        let Declaration {
            name: _,
            initializer: _,
        } = self;
    }
}
