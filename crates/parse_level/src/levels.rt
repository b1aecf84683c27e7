//! The functions of a level.

ghost use Rattle.parse_level.specs.Readable.{ReadsLevel};

use crate::deeper::Deeper;
use cxx_grammar::SizedOperand;
use cxx_reading::ExprFault;
use cxx_tokens::Tokens;
use cxx_tree::{BracedTree, Expr, TypeTree};
use std::alloc::Global;

/// Functions that read the rules of a level, each from the allocator, the tokens, the number of the token to begin at, and the level.
#[derive(Clone, Copy)]
pub struct Levels<E, B, U, T, S> {
    pub expr: E,
    pub braced: B,
    pub unary: U,
    pub type_tree: T,
    pub sized: S,
}

impl<
    E: Fn(Global, &Tokens, u32, u32) -> Result<(Expr, u32), ExprFault>,
    B: Fn(Global, &Tokens, u32, u32) -> Result<(BracedTree, u32), ExprFault>,
    U: Fn(Global, &Tokens, u32, u32) -> Result<(Expr, u32), ExprFault>,
    T: Fn(Global, &Tokens, u32, u32) -> Result<(TypeTree, u32), ExprFault>,
    S: Fn(Global, &Tokens, u32, u32) -> Result<(SizedOperand, u32), ExprFault>,
> Deeper for Levels<E, B, U, T, S> {
    ghost ready = { λ levels tokens level. ReadsLevel tokens level (E.pre levels.expr) (E.post levels.expr) (B.pre levels.braced) (B.post levels.braced) (U.pre levels.unary) (U.post levels.unary) (T.pre levels.type_tree) (T.post levels.type_tree) (S.pre levels.sized) (S.post levels.sized) };

    fn expr(
        &self,
        alloc: Global,
        tokens: &Tokens,
        at: u32,
        level: u32,
    ) -> Result<(Expr, u32), ExprFault> {
        (self.expr)(alloc, tokens, at, level)
    }

    fn braced(
        &self,
        alloc: Global,
        tokens: &Tokens,
        at: u32,
        level: u32,
    ) -> Result<(BracedTree, u32), ExprFault> {
        (self.braced)(alloc, tokens, at, level)
    }

    fn unary(
        &self,
        alloc: Global,
        tokens: &Tokens,
        at: u32,
        level: u32,
    ) -> Result<(Expr, u32), ExprFault> {
        (self.unary)(alloc, tokens, at, level)
    }

    fn type_tree(
        &self,
        alloc: Global,
        tokens: &Tokens,
        at: u32,
        level: u32,
    ) -> Result<(TypeTree, u32), ExprFault> {
        (self.type_tree)(alloc, tokens, at, level)
    }

    fn sized(
        &self,
        alloc: Global,
        tokens: &Tokens,
        at: u32,
        level: u32,
    ) -> Result<(SizedOperand, u32), ExprFault> {
        (self.sized)(alloc, tokens, at, level)
    }
}
