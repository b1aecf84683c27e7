//! The rules of a level, by the functions that read them.

ghost use Rattle.cxx_grammar.specs.Nesting.{read_nests};
ghost use Rattle.parse_nest.specs.Callables.{AreReaders};

use crate::nested::Nested;
use cxx_grammar::Within;
use cxx_reading::ExprFault;
use cxx_tokens::Tokens;
use cxx_tree::{Member, Stmt};
use std::alloc::Global;

/// What nests at a level, by functions that read it there. They are parameters, and not called by their names, so that each
/// parser is proved by itself, and only those that hand themselves on lead back to themselves.
#[derive(Clone, Copy)]
pub struct Level<'a, S, U, M> {
    pub alloc: Global,
    pub tokens: &'a Tokens,
    pub level: u32,
    pub stmt: S,
    pub sub: U,
    pub member: M,
}

impl<
    S: Fn(Global, &Tokens, u32, u32, Within) -> Result<(Stmt, u32), ExprFault> + Copy,
    U: Fn(Global, &Tokens, u32, u32, Within) -> Result<(Stmt, u32), ExprFault> + Copy,
    M: Fn(Global, &Tokens, u32, u32) -> Result<(Member, u32), ExprFault> + Copy,
> Nested for Level<'_, S, U, M> {
    ghost can = { λ f. AreReaders f.tokens.now f.level (S.pre f.stmt) (S.post f.stmt) (U.pre f.sub) (U.post f.sub) (M.pre f.member) (M.post f.member) };

    ghost nests = { λ f. read_nests f.tokens.now f.level };

    fn stmt(&self, at: u32, within: Within) -> Result<(Stmt, u32), ExprFault> {
        (self.stmt)(self.alloc, self.tokens, at, self.level, within)
    }

    fn sub(&self, at: u32, within: Within) -> Result<(Stmt, u32), ExprFault> {
        (self.sub)(self.alloc, self.tokens, at, self.level, within)
    }

    fn member(&self, at: u32) -> Result<(Member, u32), ExprFault> {
        (self.member)(self.alloc, self.tokens, at, self.level)
    }
}
