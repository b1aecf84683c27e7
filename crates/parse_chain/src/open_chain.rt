//! Chains that are open.

ghost use Rattle.std.specs.Prelude.{◌≡◌, ◌++◌, ◌∷◌, [], IfOk};

use containers::{Boxed, Items};
use cxx_grammar::Operator;
use cxx_reading::{push, span};
use cxx_tokens::Tokens;
use cxx_tree::{BinaryOp, Expr, Operation};
use std::alloc::{AllocError, Global};

/// A chain of operators of one line whose last operator stands, while the operand behind it is read.
pub struct OpenChain {
    /// The line of precedence of its operators.
    pub line: u32,
    /// The number of its first token.
    pub start: u32,
    pub first: Boxed<Expr>,
    /// The operations before the last operator.
    pub done: Items<Operation>,
    /// The last operator.
    pub op: BinaryOp,
    /// The number of its token.
    pub begin: u32,
}

impl Drop for OpenChain {
    fn drop(self) {
        let OpenChain {
            line: _,
            start: _,
            first: _,
            done: _,
            op: _,
            begin: _,
        } = self;
    }
}

/// The chains that are open, at least one. The innermost is apart from those around it, so that one alone takes no list.
pub struct OpenChains {
    pub outer: Items<OpenChain>,
    pub inner: OpenChain,
}

impl Drop for OpenChains {
    fn drop(self) {
        let OpenChains { outer: _, inner: _ } = self;
    }
}

impl OpenChains {
    ghost use Rattle.parse_chain.specs.Chains.{all};

    /// The chains around the innermost, and it.
    #[inline(always)]
    pub fn parts(self) -> (Items<OpenChain>, OpenChain)
        ensures { all self ≡ result.0 ++ result.1 ∷ [] }
    {
        let OpenChains { outer, inner } = self;
        (outer, inner)
    }
}

// The operations so far. Where there are none, a second one is sure to follow the first, so there is room for two.
fn with_room(alloc: Global, done: Items<Operation>) -> Result<Items<Operation>, AllocError>
    ensures { IfOk result (λ after. after ≡ done) }
{
    if done.is_empty() {
        Ok(Items::from_vec(Vec::with_capacity(alloc, 2)?))
    } else {
        Ok(done)
    }
}

impl OpenChain {
    ghost use Rattle.parse_chain.specs.Chains as spec;

    /// A chain that begins with an operand, which began at `start`, and the operator at token number `begin`.
    #[inline(always)]
    pub fn new(
        alloc: Global,
        operator: Operator,
        start: u32,
        x: Expr,
        begin: u32,
    ) -> Result<OpenChain, AllocError>
        ensures { IfOk result (λ chain. chain ≡ spec.opened operator start x begin) }
    {
        let first = Boxed::new(alloc, x)?;
        Ok(OpenChain {
            line: operator.line,
            start,
            first,
            done: Items::new(alloc),
            op: operator.op,
            begin,
        })
    }

    /// The chain with its operand, which ends before token number `end`, and a further operator of its line, which stands there.
    #[inline(always)]
    pub fn extended(
        self,
        alloc: Global,
        tokens: &Tokens,
        x: Expr,
        op: BinaryOp,
        end: u32,
    ) -> Result<OpenChain, AllocError>
        ensures { IfOk result (λ chain. chain ≡ spec.extended tokens.now self x op end) }
    {
        let OpenChain {
            line,
            start,
            first,
            done,
            op: last,
            begin,
        } = self;
        let operation = Operation::Operation(span(tokens, begin, end), last, x);
        let mut done = with_room(alloc, done)?;
        done.push(operation)?;
        Ok(OpenChain {
            line,
            start,
            first,
            done,
            op,
            begin: end,
        })
    }

    /// The whole chain with its last operand, which ends before token number `end`.
    #[inline(always)]
    pub fn closed(
        self,
        alloc: Global,
        tokens: &Tokens,
        x: Expr,
        end: u32,
    ) -> Result<Expr, AllocError>
        ensures { IfOk result (λ made. made ≡ spec.closed tokens.now self x end) }
    {
        let OpenChain {
            line: _,
            start,
            first,
            mut done,
            op,
            begin,
        } = self;
        let operation = Operation::Operation(span(tokens, begin, end), op, x);
        push(alloc, &mut done, operation)?;
        Ok(Expr::Chain(span(tokens, start, end), first, done))
    }
}
