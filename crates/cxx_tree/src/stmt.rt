//! Statements.

use crate::decl::{AliasTree, AssertTree, BlockTree, ClassTree};
use crate::expr::{ArgTree, BracedTree, Expr, TypeTree};
use crate::identifier::Identifier;
use containers::{Boxed, Items};
use cxx_base::{IntOp, Span};

/// A statement ([stmt]). The large parts of its forms are boxed in the types of these forms, so that a short statement is not
/// as large as the largest.
#[cycle(statement)]
pub enum Stmt {
    Body(BodyTree),
    /// `;`
    Empty(Span),
    Assert(AssertTree),
    Alias(AliasTree),
    /// A class in the body of a function.
    Class(Boxed<ClassTree>),
    /// A block in the body of a function.
    Block(BlockTree),
    Local(LocalTree),
    Assign(AssignTree),
    Expr(Span, Expr),
    /// The condition, the statement where it holds, and the one behind `else`.
    If(Span, Expr, Boxed<Stmt>, Option<Boxed<Stmt>>),
    While(Span, Expr, Boxed<Stmt>),
    /// The head, and the statement that is repeated.
    For(Span, ForHead, Boxed<Stmt>),
    /// `for ( type identifier : expr ) stmt`
    RangeFor(Span, ForRange, Boxed<Stmt>),
    Return(Span, Option<Returned>),
    Break(Span),
    Continue(Span),
}

impl Drop for Stmt {
    #[cycle(dropping_statement)]
    fn drop(self) {
        match self {
            Stmt::Body(_) => {}
            Stmt::Empty(_) => {}
            Stmt::Assert(_) => {}
            Stmt::Alias(_) => {}
            Stmt::Class(_) => {}
            Stmt::Block(_) => {}
            Stmt::Local(_) => {}
            Stmt::Assign(_) => {}
            Stmt::Expr(_, _) => {}
            Stmt::If(_, _, _, _) => {}
            Stmt::While(_, _, _) => {}
            Stmt::For(_, _, _) => {}
            Stmt::RangeFor(_, _, _) => {}
            Stmt::Return(_, _) => {}
            Stmt::Break(_) => {}
            Stmt::Continue(_) => {}
        }
    }
}

/// Statements in braces ([stmt.block]).
#[cycle(statement)]
pub enum BodyTree {
    Body(Span, Items<Stmt>),
}

impl Drop for BodyTree {
    #[cycle(dropping_statement)]
    fn drop(self) {
        let BodyTree::Body(_, _) = self;
    }
}

/// What `return` gives ([stmt.return]).
pub enum Returned {
    Expr(Expr),
    Braced(BracedTree),
}

impl Drop for Returned {
    fn drop(self) {
        match self {
            Returned::Expr(_) => {}
            Returned::Braced(_) => {}
        }
    }
}

/// The head of a `for` ([stmt.for]): its first statement, its condition, and what it does after each turn.
pub struct ForHead {
    pub first: Boxed<ForInit>,
    pub condition: Option<Boxed<Expr>>,
    pub step: Option<Boxed<ForStep>>,
}

impl Drop for ForHead {
    fn drop(self) {
        let ForHead {
            first: _,
            condition: _,
            step: _,
        } = self;
    }
}

/// The head of a `for` over a range ([stmt.ranged]): the type and the name of the element, and what is gone over.
pub struct ForRange {
    pub of_type: Boxed<TypeTree>,
    pub name: Identifier,
    pub over: Boxed<Expr>,
}

impl Drop for ForRange {
    fn drop(self) {
        let ForRange {
            of_type: _,
            name: _,
            over: _,
        } = self;
    }
}

/// The first statement in the head of a `for` ([stmt.for]).
pub enum ForInit {
    Local(LocalTree),
    Assign(AssignTree),
    Empty(Span),
}

impl Drop for ForInit {
    fn drop(self) {
        match self {
            ForInit::Local(_) => {}
            ForInit::Assign(_) => {}
            ForInit::Empty(_) => {}
        }
    }
}

/// What a `for` does after each turn.
#[derive(Drop)]
pub enum ForStep {
    Assign(AssignTree),
    Expr(Expr),
}

/// A variable in a body: whether it is constexpr, its type, its bounds from left to right, of which a first one may be
/// empty, and its initializer.
pub struct LocalTree {
    pub span: Span,
    pub is_constexpr: bool,
    pub of_type: Boxed<TypeTree>,
    pub name: Identifier,
    pub bounds: Items<BoundTree>,
    pub init: Option<Boxed<InitTree>>,
}

impl Drop for LocalTree {
    fn drop(self) {
        let LocalTree {
            span: _,
            is_constexpr: _,
            of_type: _,
            name: _,
            bounds: _,
            init: _,
        } = self;
    }
}

/// `[ expr ]` of a declarator ([dcl.array]), or `[ ]`.
pub struct BoundTree {
    pub span: Span,
    pub length: Option<Expr>,
}

impl Drop for BoundTree {
    fn drop(self) {
        let BoundTree { span: _, length: _ } = self;
    }
}

/// An initializer ([dcl.init]): `= expr`, `= braced`, or `braced`.
pub enum InitTree {
    Equal(Expr),
    EqualBraced(BracedTree),
    Braced(BracedTree),
}

impl Drop for InitTree {
    fn drop(self) {
        match self {
            InitTree::Equal(_) => {}
            InitTree::EqualBraced(_) => {}
            InitTree::Braced(_) => {}
        }
    }
}

/// An assignment ([expr.assign]). It is no expression here.
pub enum AssignTree {
    /// `unary = expr` or `unary = braced`
    Equal(Span, Expr, Boxed<ArgTree>),
    /// `unary OP= expr`
    Compound(Span, IntOp, Expr, Boxed<Expr>),
    /// `++ unary`, `-- unary`, `unary ++` or `unary --`.
    Step(Span, StepOp, Expr),
}

impl Drop for AssignTree {
    fn drop(self) {
        match self {
            AssignTree::Equal(_, _, _) => {}
            AssignTree::Compound(_, _, _, _) => {}
            AssignTree::Step(_, _, _) => {}
        }
    }
}

/// Adds or takes away one ([expr.pre.incr], [expr.post.incr]).
#[derive(Clone, Copy, Debug, PartialEq, Eq)]
pub enum StepOp {
    PreIncrement,
    PreDecrement,
    PostIncrement,
    PostDecrement,
}
