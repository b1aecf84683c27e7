//! The spans of trees.

ghost use Rattle.std.specs.Prelude.{◌≡◌};
ghost use Rattle.cxx_tree.specs.Spans.{span_of, span_of_arg, span_of_args, span_of_basic, span_of_braced, span_of_designator, span_of_init, span_of_operation, span_of_splice, span_of_suffix, span_of_type};

mod decl;
mod stmt;

use crate::expr::{
    ArgTree, ArgTrees, BasicTree, BracedTree, Designator, Expr, NewInit, Operation, SpliceTree,
    Suffix, TypeTree,
};
use cxx_base::Span;

impl Expr {
    /// Where an expression stands.
    pub fn span(&self) -> Span
        ensures { result ≡ span_of self.now }
    {
        match self {
            Expr::Integer(span, _)
            | Expr::Character(span, _)
            | Expr::Text(span, _)
            | Expr::Truth(span, _)
            | Expr::Nullptr(span)
            | Expr::This(span)
            | Expr::Paren(span, _)
            | Expr::Braced(span, _, _)
            | Expr::FundCall(span, _, _)
            | Expr::TypenameCall(span, _, _)
            | Expr::StaticCast(span, _, _)
            | Expr::Extract(span, _, _, _)
            | Expr::Postfix(span, _, _)
            | Expr::Unary(span, _, _)
            | Expr::ReflectGlobal(span)
            | Expr::Reflect(span, _)
            | Expr::SizeofType(span, _)
            | Expr::SizeofExpr(span, _)
            | Expr::Delete(span, _, _)
            | Expr::New(span, _, _, _)
            | Expr::Chain(span, _, _)
            | Expr::Conditional(span, _, _, _) => *span,
            Expr::Name(name) => name.span,
            Expr::Splice(splice) => splice.span(),
        }
    }
}

impl Operation {
    /// Where an operator and the operand behind it stand.
    pub fn span(&self) -> Span
        ensures { result ≡ span_of_operation self.now }
    {
        let Operation::Operation(span, _, _) = self;
        *span
    }
}

impl Suffix {
    /// Where a suffix stands.
    pub fn span(&self) -> Span
        ensures { result ≡ span_of_suffix self.now }
    {
        match self {
            Suffix::Call(args) => args.span(),
            Suffix::Subscript(span, _)
            | Suffix::Member(span, _, _)
            | Suffix::MemberSplice(span, _, _) => *span,
        }
    }
}

impl NewInit {
    /// Where the initializer of `new` stands.
    pub fn span(&self) -> Span
        ensures { result ≡ span_of_init self.now }
    {
        match self {
            NewInit::Args(args) => args.span(),
            NewInit::Braced(list) => list.span(),
        }
    }
}

impl SpliceTree {
    /// Where a splice stands.
    pub fn span(&self) -> Span
        ensures { result ≡ span_of_splice self.now }
    {
        let SpliceTree::Splice(span, _) = self;
        *span
    }
}

impl TypeTree {
    /// Where a type stands.
    pub fn span(&self) -> Span
        ensures { result ≡ span_of_type self.now }
    {
        let TypeTree::Type(span, _, _, _, _) = self;
        *span
    }
}

impl BasicTree {
    /// Where what a type is made of stands.
    pub fn span(&self) -> Span
        ensures { result ≡ span_of_basic self.now }
    {
        match self {
            BasicTree::Fund(span, _) | BasicTree::Typename(span, _) | BasicTree::Vector(span, _) =>
                *span,
            BasicTree::Name(name) => name.span,
        }
    }
}

impl BracedTree {
    /// Where a braced list stands.
    pub fn span(&self) -> Span
        ensures { result ≡ span_of_braced self.now }
    {
        match self {
            BracedTree::Clauses(span, _) | BracedTree::Designated(span, _) => *span,
        }
    }
}

impl Designator {
    /// Where a clause with a designator stands.
    pub fn span(&self) -> Span
        ensures { result ≡ span_of_designator self.now }
    {
        match self {
            Designator::Equal(span, _, _) | Designator::Braced(span, _, _) => *span,
        }
    }
}

impl ArgTrees {
    /// Where arguments stand, with their parentheses.
    pub fn span(&self) -> Span
        ensures { result ≡ span_of_args self.now }
    {
        let ArgTrees::Args(span, _) = self;
        *span
    }
}

impl ArgTree {
    /// Where an argument or a clause stands.
    pub fn span(&self) -> Span
        ensures { result ≡ span_of_arg self.now }
    {
        match self {
            ArgTree::Expr(x) => x.span(),
            ArgTree::Braced(list) => list.span(),
        }
    }
}
