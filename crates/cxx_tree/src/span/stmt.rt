//! The spans of statements.

ghost use Rattle.std.specs.Prelude.{◌≡◌};
ghost use Rattle.cxx_tree.specs.MoreSpans.{span_of_assign, span_of_body, span_of_value, span_of_stmt};

use crate::stmt::{AssignTree, BodyTree, InitTree, Stmt};
use cxx_base::Span;

impl Stmt {
    /// Where a statement stands.
    pub fn span(&self) -> Span
        ensures { result ≡ span_of_stmt self.now }
    {
        match self {
            Stmt::Empty(span)
            | Stmt::Expr(span, _)
            | Stmt::If(span, _, _, _)
            | Stmt::While(span, _, _)
            | Stmt::For(span, _, _)
            | Stmt::RangeFor(span, _, _)
            | Stmt::Return(span, _)
            | Stmt::Break(span)
            | Stmt::Continue(span) => *span,
            Stmt::Body(body) => body.span(),
            Stmt::Assert(assert) => assert.span,
            Stmt::Alias(alias) => alias.span,
            Stmt::Class(class) => class.get().span(),
            Stmt::Block(block) => block.span,
            Stmt::Local(local) => local.span,
            Stmt::Assign(assign) => assign.span(),
        }
    }
}

impl BodyTree {
    /// Where statements in braces stand, with the braces.
    pub fn span(&self) -> Span
        ensures { result ≡ span_of_body self.now }
    {
        let BodyTree::Body(span, _) = self;
        *span
    }
}

impl AssignTree {
    /// Where an assignment stands. As a statement it has a `;` behind it.
    pub fn span(&self) -> Span
        ensures { result ≡ span_of_assign self.now }
    {
        match self {
            AssignTree::Equal(span, _, _)
            | AssignTree::Compound(span, _, _, _)
            | AssignTree::Step(span, _, _) => *span,
        }
    }
}

impl InitTree {
    /// Where the value of an initializer stands, without the `=` before it.
    pub fn span(&self) -> Span
        ensures { result ≡ span_of_value self.now }
    {
        match self {
            InitTree::Equal(x) => x.span(),
            InitTree::EqualBraced(list) | InitTree::Braced(list) => list.span(),
        }
    }
}
