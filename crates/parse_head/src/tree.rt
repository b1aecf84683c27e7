//! The head of a `for` of either form.

ghost use Rattle.std.specs.Prelude.{◌≡◌};
ghost use Rattle.parse_head.specs.Turned as spec;

use containers::Boxed;
use cxx_base::Span;
use cxx_tree::{ForHead, ForRange, Stmt};

/// The head of a `for` ([stmt.for]), or of one over a range ([stmt.ranged]).
pub enum HeadTree {
    For(ForHead),
    Range(ForRange),
}

impl Drop for HeadTree {
    fn drop(self) {
        match self {
            HeadTree::For(_) => {}
            HeadTree::Range(_) => {}
        }
    }
}

impl HeadTree {
    /// The statement whose head it is, with its tokens and what is repeated.
    pub fn into_stmt(self, span: Span, turn: Boxed<Stmt>) -> Stmt
        ensures { result ≡ spec.statement_of span self turn }
    {
        match self {
            HeadTree::For(x) => Stmt::For(span, x, turn),
            HeadTree::Range(x) => Stmt::RangeFor(span, x, turn),
        }
    }
}
