//! A tree that was read.

use crate::parts::Part;
use crate::piece::Piece;
use crate::print::Show;
use crate::same::{
    same_in_arguments, same_in_expressions, same_in_lists, same_in_names, same_in_types,
};
use crate::spans::{in_arguments, in_expression, in_list, in_name, in_type};
use cxx_base::Span;
use cxx_tree::{ArgTrees, BracedTree, Expr, NameTree, SpliceTree, TypeTree};
use std::alloc::AllocError;
use tree_same::same_splice;

/// A tree of a rule that is read by itself.
pub enum Shown {
    Expr(Expr),
    Type(TypeTree),
    Braced(BracedTree),
    Name(NameTree),
    Splice(SpliceTree),
    Args(ArgTrees),
}

impl Drop for Shown {
    fn drop(self) {
        match self {
            Shown::Expr(_) => {}
            Shown::Type(_) => {}
            Shown::Braced(_) => {}
            Shown::Name(_) => {}
            Shown::Splice(_) => {}
            Shown::Args(_) => {}
        }
    }
}

impl Shown {
    fn piece(&self) -> Piece<'_> {
        match self {
            Shown::Expr(x) => Piece::Expr(x),
            Shown::Type(of) => Piece::Type(of),
            Shown::Braced(list) => Piece::Braced(list),
            Shown::Name(name) => Piece::Name(name),
            Shown::Splice(splice) => Piece::Splice(splice),
            Shown::Args(args) => Piece::Args(args),
        }
    }

    /// The tree as a text.
    pub fn text(&self, show: Show<'_>) -> Result<String, AllocError> {
        show.print(self.piece())
    }

    /// Where a part stands, if there is one.
    pub fn span_of(&self, part: Part) -> Option<Span> {
        match self {
            Shown::Expr(x) => in_expression(part, x),
            Shown::Type(of) => in_type(part, of),
            Shown::Braced(list) => in_list(part, list),
            Shown::Name(name) => Some(in_name(part, name)),
            Shown::Splice(splice) => Some(splice.span()),
            Shown::Args(args) => in_arguments(part, args),
        }
    }

    /// Whether a part is the same as that of another tree of the same rule.
    pub fn is_same(&self, part: Part, other: &Shown) -> bool {
        match (self, other) {
            (Shown::Expr(x), Shown::Expr(y)) => same_in_expressions(part, x, y),
            (Shown::Type(x), Shown::Type(y)) => same_in_types(part, x, y),
            (Shown::Braced(x), Shown::Braced(y)) => same_in_lists(part, x, y),
            (Shown::Name(x), Shown::Name(y)) => same_in_names(part, x, y),
            (Shown::Splice(x), Shown::Splice(y)) => same_splice(x, y),
            (Shown::Args(x), Shown::Args(y)) => same_in_arguments(part, x, y),
            _ => false,
        }
    }
}
