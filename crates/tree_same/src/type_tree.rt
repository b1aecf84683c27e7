//! Types and splices.

ghost use Rattle.std.specs.Prelude.{IsTrue, ◌↔◌};
ghost use Rattle.tree_same.specs.Same.{SameBasic, SameSplice, SameType};

use crate::leaf::{marks_same, same_name};
use crate::root::same_expr;
use cxx_tree::{BasicTree, SpliceTree, TypeTree};

/// Whether two types are the same, spans aside.
#[cycle(same)]
pub fn same_type(tree: &TypeTree, other: &TypeTree) -> bool
    ensures { IsTrue result ↔ SameType tree.now other.now }
{
    let TypeTree::Type(_, is_const, basic, marks, is_reference) = tree;
    let TypeTree::Type(_, other_const, other_basic, other_marks, other_reference) = other;
    *is_const == *other_const
        && same_basic(basic, other_basic)
        && marks_same(marks.as_slice(), other_marks.as_slice())
        && *is_reference == *other_reference
}

/// Whether two types are made of the same, spans aside.
#[cycle(same)]
pub fn same_basic(tree: &BasicTree, other: &BasicTree) -> bool
    ensures { IsTrue result ↔ SameBasic tree.now other.now }
{
    match tree {
        BasicTree::Fund(_, fund) => match other {
            BasicTree::Fund(_, other_fund) => *fund == *other_fund,
            _ => false,
        },
        BasicTree::Name(name) => match other {
            BasicTree::Name(other_name) => same_name(name, other_name),
            _ => false,
        },
        BasicTree::Typename(_, splice) => match other {
            BasicTree::Typename(_, other_splice) => same_splice(splice, other_splice),
            _ => false,
        },
        BasicTree::Vector(_, name) => match other {
            BasicTree::Vector(_, other_name) => same_name(name, other_name),
            _ => false,
        },
    }
}

/// Whether two splices are the same, spans aside.
#[cycle(same)]
pub fn same_splice(tree: &SpliceTree, other: &SpliceTree) -> bool
    ensures { IsTrue result ↔ SameSplice tree.now other.now }
{
    let SpliceTree::Splice(_, x) = tree;
    let SpliceTree::Splice(_, y) = other;
    same_expr(x.get(), y.get())
}
