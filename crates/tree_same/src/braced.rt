//! Braced lists.

ghost use Rattle.std.specs.Prelude.{IsTrue, ◌↔◌};
ghost use Rattle.tree_same.specs.Lists.{AreSame};
ghost use Rattle.tree_same.specs.Same.{SameBraced, SameDesignator, SameNewInit};

use crate::args::{args_same, same_arg, same_args};
use crate::leaf::same_identifier;
use cxx_tree::{BracedTree, Designator, NewInit};

/// Whether two braced lists are the same, spans aside.
#[cycle(same)]
pub fn same_braced(tree: &BracedTree, other: &BracedTree) -> bool
    ensures { IsTrue result ↔ SameBraced tree.now other.now }
{
    match tree {
        BracedTree::Clauses(_, clauses) => match other {
            BracedTree::Clauses(_, others) => args_same(clauses.as_slice(), others.as_slice()),
            BracedTree::Designated(_, _) => false,
        },
        BracedTree::Designated(_, clauses) => match other {
            BracedTree::Clauses(_, _) => false,
            BracedTree::Designated(_, others) => designators_same(
                clauses.as_slice(),
                others.as_slice(),
            ),
        },
    }
}

/// Whether two clauses with a designator are the same, spans aside.
#[cycle(same)]
pub fn same_designator(tree: &Designator, other: &Designator) -> bool
    ensures { IsTrue result ↔ SameDesignator tree.now other.now }
{
    match tree {
        Designator::Equal(_, name, x) => match other {
            Designator::Equal(_, named, y) => same_identifier(name, named) && same_arg(x, y),
            Designator::Braced(_, _, _) => false,
        },
        Designator::Braced(_, name, x) => match other {
            Designator::Equal(_, _, _) => false,
            Designator::Braced(_, named, y) => same_identifier(name, named) && same_braced(x, y),
        },
    }
}

#[cycle(same)]
fn designators_same(clauses: &[Designator], others: &[Designator]) -> bool
    ensures { IsTrue result ↔ AreSame SameDesignator clauses.now others.now }
{
    let mut rest = others;
    for x in clauses {
        match rest.split_first() {
            Some((y, more)) => {
                if !same_designator(x, y) {
                    return false;
                }
                rest = more;
            }
            None => return false,
        }
    }
    rest.is_empty()
}

/// Whether two initializers of `new` are the same, spans aside.
#[cycle(same)]
pub fn same_new_init(tree: &NewInit, other: &NewInit) -> bool
    ensures { IsTrue result ↔ SameNewInit tree.now other.now }
{
    match tree {
        NewInit::Args(x) => match other {
            NewInit::Args(y) => same_args(x, y),
            NewInit::Braced(_) => false,
        },
        NewInit::Braced(x) => match other {
            NewInit::Args(_) => false,
            NewInit::Braced(y) => same_braced(x, y),
        },
    }
}
