//! Arguments.

ghost use Rattle.std.specs.Prelude.{IsTrue, ◌↔◌};
ghost use Rattle.tree_same.specs.Lists.{AreSame};
ghost use Rattle.tree_same.specs.Same.{SameArg, SameArgs};

use crate::braced::same_braced;
use crate::root::same_expr;
use cxx_tree::{ArgTree, ArgTrees};

/// Whether two lists of arguments are the same, spans aside.
#[cycle(same)]
pub fn same_args(tree: &ArgTrees, other: &ArgTrees) -> bool
    ensures { IsTrue result ↔ SameArgs tree.now other.now }
{
    let ArgTrees::Args(_, args) = tree;
    let ArgTrees::Args(_, others) = other;
    args_same(args.as_slice(), others.as_slice())
}

/// Whether two arguments or clauses are the same, spans aside.
#[cycle(same)]
pub fn same_arg(tree: &ArgTree, other: &ArgTree) -> bool
    ensures { IsTrue result ↔ SameArg tree.now other.now }
{
    match tree {
        ArgTree::Expr(x) => match other {
            ArgTree::Expr(y) => same_expr(x, y),
            ArgTree::Braced(_) => false,
        },
        ArgTree::Braced(x) => match other {
            ArgTree::Expr(_) => false,
            ArgTree::Braced(y) => same_braced(x, y),
        },
    }
}

#[cycle(same)]
pub(crate) fn args_same(args: &[ArgTree], others: &[ArgTree]) -> bool
    ensures { IsTrue result ↔ AreSame SameArg args.now others.now }
{
    let mut rest = others;
    for x in args {
        match rest.split_first() {
            Some((y, more)) => {
                if !same_arg(x, y) {
                    return false;
                }
                rest = more;
            }
            None => return false,
        }
    }
    rest.is_empty()
}
