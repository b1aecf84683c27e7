//! The operations of a chain.

ghost use Rattle.std.specs.Prelude.{IsTrue, ◌↔◌};
ghost use Rattle.tree_same.specs.Lists.{AreSame};
ghost use Rattle.tree_same.specs.Same.{SameOperation};

use crate::root::same_expr;
use cxx_tree::Operation;

/// Whether two operations of a chain are the same, spans aside.
#[cycle(same)]
pub fn same_operation(tree: &Operation, other: &Operation) -> bool
    ensures { IsTrue result ↔ SameOperation tree.now other.now }
{
    let Operation::Operation(_, op, x) = tree;
    let Operation::Operation(_, other_op, y) = other;
    *op == *other_op && same_expr(x, y)
}

#[cycle(same)]
pub(crate) fn operations_same(operations: &[Operation], others: &[Operation]) -> bool
    ensures { IsTrue result ↔ AreSame SameOperation operations.now others.now }
{
    let mut rest = others;
    for x in operations {
        match rest.split_first() {
            Some((y, more)) => {
                if !same_operation(x, y) {
                    return false;
                }
                rest = more;
            }
            None => return false,
        }
    }
    rest.is_empty()
}
