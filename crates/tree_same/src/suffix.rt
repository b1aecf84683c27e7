//! The suffixes of a postfix expression.

ghost use Rattle.std.specs.Prelude.{IsTrue, ◌↔◌};
ghost use Rattle.tree_same.specs.Lists.{AreSame};
ghost use Rattle.tree_same.specs.Same.{SameSuffix};

use crate::args::same_args;
use crate::leaf::same_identifier;
use crate::root::same_expr;
use crate::type_tree::same_splice;
use cxx_tree::Suffix;

/// Whether two suffixes are the same, spans aside.
#[cycle(same)]
pub fn same_suffix(tree: &Suffix, other: &Suffix) -> bool
    ensures { IsTrue result ↔ SameSuffix tree.now other.now }
{
    match tree {
        Suffix::Call(args) => match other {
            Suffix::Call(other_args) => same_args(args, other_args),
            _ => false,
        },
        Suffix::Subscript(_, x) => match other {
            Suffix::Subscript(_, y) => same_expr(x.get(), y.get()),
            _ => false,
        },
        Suffix::Member(_, arrow, name) => match other {
            Suffix::Member(_, other_arrow, other_name) => *arrow == *other_arrow
                && same_identifier(name, other_name),
            _ => false,
        },
        Suffix::MemberSplice(_, arrow, splice) => match other {
            Suffix::MemberSplice(_, other_arrow, other_splice) => {
                *arrow == *other_arrow && same_splice(splice, other_splice)
            }
            _ => false,
        },
    }
}

#[cycle(same)]
pub(crate) fn suffixes_same(suffixes: &[Suffix], others: &[Suffix]) -> bool
    ensures { IsTrue result ↔ AreSame SameSuffix suffixes.now others.now }
{
    let mut rest = others;
    for x in suffixes {
        match rest.split_first() {
            Some((y, more)) => {
                if !same_suffix(x, y) {
                    return false;
                }
                rest = more;
            }
            None => return false,
        }
    }
    rest.is_empty()
}
