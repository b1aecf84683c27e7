//! Bases, and member initializers.

ghost use Rattle.std.specs.Prelude.{IsTrue, ◌↔◌, ◌≡◌};
ghost use Rattle.tree_same.specs.Lists.{AreSame};
ghost use Rattle.unit_same.specs.Parts.{SameBase, SameBased, SameMemberInit, SameMemberValue};

use cxx_tree::{Access, BaseTree, BasedTree, MemberInit, MemberInitValue};
use tree_same::{same_args, same_braced, same_name, same_splice};

/// Whether two bases are the same, spans aside.
pub fn same_base(tree: &BaseTree, other: &BaseTree) -> bool
    ensures { IsTrue result ↔ SameBase tree.now other.now }
{
    access_same(tree.access, other.access) && same_based(&tree.of, &other.of)
}

/// Whether two names or splices of a base are the same, spans aside.
pub fn same_based(tree: &BasedTree, other: &BasedTree) -> bool
    ensures { IsTrue result ↔ SameBased tree.now other.now }
{
    match tree {
        BasedTree::Name(name) => match other {
            BasedTree::Name(other_name) => same_name(name, other_name),
            _ => false,
        },
        BasedTree::Splice(splice) => match other {
            BasedTree::Splice(other_splice) => same_splice(splice, other_splice),
            _ => false,
        },
        BasedTree::Typename(_, splice) => match other {
            BasedTree::Typename(_, other_splice) => same_splice(splice, other_splice),
            _ => false,
        },
    }
}

/// Whether two member initializers are the same, spans aside.
pub fn same_member_init(tree: &MemberInit, other: &MemberInit) -> bool
    ensures { IsTrue result ↔ SameMemberInit tree.now other.now }
{
    same_name(&tree.name, &other.name) && same_member_value(&tree.value, &other.value)
}

/// Whether two values of member initializers are the same, spans aside.
pub fn same_member_value(tree: &MemberInitValue, other: &MemberInitValue) -> bool
    ensures { IsTrue result ↔ SameMemberValue tree.now other.now }
{
    match tree {
        MemberInitValue::Args(args) => match other {
            MemberInitValue::Args(other_args) => same_args(args, other_args),
            _ => false,
        },
        MemberInitValue::Braced(list) => match other {
            MemberInitValue::Braced(other_list) => same_braced(list, other_list),
            _ => false,
        },
    }
}

pub(crate) fn bases_same(bases: &[BaseTree], others: &[BaseTree]) -> bool
    ensures { IsTrue result ↔ AreSame SameBase bases.now others.now }
{
    let mut rest = others;
    for x in bases {
        match rest.split_first() {
            Some((y, more)) => {
                if !same_base(x, y) {
                    return false;
                }
                rest = more;
            }
            None => return false,
        }
    }
    rest.is_empty()
}

pub(crate) fn member_inits_same(member_inits: &[MemberInit], others: &[MemberInit]) -> bool
    ensures { IsTrue result ↔ AreSame SameMemberInit member_inits.now others.now }
{
    let mut rest = others;
    for x in member_inits {
        match rest.split_first() {
            Some((y, more)) => {
                if !same_member_init(x, y) {
                    return false;
                }
                rest = more;
            }
            None => return false,
        }
    }
    rest.is_empty()
}

fn access_same(access: Option<Access>, other: Option<Access>) -> bool
    ensures { IsTrue result ↔ (access ≡ other) }
{
    access == other
}
