//! Parts of statements and declarations.

ghost use Rattle.std.specs.Prelude.{IsTrue, ◌↔◌};
ghost use Rattle.tree_same.specs.Lists.{AreSame, AreSameIfAny};
ghost use Rattle.tree_same.specs.Same.{Same};
ghost use Rattle.unit_same.specs.Parts.{SameAlias, SameAliased, SameAssert, SameAssign, SameBoundTree, SameInitTree, SameLocal};

use containers::Boxed;
use cxx_tree::{
    AliasTree, AliasedTree, AssertTree, AssignTree, BoundTree, Expr, InitTree, LocalTree,
};
use tree_same::{same_arg, same_braced, same_expr, same_identifier, same_splice, same_type};

/// Whether two static assertions are the same, spans aside.
pub fn same_assert(tree: &AssertTree, other: &AssertTree) -> bool
    ensures { IsTrue result ↔ SameAssert tree.now other.now }
{
    same_expr(tree.condition.get(), other.condition.get())
        && tree.message.is_some() == other.message.is_some()
}

/// Whether two aliases are the same, spans aside.
pub fn same_alias(tree: &AliasTree, other: &AliasTree) -> bool
    ensures { IsTrue result ↔ SameAlias tree.now other.now }
{
    same_identifier(&tree.name, &other.name) && same_aliased(&tree.of, &other.of)
}

/// Whether two types or splices behind an alias are the same, spans aside.
pub fn same_aliased(tree: &AliasedTree, other: &AliasedTree) -> bool
    ensures { IsTrue result ↔ SameAliased tree.now other.now }
{
    match tree {
        AliasedTree::Type(of) => match other {
            AliasedTree::Type(other_of) => same_type(of.get(), other_of.get()),
            _ => false,
        },
        AliasedTree::Splice(splice) => match other {
            AliasedTree::Splice(other_splice) => same_splice(splice, other_splice),
            _ => false,
        },
    }
}

/// Whether two local variables are the same, spans aside.
pub fn same_local(tree: &LocalTree, other: &LocalTree) -> bool
    ensures { IsTrue result ↔ SameLocal tree.now other.now }
{
    tree.is_constexpr == other.is_constexpr
        && (same_type(tree.of_type.get(), other.of_type.get())
            && (same_identifier(&tree.name, &other.name)
                && (bounds_same(tree.bounds.as_slice(), other.bounds.as_slice())
                    && init_same_if_any(&tree.init, &other.init))))
}

/// Whether two bounds are the same, spans aside.
pub fn same_bound(tree: &BoundTree, other: &BoundTree) -> bool
    ensures { IsTrue result ↔ SameBoundTree tree.now other.now }
{
    value_same_if_any(&tree.length, &other.length)
}

/// Whether two initializers are the same, spans aside.
pub fn same_init(tree: &InitTree, other: &InitTree) -> bool
    ensures { IsTrue result ↔ SameInitTree tree.now other.now }
{
    match tree {
        InitTree::Equal(x) => match other {
            InitTree::Equal(other_x) => same_expr(x, other_x),
            _ => false,
        },
        InitTree::EqualBraced(list) => match other {
            InitTree::EqualBraced(other_list) => same_braced(list, other_list),
            _ => false,
        },
        InitTree::Braced(list) => match other {
            InitTree::Braced(other_list) => same_braced(list, other_list),
            _ => false,
        },
    }
}

/// Whether two assignments are the same, spans aside.
pub fn same_assign(tree: &AssignTree, other: &AssignTree) -> bool
    ensures { IsTrue result ↔ SameAssign tree.now other.now }
{
    match tree {
        AssignTree::Equal(_, x, value) => match other {
            AssignTree::Equal(_, other_x, other_value) => same_expr(x, other_x)
                && same_arg(value.get(), other_value.get()),
            _ => false,
        },
        AssignTree::Compound(_, op, x, x2) => match other {
            AssignTree::Compound(_, other_op, other_x, other_x2) => *op == *other_op
                && (same_expr(x, other_x) && same_expr(x2.get(), other_x2.get())),
            _ => false,
        },
        AssignTree::Step(_, op, x) => match other {
            AssignTree::Step(_, other_op, other_x) => *op == *other_op && same_expr(x, other_x),
            _ => false,
        },
    }
}

pub(crate) fn bounds_same(bounds: &[BoundTree], others: &[BoundTree]) -> bool
    ensures { IsTrue result ↔ AreSame SameBoundTree bounds.now others.now }
{
    let mut rest = others;
    for x in bounds {
        match rest.split_first() {
            Some((y, more)) => {
                if !same_bound(x, y) {
                    return false;
                }
                rest = more;
            }
            None => return false,
        }
    }
    rest.is_empty()
}

pub(crate) fn value_same_if_any(tree: &Option<Expr>, other: &Option<Expr>) -> bool
    ensures { IsTrue result ↔ AreSameIfAny Same tree.now other.now }
{
    match tree {
        Some(x) => match other {
            Some(y) => same_expr(x, y),
            None => false,
        },
        None => match other {
            Some(_) => false,
            None => true,
        },
    }
}

pub(crate) fn init_same_if_any(
    tree: &Option<Boxed<InitTree>>,
    other: &Option<Boxed<InitTree>>,
) -> bool
    ensures { IsTrue result ↔ AreSameIfAny SameInitTree tree.now other.now }
{
    match tree {
        Some(x) => match other {
            Some(y) => same_init(x.get(), y.get()),
            None => false,
        },
        None => match other {
            Some(_) => false,
            None => true,
        },
    }
}
