//! Heads of loops, and what is returned.

ghost use Rattle.std.specs.Prelude.{IsTrue, ◌↔◌};
ghost use Rattle.tree_same.specs.Lists.{AreSameIfAny};
ghost use Rattle.unit_same.specs.Parts.{SameForHead, SameForInit, SameForRange, SameForStep, SameReturned};

use crate::parts::{same_assign, same_local};
use containers::Boxed;
use cxx_tree::{ForHead, ForInit, ForRange, ForStep, Returned};
use tree_same::{same_braced, same_expr, same_expr_if_any, same_identifier, same_type};

/// Whether two returned values are the same, spans aside.
pub fn same_returned(tree: &Returned, other: &Returned) -> bool
    ensures { IsTrue result ↔ SameReturned tree.now other.now }
{
    match tree {
        Returned::Expr(x) => match other {
            Returned::Expr(other_x) => same_expr(x, other_x),
            _ => false,
        },
        Returned::Braced(list) => match other {
            Returned::Braced(other_list) => same_braced(list, other_list),
            _ => false,
        },
    }
}

/// Whether two heads of `for` are the same, spans aside.
pub fn same_for_head(tree: &ForHead, other: &ForHead) -> bool
    ensures { IsTrue result ↔ SameForHead tree.now other.now }
{
    same_for_init(tree.first.get(), other.first.get())
        && (same_expr_if_any(&tree.condition, &other.condition)
            && step_same_if_any(&tree.step, &other.step))
}

/// Whether two heads of `for` over a range are the same, spans aside.
pub fn same_for_range(tree: &ForRange, other: &ForRange) -> bool
    ensures { IsTrue result ↔ SameForRange tree.now other.now }
{
    same_type(tree.of_type.get(), other.of_type.get())
        && (same_identifier(&tree.name, &other.name)
            && same_expr(tree.over.get(), other.over.get()))
}

/// Whether two first statements of `for` are the same, spans aside.
pub fn same_for_init(tree: &ForInit, other: &ForInit) -> bool
    ensures { IsTrue result ↔ SameForInit tree.now other.now }
{
    match tree {
        ForInit::Local(local) => match other {
            ForInit::Local(other_local) => same_local(local, other_local),
            _ => false,
        },
        ForInit::Assign(assign) => match other {
            ForInit::Assign(other_assign) => same_assign(assign, other_assign),
            _ => false,
        },
        ForInit::Empty(_) => match other {
            ForInit::Empty(_) => true,
            _ => false,
        },
    }
}

/// Whether two steps of `for` are the same, spans aside.
pub fn same_for_step(tree: &ForStep, other: &ForStep) -> bool
    ensures { IsTrue result ↔ SameForStep tree.now other.now }
{
    match tree {
        ForStep::Assign(assign) => match other {
            ForStep::Assign(other_assign) => same_assign(assign, other_assign),
            _ => false,
        },
        ForStep::Expr(x) => match other {
            ForStep::Expr(other_x) => same_expr(x, other_x),
            _ => false,
        },
    }
}

fn step_same_if_any(tree: &Option<Boxed<ForStep>>, other: &Option<Boxed<ForStep>>) -> bool
    ensures { IsTrue result ↔ AreSameIfAny SameForStep tree.now other.now }
{
    match tree {
        Some(x) => match other {
            Some(y) => same_for_step(x.get(), y.get()),
            None => false,
        },
        None => match other {
            Some(_) => false,
            None => true,
        },
    }
}

pub(crate) fn returned_same_if_any(tree: &Option<Returned>, other: &Option<Returned>) -> bool
    ensures { IsTrue result ↔ AreSameIfAny SameReturned tree.now other.now }
{
    match tree {
        Some(x) => match other {
            Some(y) => same_returned(x, y),
            None => false,
        },
        None => match other {
            Some(_) => false,
            None => true,
        },
    }
}
