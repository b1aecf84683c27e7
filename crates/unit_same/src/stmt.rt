//! Statements.

ghost use Rattle.std.specs.Prelude.{IsTrue, ◌↔◌};
ghost use Rattle.tree_same.specs.Lists.{AreSame, AreSameIfAny};
ghost use Rattle.unit_same.specs.Statements.{SameBlock, SameBody, SameStmt};

use crate::class::same_class;
use crate::heads::{returned_same_if_any, same_for_head, same_for_range};
use crate::parts::{same_alias, same_assert, same_assign, same_local};
use containers::Boxed;
use cxx_tree::{BlockTree, BodyTree, Stmt};
use tree_same::same_expr;

/// Whether two statements are the same, spans aside.
#[cycle(same_statement)]
pub fn same_stmt(tree: &Stmt, other: &Stmt) -> bool
    ensures { IsTrue result ↔ SameStmt tree.now other.now }
{
    match tree {
        Stmt::Body(body) => match other {
            Stmt::Body(other_body) => same_body(body, other_body),
            _ => false,
        },
        Stmt::Empty(_) => match other {
            Stmt::Empty(_) => true,
            _ => false,
        },
        Stmt::Assert(assert) => match other {
            Stmt::Assert(other_assert) => same_assert(assert, other_assert),
            _ => false,
        },
        Stmt::Alias(alias) => match other {
            Stmt::Alias(other_alias) => same_alias(alias, other_alias),
            _ => false,
        },
        Stmt::Class(class) => match other {
            Stmt::Class(other_class) => same_class(class.get(), other_class.get()),
            _ => false,
        },
        Stmt::Block(block) => match other {
            Stmt::Block(other_block) => same_block(block, other_block),
            _ => false,
        },
        Stmt::Local(local) => match other {
            Stmt::Local(other_local) => same_local(local, other_local),
            _ => false,
        },
        Stmt::Assign(assign) => match other {
            Stmt::Assign(other_assign) => same_assign(assign, other_assign),
            _ => false,
        },
        Stmt::Expr(_, x) => match other {
            Stmt::Expr(_, other_x) => same_expr(x, other_x),
            _ => false,
        },
        Stmt::If(_, x, then, otherwise) => match other {
            Stmt::If(_, other_x, other_then, other_otherwise) => same_expr(x, other_x)
                && (same_stmt(then.get(), other_then.get())
                    && else_same_if_any(otherwise, other_otherwise)),
            _ => false,
        },
        Stmt::While(_, x, then) => match other {
            Stmt::While(_, other_x, other_then) => same_expr(x, other_x)
                && same_stmt(then.get(), other_then.get()),
            _ => false,
        },
        Stmt::For(_, head, then) => match other {
            Stmt::For(_, other_head, other_then) => same_for_head(head, other_head)
                && same_stmt(then.get(), other_then.get()),
            _ => false,
        },
        Stmt::RangeFor(_, head, then) => match other {
            Stmt::RangeFor(_, other_head, other_then) => same_for_range(head, other_head)
                && same_stmt(then.get(), other_then.get()),
            _ => false,
        },
        Stmt::Return(_, returned) => match other {
            Stmt::Return(_, other_returned) => returned_same_if_any(returned, other_returned),
            _ => false,
        },
        Stmt::Break(_) => match other {
            Stmt::Break(_) => true,
            _ => false,
        },
        Stmt::Continue(_) => match other {
            Stmt::Continue(_) => true,
            _ => false,
        },
    }
}

/// Whether two bodies are the same, spans aside.
#[cycle(same_statement)]
pub fn same_body(tree: &BodyTree, other: &BodyTree) -> bool
    ensures { IsTrue result ↔ SameBody tree.now other.now }
{
    let BodyTree::Body(_, x1) = tree;
    let BodyTree::Body(_, y1) = other;
    stmts_same(x1.as_slice(), y1.as_slice())
}

/// Whether two blocks are the same, spans aside.
#[cycle(same_statement)]
pub fn same_block(tree: &BlockTree, other: &BlockTree) -> bool
    ensures { IsTrue result ↔ SameBlock tree.now other.now }
{
    same_body(&tree.body, &other.body)
}

#[cycle(same_statement)]
fn stmts_same(stmts: &[Stmt], others: &[Stmt]) -> bool
    ensures { IsTrue result ↔ AreSame SameStmt stmts.now others.now }
{
    let mut rest = others;
    for x in stmts {
        match rest.split_first() {
            Some((y, more)) => {
                if !same_stmt(x, y) {
                    return false;
                }
                rest = more;
            }
            None => return false,
        }
    }
    rest.is_empty()
}

#[cycle(same_statement)]
fn else_same_if_any(tree: &Option<Boxed<Stmt>>, other: &Option<Boxed<Stmt>>) -> bool
    ensures { IsTrue result ↔ AreSameIfAny SameStmt tree.now other.now }
{
    match tree {
        Some(x) => match other {
            Some(y) => same_stmt(x.get(), y.get()),
            None => false,
        },
        None => match other {
            Some(_) => false,
            None => true,
        },
    }
}
