//! Expressions.

ghost use Rattle.std.specs.Prelude.{IsTrue, ◌↔◌};
ghost use Rattle.tree_same.specs.Lists.{AreSameIfAny};
ghost use Rattle.tree_same.specs.Same.{Same, SameNewInit};

use crate::args::same_args;
use crate::braced::{same_braced, same_new_init};
use crate::leaf::{bytes_same, same_name};
use crate::operation::operations_same;
use crate::suffix::suffixes_same;
use crate::type_tree::{same_basic, same_splice, same_type};
use containers::Boxed;
use cxx_tree::{Expr, NewInit};

/// Whether two expressions are the same, spans aside.
#[cycle(same)]
pub fn same_expr(tree: &Expr, other: &Expr) -> bool
    ensures { IsTrue result ↔ Same tree.now other.now }
{
    match tree {
        Expr::Integer(_, n) => match other {
            Expr::Integer(_, other_n) => *n == *other_n,
            _ => false,
        },
        Expr::Character(_, n) => match other {
            Expr::Character(_, other_n) => *n == *other_n,
            _ => false,
        },
        Expr::Text(_, text) => match other {
            Expr::Text(_, other_text) => bytes_same(text, other_text),
            _ => false,
        },
        Expr::Truth(_, truth) => match other {
            Expr::Truth(_, other_truth) => *truth == *other_truth,
            _ => false,
        },
        Expr::Nullptr(_) => match other {
            Expr::Nullptr(_) => true,
            _ => false,
        },
        Expr::This(_) => match other {
            Expr::This(_) => true,
            _ => false,
        },
        Expr::Name(name) => match other {
            Expr::Name(other_name) => same_name(name, other_name),
            _ => false,
        },
        Expr::Paren(_, x) => match other {
            Expr::Paren(_, y) => same_expr(x.get(), y.get()),
            _ => false,
        },
        Expr::Splice(splice) => match other {
            Expr::Splice(other_splice) => same_splice(splice, other_splice),
            _ => false,
        },
        Expr::Braced(_, basic, list) => match other {
            Expr::Braced(_, other_basic, other_list) => {
                same_basic(basic.get(), other_basic.get())
                    && same_braced(list.get(), other_list.get())
            }
            _ => false,
        },
        Expr::FundCall(_, fund, args) => match other {
            Expr::FundCall(_, other_fund, other_args) => *fund == *other_fund
                && same_args(args, other_args),
            _ => false,
        },
        Expr::TypenameCall(_, splice, args) => match other {
            Expr::TypenameCall(_, other_splice, other_args) => {
                same_splice(splice, other_splice) && same_args(args.get(), other_args.get())
            }
            _ => false,
        },
        Expr::StaticCast(_, to, x) => match other {
            Expr::StaticCast(_, other_to, y) => same_type(to.get(), other_to.get())
                && same_expr(x.get(), y.get()),
            _ => false,
        },
        Expr::Extract(_, name, to, x) => match other {
            Expr::Extract(_, other_name, other_to, y) => {
                same_name(name.get(), other_name.get())
                    && (same_type(to.get(), other_to.get()) && same_expr(x.get(), y.get()))
            }
            _ => false,
        },
        Expr::Postfix(_, x, suffixes) => match other {
            Expr::Postfix(_, y, other_suffixes) => {
                same_expr(x.get(), y.get())
                    && suffixes_same(suffixes.as_slice(), other_suffixes.as_slice())
            }
            _ => false,
        },
        Expr::Unary(_, op, x) => match other {
            Expr::Unary(_, other_op, y) => *op == *other_op && same_expr(x.get(), y.get()),
            _ => false,
        },
        Expr::ReflectGlobal(_) => match other {
            Expr::ReflectGlobal(_) => true,
            _ => false,
        },
        Expr::Reflect(_, to) => match other {
            Expr::Reflect(_, other_to) => same_type(to.get(), other_to.get()),
            _ => false,
        },
        Expr::SizeofType(_, of) => match other {
            Expr::SizeofType(_, other_of) => same_type(of.get(), other_of.get()),
            _ => false,
        },
        Expr::SizeofExpr(_, x) => match other {
            Expr::SizeofExpr(_, y) => same_expr(x.get(), y.get()),
            _ => false,
        },
        Expr::Delete(_, array, x) => match other {
            Expr::Delete(_, other_array, y) => *array == *other_array
                && same_expr(x.get(), y.get()),
            _ => false,
        },
        Expr::New(_, of, bound, init) => match other {
            Expr::New(_, other_of, other_bound, other_init) => {
                same_type(of.get(), other_of.get())
                    && (same_expr_if_any(bound, other_bound) && inits_same(init, other_init))
            }
            _ => false,
        },
        Expr::Chain(_, x, operations) => match other {
            Expr::Chain(_, y, other_operations) => {
                same_expr(x.get(), y.get())
                    && operations_same(operations.as_slice(), other_operations.as_slice())
            }
            _ => false,
        },
        Expr::Conditional(_, x, y, z) => match other {
            Expr::Conditional(_, other_x, other_y, other_z) => {
                same_expr(x.get(), other_x.get())
                    && (same_expr(y.get(), other_y.get()) && same_expr(z.get(), other_z.get()))
            }
            _ => false,
        },
    }
}

/// Whether two expressions that may be missing are missing both, or are the same, spans aside.
#[cycle(same)]
pub fn same_expr_if_any(tree: &Option<Boxed<Expr>>, other: &Option<Boxed<Expr>>) -> bool
    ensures { IsTrue result ↔ AreSameIfAny Same tree.now other.now }
{
    match tree {
        Some(x) => match other {
            Some(y) => same_expr(x.get(), y.get()),
            None => false,
        },
        None => match other {
            Some(_) => false,
            None => true,
        },
    }
}

#[cycle(same)]
fn inits_same(init: &Option<Boxed<NewInit>>, other: &Option<Boxed<NewInit>>) -> bool
    ensures { IsTrue result ↔ AreSameIfAny SameNewInit init.now other.now }
{
    match init {
        Some(x) => match other {
            Some(y) => same_new_init(x.get(), y.get()),
            None => false,
        },
        None => match other {
            Some(_) => false,
            None => true,
        },
    }
}
