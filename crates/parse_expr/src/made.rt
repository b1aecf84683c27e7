//! Nodes of expressions.

ghost use Rattle.std.specs.Prelude.{◌≡◌, IfOk};
ghost use Rattle.cxx_grammar.specs.Expressions.{with_arms};
ghost use Rattle.cxx_grammar.specs.Unaries.{sizeof_of};
ghost use Rattle.cxx_tree.specs.declared.expr.Expr.TheVariants as expr_of;

use containers::Boxed;
use cxx_base::Span;
use cxx_grammar::{Arms, SizedOperand};
use cxx_tree::{Expr, NewInit, TypeTree};
use std::alloc::{AllocError, Global};

fn sizeof_type(alloc: Global, span: Span, x: TypeTree) -> Result<Expr, AllocError>
    ensures { IfOk result (λ made. made ≡ expr_of.SizeofType span x) }
{
    let x = Boxed::new(alloc, x)?;
    Ok(Expr::SizeofType(span, x))
}

fn sizeof_expr(alloc: Global, span: Span, x: Expr) -> Result<Expr, AllocError>
    ensures { IfOk result (λ made. made ≡ expr_of.SizeofExpr span x) }
{
    let x = Boxed::new(alloc, x)?;
    Ok(Expr::SizeofExpr(span, x))
}

/// `sizeof` of a type or an expression ([expr.sizeof]), over its span.
pub fn size_of(alloc: Global, span: Span, operand: SizedOperand) -> Result<Expr, AllocError>
    ensures { IfOk result (λ made. made ≡ sizeof_of operand span) }
{
    match operand {
        SizedOperand::Type(x) => sizeof_type(alloc, span, x),
        SizedOperand::Expr(x) => sizeof_expr(alloc, span, x),
    }
}

fn boxed_bound(alloc: Global, bound: Option<Expr>) -> Result<Option<Boxed<Expr>>, AllocError>
    ensures { IfOk result (λ made. made ≡ bound) }
{
    match bound {
        Some(x) => Ok(Some(Boxed::new(alloc, x)?)),
        None => Ok(None),
    }
}

fn boxed_init(alloc: Global, init: Option<NewInit>) -> Result<Option<Boxed<NewInit>>, AllocError>
    ensures { IfOk result (λ made. made ≡ init) }
{
    match init {
        Some(x) => Ok(Some(Boxed::new(alloc, x)?)),
        None => Ok(None),
    }
}

/// A `new` ([expr.new]) over its span, with its bound and its initializer where it has them.
pub fn new(
    alloc: Global,
    span: Span,
    of: TypeTree,
    bound: Option<Expr>,
    init: Option<NewInit>,
) -> Result<Expr, AllocError>
    ensures { IfOk result (λ made. made ≡ expr_of.New span of bound init) }
{
    let of = Boxed::new(alloc, of)?;
    let bound = boxed_bound(alloc, bound)?;
    let init = boxed_init(alloc, init)?;
    Ok(Expr::New(span, of, bound, init))
}

fn three(alloc: Global, span: Span, x: Expr, arms: Arms) -> Result<Expr, AllocError>
    ensures { IfOk result (λ made. made ≡ expr_of.Conditional span x arms.on_true arms.on_false) }
{
    let x = Boxed::new(alloc, x)?;
    let on_true = Boxed::new(alloc, arms.on_true)?;
    let on_false = Boxed::new(alloc, arms.on_false)?;
    Ok(Expr::Conditional(span, x, on_true, on_false))
}

/// An expression with the arms behind it, where there are any.
pub fn conditional(
    alloc: Global,
    x: Expr,
    arms: Option<Arms>,
    span: Span,
) -> Result<Expr, AllocError>
    ensures { IfOk result (λ made. made ≡ with_arms x arms span) }
{
    match arms {
        Some(arms) => three(alloc, span, x, arms),
        None => Ok(x),
    }
}
