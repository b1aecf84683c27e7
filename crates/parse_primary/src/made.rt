//! Nodes of primary and postfix expressions.

ghost use Rattle.std.specs.Prelude.{◌≡◌, IfOk};
ghost use Rattle.cxx_grammar.specs.Joined as spec;
ghost use Rattle.cxx_grammar.specs.Postfixes.{with_suffixes};
ghost use Rattle.cxx_tree.specs.declared.expr.Expr.TheVariants as expr_of;

use containers::{Boxed, Items};
use cxx_base::Span;
use cxx_tree::{
    ArgTrees, BasicTree, BracedTree, Expr, Fund, NameTree, NewInit, SpliceTree, Suffix, TypeTree,
};
use std::alloc::{AllocError, Global};

/// A type with a braced list behind it.
pub fn braced(
    alloc: Global,
    span: Span,
    basic: BasicTree,
    list: BracedTree,
) -> Result<Expr, AllocError>
    ensures { IfOk result (λ made. made ≡ expr_of.Braced span basic list) }
{
    let basic = Boxed::new(alloc, basic)?;
    let list = Boxed::new(alloc, list)?;
    Ok(Expr::Braced(span, basic, list))
}

fn typename_call(
    alloc: Global,
    span: Span,
    splice: SpliceTree,
    args: ArgTrees,
) -> Result<Expr, AllocError>
    ensures { IfOk result (λ made. made ≡ expr_of.TypenameCall span splice args) }
{
    let args = Boxed::new(alloc, args)?;
    Ok(Expr::TypenameCall(span, splice, args))
}

/// A fundamental type with what stands behind it.
pub fn fund_made(
    alloc: Global,
    span: Span,
    basic: Span,
    fund: Fund,
    init: NewInit,
) -> Result<Expr, AllocError>
    ensures { IfOk result (λ made. made ≡ spec.fund_made span basic fund init) }
{
    match init.into_args() {
        Ok(x) => Ok(Expr::FundCall(span, fund, x)),
        Err(x) => braced(alloc, span, BasicTree::Fund(basic, fund), x),
    }
}

/// `typename` and a splice with what stands behind them.
pub fn typename_made(
    alloc: Global,
    span: Span,
    basic: Span,
    splice: SpliceTree,
    init: NewInit,
) -> Result<Expr, AllocError>
    ensures { IfOk result (λ made. made ≡ spec.typename_made span basic splice init) }
{
    match init.into_args() {
        Ok(x) => typename_call(alloc, span, splice, x),
        Err(x) => braced(alloc, span, BasicTree::Typename(basic, splice), x),
    }
}

/// A name with the braced list behind it, where there is one.
pub fn name_made(
    alloc: Global,
    span: Span,
    name: NameTree,
    list: Option<BracedTree>,
) -> Result<Expr, AllocError>
    ensures { IfOk result (λ made. made ≡ spec.name_made name list span) }
{
    match list {
        Some(x) => braced(alloc, span, BasicTree::Name(name), x),
        None => Ok(Expr::Name(name)),
    }
}

/// A cast to a type.
pub fn static_cast(alloc: Global, span: Span, to: TypeTree, x: Expr) -> Result<Expr, AllocError>
    ensures { IfOk result (λ made. made ≡ expr_of.StaticCast span to x) }
{
    let to = Boxed::new(alloc, to)?;
    let x = Boxed::new(alloc, x)?;
    Ok(Expr::StaticCast(span, to, x))
}

/// `extract` with its type and argument.
pub fn extract(
    alloc: Global,
    span: Span,
    name: NameTree,
    to: TypeTree,
    x: Expr,
) -> Result<Expr, AllocError>
    ensures { IfOk result (λ made. made ≡ expr_of.Extract span name to x) }
{
    let name = Boxed::new(alloc, name)?;
    let to = Boxed::new(alloc, to)?;
    let x = Boxed::new(alloc, x)?;
    Ok(Expr::Extract(span, name, to, x))
}

/// An expression with its suffixes, where there are any.
pub fn postfix(
    alloc: Global,
    x: Expr,
    suffixes: Items<Suffix>,
    span: Span,
) -> Result<Expr, AllocError>
    ensures { IfOk result (λ made. made ≡ with_suffixes x suffixes span) }
{
    if suffixes.is_empty() {
        return Ok(x);
    }
    let x = Boxed::new(alloc, x)?;
    Ok(Expr::Postfix(span, x, suffixes))
}
