//! The trees that the rules of expressions and types read.

ghost use Rattle.std.specs.Prelude.{◌<◌, ◌≤◌};

use crate::asked::Rule;
use cxx_reading::ExprFault;
use cxx_tokens::Tokens;
use expr_show::Shown;
use parse_expr::{
    args_at, braced_at, expression, expression_behind, name_at, splice_at, type_at, unary_at,
};
use std::alloc::Global;

/// Tokens, the number of the one at which a rule is read, and the level, which is not above 257.
#[derive(Clone, Copy)]
pub struct Start<'a> {
    pub alloc: Global,
    pub tokens: &'a Tokens,
    pub at: u32,
    pub level: u32,
}

fn expression_from(from: Start<'_>) -> Result<(Shown, u32), ExprFault>
    requires { from.level ≤ 257 }
{
    let (x, end) = expression(from.alloc, from.tokens, from.at, from.level)?;
    Ok((Shown::Expr(x), end))
}

fn type_from(from: Start<'_>) -> Result<(Shown, u32), ExprFault>
    requires { from.level ≤ 257 }
{
    let (of, end) = type_at(from.alloc, from.tokens, from.at, from.level)?;
    Ok((Shown::Type(of), end))
}

fn braced_from(from: Start<'_>) -> Result<(Shown, u32), ExprFault>
    requires { from.level ≤ 257 }
{
    let (list, end) = braced_at(from.alloc, from.tokens, from.at, from.level)?;
    Ok((Shown::Braced(list), end))
}

fn unary_from(from: Start<'_>) -> Result<(Shown, u32), ExprFault>
    requires { from.level ≤ 257 }
{
    let (x, end) = unary_at(from.alloc, from.tokens, from.at, from.level)?;
    Ok((Shown::Expr(x), end))
}

fn name_from(from: Start<'_>) -> Result<(Shown, u32), ExprFault>
    requires { from.level ≤ 257 }
{
    let (name, end) = name_at(from.alloc, from.tokens, from.at, from.level)?;
    Ok((Shown::Name(name), end))
}

fn splice_from(from: Start<'_>) -> Result<(Shown, u32), ExprFault>
    requires { from.level ≤ 257 }
{
    let (splice, end) = splice_at(from.alloc, from.tokens, from.at, from.level)?;
    Ok((Shown::Splice(splice), end))
}

fn args_from(from: Start<'_>) -> Result<(Shown, u32), ExprFault>
    requires { from.level ≤ 257 }
{
    let (args, end) = args_at(from.alloc, from.tokens, from.at, from.level)?;
    Ok((Shown::Args(args), end))
}

fn behind_unary(from: Start<'_>) -> Result<(Shown, u32), ExprFault>
    requires { from.level < 257 }
{
    let (first, at) = unary_at(from.alloc, from.tokens, from.at, from.level)?;
    let (x, end) = expression_behind(from.alloc, from.tokens, from.at, first, at, from.level)?;
    Ok((Shown::Expr(x), end))
}

/// The tree that a rule reads, and the number of the token after it.
pub fn read(rule: Rule, from: Start<'_>) -> Result<(Shown, u32), ExprFault>
    requires { from.level ≤ 257 }
{
    match rule {
        Rule::Expr => expression_from(from),
        Rule::Type => type_from(from),
        Rule::Braced => braced_from(from),
        Rule::Unary => unary_from(from),
        Rule::Name => name_from(from),
        Rule::Splice => splice_from(from),
        Rule::Args => args_from(from),
        Rule::Behind => {
            if from.level < 257 {
                behind_unary(from)
            } else {
                Err(ExprFault::S2)
            }
        }
    }
}
