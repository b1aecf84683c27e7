//! The rules at each level.
#![tactic(auto, using(cxx_grammar::proofs::Levels::levels))]

ghost use Rattle.std.specs.Prelude.{◌≤◌, ◌+◌};
ghost use Rattle.cxx_grammar.specs.Joined.{expr_from};
ghost use Rattle.cxx_grammar.specs.Read.{read};
ghost use Rattle.cxx_grammar.specs.Unaries.{sized};
ghost use Rattle.cxx_reading.specs.Reading.{Gives};

use crate::choice::{expr_from, expr_here};
use crate::sized::sized_here;
use crate::unary::unary_here;
use cxx_base::TOO_DEEP;
use cxx_grammar::SizedOperand;
use cxx_reading::{ExprFault, Reader};
use cxx_tokens::Tokens;
use cxx_tree::{ArgTrees, BracedTree, Expr, NameTree, SpliceTree, TypeTree};
use parse_level::Levels;
use parse_list::{args, braced_list};
use parse_type::{name, splice, type_tree};
use std::alloc::Global;

// A reader of this level. The public calls are what it has for the next one.
macro_rules! reader {
    ($alloc:expr, $tokens:expr, $level:expr) => {
        Reader {
            alloc: $alloc,
            tokens: $tokens,
            level: $level + 1,
            deeper: Levels {
                expr: expression,
                braced: braced_at,
                unary: unary_at,
                type_tree: type_at,
                sized: sized_at,
            },
        }
    };
}

/// The expression ([expr]) that begins at token number `at`, with `level` levels of nesting around it, and the number of
/// the token after it: exactly what the grammar gives. The level is at most 257, where each rule is too deep. It answers
/// `S1` exactly where nothing begins there, `S2` exactly where it is too deep, or `Memory`.
#[cycle(levels)]
pub fn expression(
    alloc: Global,
    tokens: &Tokens,
    at: u32,
    level: u32,
) -> Result<(Expr, u32), ExprFault>
    requires { level ≤ 257 }
    ensures { Gives ((read tokens.now level).expr at) result }
{
    if level == TOO_DEEP {
        return Err(ExprFault::S2);
    }
    let reader = reader!(alloc, tokens, level);
    expr_here(&reader, at)
}

/// The same for a type ([dcl.name]).
#[cycle(levels)]
pub fn type_at(
    alloc: Global,
    tokens: &Tokens,
    at: u32,
    level: u32,
) -> Result<(TypeTree, u32), ExprFault>
    requires { level ≤ 257 }
    ensures { Gives ((read tokens.now level).type_tree at) result }
{
    if level == TOO_DEEP {
        return Err(ExprFault::S2);
    }
    let reader = reader!(alloc, tokens, level);
    type_tree(&reader, at)
}

/// The same for a braced list ([dcl.init.list]).
#[cycle(levels)]
pub fn braced_at(
    alloc: Global,
    tokens: &Tokens,
    at: u32,
    level: u32,
) -> Result<(BracedTree, u32), ExprFault>
    requires { level ≤ 257 }
    ensures { Gives ((read tokens.now level).braced at) result }
{
    if level == TOO_DEEP {
        return Err(ExprFault::S2);
    }
    let reader = reader!(alloc, tokens, level);
    braced_list(&reader, at)
}

/// The same for a unary expression ([expr.unary]).
#[cycle(levels)]
pub fn unary_at(
    alloc: Global,
    tokens: &Tokens,
    at: u32,
    level: u32,
) -> Result<(Expr, u32), ExprFault>
    requires { level ≤ 257 }
    ensures { Gives ((read tokens.now level).unary at) result }
{
    if level == TOO_DEEP {
        return Err(ExprFault::S2);
    }
    let reader = reader!(alloc, tokens, level);
    unary_here(&reader, at)
}

// The operand of `sizeof`.
#[cycle(levels)]
fn sized_at(
    alloc: Global,
    tokens: &Tokens,
    at: u32,
    level: u32,
) -> Result<(SizedOperand, u32), ExprFault>
    requires { level ≤ 257 }
    ensures { Gives (sized tokens.now (read tokens.now level) at) result }
{
    if level == TOO_DEEP {
        return Err(ExprFault::S2);
    }
    let reader = reader!(alloc, tokens, level);
    sized_here(&reader, at)
}

/// The same for a name ([expr.prim.id]).
pub fn name_at(
    alloc: Global,
    tokens: &Tokens,
    at: u32,
    level: u32,
) -> Result<(NameTree, u32), ExprFault>
    requires { level ≤ 257 }
    ensures { Gives ((read tokens.now level).name at) result }
{
    if level == TOO_DEEP {
        return Err(ExprFault::S2);
    }
    name(alloc, tokens, at)
}

/// The same for a splice (P2996R13).
pub fn splice_at(
    alloc: Global,
    tokens: &Tokens,
    at: u32,
    level: u32,
) -> Result<(SpliceTree, u32), ExprFault>
    requires { level ≤ 257 }
    ensures { Gives ((read tokens.now level).splice at) result }
{
    if level == TOO_DEEP {
        return Err(ExprFault::S2);
    }
    let reader = reader!(alloc, tokens, level);
    splice(&reader, at)
}

/// The same for arguments with the parentheses around them ([expr.call]).
pub fn args_at(
    alloc: Global,
    tokens: &Tokens,
    at: u32,
    level: u32,
) -> Result<(ArgTrees, u32), ExprFault>
    requires { level ≤ 257 }
    ensures { Gives ((read tokens.now level).args at) result }
{
    if level == TOO_DEEP {
        return Err(ExprFault::S2);
    }
    let reader = reader!(alloc, tokens, level);
    args(&reader, at)
}

/// What goes on behind a unary expression `first` that begins at token number `start` and ends before number `at`: the
/// whole expression ([expr]) that begins with it, where there is one. Together with `unary_at` at the same level it is
/// `expression`, so a form that begins with a unary expression, as an assignment does, need not be read twice.
pub fn expression_behind(
    alloc: Global,
    tokens: &Tokens,
    start: u32,
    first: Expr,
    at: u32,
    level: u32,
) -> Result<(Expr, u32), ExprFault>
    requires { level ≤ 256 }
    ensures { Gives (expr_from tokens.now (read tokens.now (level + 1)) start first at) result }
{
    let reader = reader!(alloc, tokens, level);
    expr_from(&reader, start, first, at)
}
