//! What nests, at each level.

ghost use Rattle.std.specs.Prelude.{◌≤◌, ◌+◌};
ghost use Rattle.cxx_grammar.specs.Nesting as nesting;
ghost use Rattle.cxx_grammar.specs.Declarations as declarations;
ghost use Rattle.cxx_grammar.specs.Statements as statements;
ghost use Rattle.cxx_grammar.specs.Classes as classes;
ghost use Rattle.cxx_grammar.specs.Nesting.{read_nests};
ghost use Rattle.cxx_reading.specs.Reading.{Gives};

use cxx_base::TOO_DEEP;
use cxx_grammar::Within;
use cxx_reading::ExprFault;
use cxx_tokens::Tokens;
use cxx_tree::{BodyTree, Decl, Member, Stmt};
use parse_nest::{InnerStmt, Level, Nest, Nested};
use parse_repeat::Here;
use std::alloc::Global;

// What a parser is handed of a level is lent for one time: these put it together, where the tokens and what reads that which nests
// are lent to them so.

fn stmt_of<'a, N: Nested>(
    alloc: Global,
    tokens: &'a Tokens,
    level: u32,
    inner: &'a N,
    at: u32,
    within: Within,
) -> Result<(Stmt, u32), ExprFault>
    requires can { N.can inner.now }
    requires level { level ≤ 256 }
    ensures { Gives (statements.stmt tokens.now level (N.nests inner.now) within at) result }
{
    let here = Here {
        alloc,
        tokens,
        level,
    };
    parse_stmt::stmt(&Nest { here, inner }, at, within)
}

fn sub_of<'a, N: Nested>(
    alloc: Global,
    tokens: &'a Tokens,
    level: u32,
    inner: &'a N,
    at: u32,
    within: Within,
) -> Result<(Stmt, u32), ExprFault>
    requires can { N.can inner.now }
    requires level { level ≤ 256 }
    ensures { Gives (statements.sub tokens.now level (N.nests inner.now) within at) result }
{
    let here = Here {
        alloc,
        tokens,
        level,
    };
    parse_stmt::sub(&Nest { here, inner }, at, within)
}

fn member_of<'a, N: Nested>(
    alloc: Global,
    tokens: &'a Tokens,
    level: u32,
    inner: &'a N,
    at: u32,
) -> Result<(Member, u32), ExprFault>
    requires can { N.can inner.now }
    requires level { level ≤ 256 }
    ensures { Gives (classes.member tokens.now level (N.nests inner.now) at) result }
{
    let here = Here {
        alloc,
        tokens,
        level,
    };
    parse_class::member(&Nest { here, inner }, at)
}

fn decl_of<'a, N: Nested>(
    alloc: Global,
    tokens: &'a Tokens,
    inner: &'a N,
    at: u32,
) -> Result<(Decl, u32), ExprFault>
    requires { N.can inner.now }
    ensures { Gives (classes.decl tokens.now 0 (N.nests inner.now) at) result }
{
    let here = Here {
        alloc,
        tokens,
        level: 0,
    };
    parse_class::decl(&Nest { here, inner }, at)
}

// A statement of a body at this level.
#[cycle(levels)]
#[tactic(auto, using(cxx_grammar::proofs::NestLevels::nest_levels))]
fn stmt_at(
    alloc: Global,
    tokens: &Tokens,
    at: u32,
    level: u32,
    within: Within,
) -> Result<(Stmt, u32), ExprFault>
    requires { level ≤ 257 }
    ensures { Gives ((read_nests tokens.now level).stmt within at) result }
{
    if level == TOO_DEEP {
        return Err(ExprFault::S2);
    }
    let inner = Level {
        alloc,
        tokens,
        level: level + 1,
        stmt: stmt_at,
        sub: sub_at,
        member: member_at,
    };
    stmt_of(alloc, tokens, level, &inner, at, within)
}

// A statement within a statement.
#[cycle(levels)]
#[tactic(auto, using(cxx_grammar::proofs::NestLevels::nest_levels))]
fn sub_at(
    alloc: Global,
    tokens: &Tokens,
    at: u32,
    level: u32,
    within: Within,
) -> Result<(Stmt, u32), ExprFault>
    requires { level ≤ 257 }
    ensures { Gives ((read_nests tokens.now level).sub within at) result }
{
    if level == TOO_DEEP {
        return Err(ExprFault::S2);
    }
    let inner = Level {
        alloc,
        tokens,
        level: level + 1,
        stmt: stmt_at,
        sub: sub_at,
        member: member_at,
    };
    sub_of(alloc, tokens, level, &inner, at, within)
}

// A member of a class.
#[cycle(levels)]
#[tactic(auto, using(cxx_grammar::proofs::NestLevels::nest_levels))]
fn member_at(
    alloc: Global,
    tokens: &Tokens,
    at: u32,
    level: u32,
) -> Result<(Member, u32), ExprFault>
    requires { level ≤ 257 }
    ensures { Gives ((read_nests tokens.now level).member at) result }
{
    if level == TOO_DEEP {
        return Err(ExprFault::S2);
    }
    let inner = Level {
        alloc,
        tokens,
        level: level + 1,
        stmt: stmt_at,
        sub: sub_at,
        member: member_at,
    };
    member_of(alloc, tokens, level, &inner, at)
}

/// The body that begins at token number `at`, with `level` levels of nesting around it, at most 256, and the number of the token
/// after it: exactly what the grammar gives. What its statements stand in is `within`. It answers `S1` exactly where none
/// begins, `S2` exactly where it is too deep, or `Memory`.
pub fn body(
    alloc: Global,
    tokens: &Tokens,
    at: u32,
    level: u32,
    within: Within,
) -> Result<(BodyTree, u32), ExprFault>
    requires { level ≤ 256 }
    ensures { Gives (declarations.body tokens.now ((read_nests tokens.now (level + 1)).stmt within) at) result }
{
    let inner = Level {
        alloc,
        tokens,
        level: level + 1,
        stmt: stmt_at,
        sub: sub_at,
        member: member_at,
    };
    let inside = InnerStmt {
        inner: &inner,
        within,
    };
    parse_class::body(alloc, tokens, &inside, at)
}

/// A declaration of a namespace, as the grammar says.
#[tactic(auto, unfolding(cxx_grammar::specs::Nesting::declaration))]
pub fn declaration(alloc: Global, tokens: &Tokens, start: u32) -> Result<(Decl, u32), ExprFault>
    ensures { Gives (nesting.declaration tokens.now start) result }
{
    let inner = Level {
        alloc,
        tokens,
        level: 1,
        stmt: stmt_at,
        sub: sub_at,
        member: member_at,
    };
    decl_of(alloc, tokens, &inner, start)
}
