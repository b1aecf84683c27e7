//! Statements that begin with neither a word nor a mark of their own: declarations of local variables, assignments and expressions.

ghost use Rattle.std.specs.Prelude.{◌≡◌};
ghost use Rattle.cxx_reading.specs.Reading.{Gives};
ghost use Rattle.parse_simple.specs.Joined as joined;

use cxx_base::Span;
use cxx_reading::{ExprFault, span};
use cxx_tokens::mark::SEMICOLON;
use cxx_tree::{ForStep, Stmt};
use parse_assign::closed;
use parse_local::{begins_local, local};
use parse_repeat::Here;

// The statement that an assignment or an expression is, whose tokens have this span.
fn statement_of(span: Span, step: ForStep) -> Stmt
    ensures { result ≡ joined.statement_of span step }
{
    match step {
        ForStep::Assign(x) => Stmt::Assign(x),
        ForStep::Expr(x) => Stmt::Expr(span, x),
    }
}

#[tactic(auto, unfolding(crate::specs::Joined::local_stmt))]
fn local_stmt(here: &Here<'_>, start: u32) -> Result<(Stmt, u32), ExprFault>
    ensures { Gives (joined.local_stmt here.now.tokens.now here.now.level start) result }
{
    let (x, end) = local(here, start)?;
    Ok((Stmt::Local(x), end))
}

#[tactic(auto, unfolding(crate::specs::Joined::worked))]
fn worked(here: &Here<'_>, start: u32) -> Result<(Stmt, u32), ExprFault>
    ensures { Gives (joined.worked here.now.tokens.now here.now.level start) result }
{
    let (x, end) = closed(here, SEMICOLON, start)?;
    Ok((statement_of(span(here.tokens, start, end), x), end))
}

/// The declaration of a local variable exactly where one begins, and else an assignment or an expression. It answers `S1`
/// exactly where none begins, `S2` exactly where it is too deep, or `Memory`.
#[tactic(auto, unfolding(crate::specs::Joined::simple))]
pub fn simple(here: &Here<'_>, start: u32) -> Result<(Stmt, u32), ExprFault>
    ensures { Gives (joined.simple here.now.tokens.now here.now.level start) result }
{
    if begins_local(here.tokens, start) {
        local_stmt(here, start)
    } else {
        worked(here, start)
    }
}
