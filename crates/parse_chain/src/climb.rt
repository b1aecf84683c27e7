//! The climb.

ghost use Rattle.std.specs.Prelude.{◌≡◌, ◌<◌, ◌+◌, ◌++◌, ◌∷◌, [], ℕ, Some, IfOk};
ghost use Rattle.cxx_grammar.specs.Joined as joined;
ghost use Rattle.cxx_grammar.specs.Read.{read};
ghost use Rattle.cxx_grammar.specs.Unaries.{unary};
ghost use Rattle.cxx_reading.specs.Answers.{ReadsRule};
ghost use Rattle.cxx_reading.specs.Reading.{Gives};
ghost use Rattle.parse_chain.specs.Chains.{opened, extended, all, all_if};
ghost use Rattle.parse_chain.specs.Climbs.{Places, Finishes};
ghost use Rattle.parse_chain.specs.Next.{operator_at};

use crate::open_chain::{OpenChain, OpenChains};
use crate::operator::operator_at;
use containers::Items;
use cxx_grammar::Operator;
use cxx_reading::{ExprFault, Reader};
use cxx_tokens::Tokens;
use cxx_tree::Expr;
use std::alloc::{AllocError, Global};

// The chain that begins with an operator, within those.
#[inline(always)]
fn begun(
    alloc: Global,
    operator: Operator,
    outer: Items<OpenChain>,
    start: u32,
    x: Expr,
    at: u32,
) -> Result<OpenChains, AllocError>
    ensures { IfOk result (λ after. all after ≡ outer ++ opened operator start x at ∷ []) }
{
    let inner = OpenChain::new(alloc, operator, start, x, at)?;
    Ok(OpenChains { outer, inner })
}

// The same within one more.
#[inline(always)]
fn begun_within(
    alloc: Global,
    operator: Operator,
    mut outer: Items<OpenChain>,
    chain: OpenChain,
    start: u32,
    x: Expr,
    at: u32,
) -> Result<OpenChains, AllocError>
    ensures { IfOk result (λ after. all after ≡ (outer ++ chain ∷ []) ++ opened operator start x at ∷ []) }
{
    outer.push(chain)?;
    begun(alloc, operator, outer, start, x, at)
}

// The chain with its operand and a further operator.
#[inline(always)]
fn gone_on(
    alloc: Global,
    tokens: &Tokens,
    operator: Operator,
    outer: Items<OpenChain>,
    chain: OpenChain,
    x: Expr,
    at: u32,
) -> Result<OpenChains, AllocError>
    ensures { IfOk result (λ after. all after ≡ outer ++ extended tokens.now chain x operator.op at ∷ []) }
{
    let inner = chain.extended(alloc, tokens, x, operator.op, at)?;
    Ok(OpenChains { outer, inner })
}

// The open chains with the operator at token number `at`, before which the operand `x` ends that began at `start`. The chains
// that bind more end there.
#[inline(never)]
fn placed(
    alloc: Global,
    tokens: &Tokens,
    operator: Operator,
    chains: OpenChains,
    mut start: u32,
    mut x: Expr,
    at: u32,
) -> Result<OpenChains, AllocError>
    requires there { operator_at tokens.now at ≡ Some (operator, at + 1) }
    requires line { operator.line < 10 }
    ensures { IfOk result (λ after. Places tokens.now (all chains) start x at (all after)) }
{
    let (mut outer, mut inner) = chains.parts();
    while inner.line < operator.line {
        start = inner.start;
        x = inner.closed(alloc, tokens, x, at)?;
        match outer.pop() {
            Some(chain) => inner = chain,
            None => return begun(alloc, operator, outer, start, x, at),
        }
    }
    if inner.line == operator.line {
        gone_on(alloc, tokens, operator, outer, inner, x, at)
    } else {
        begun_within(alloc, operator, outer, inner, start, x, at)
    }
}

// The whole expression where no operation follows at token number `at`: these chains end there.
fn ended(
    alloc: Global,
    tokens: &Tokens,
    mut chains: Items<OpenChain>,
    mut start: u32,
    mut x: Expr,
    at: u32,
) -> Result<Expr, AllocError>
    ensures { IfOk result (λ made. Finishes tokens.now chains start x at made) }
{
    while let Some(chain) = chains.pop() {
        start = chain.start;
        x = chain.closed(alloc, tokens, x, at)?;
    }
    Ok(x)
}

// The same of all chains.
#[inline(never)]
fn finished(
    alloc: Global,
    tokens: &Tokens,
    chains: OpenChains,
    x: Expr,
    at: u32,
) -> Result<Expr, AllocError>
    ensures { (start : ℕ) → IfOk result (λ made. Finishes tokens.now (all chains) start x at made) }
{
    let (outer, inner) = chains.parts();
    let start = inner.start;
    let x = inner.closed(alloc, tokens, x, at)?;
    ended(alloc, tokens, outer, start, x, at)
}

// The chain of the first operator, with no chain around it.
#[inline(always)]
fn first(
    alloc: Global,
    tokens: &Tokens,
    operator: Operator,
    start: u32,
    x: Expr,
    at: u32,
) -> Result<OpenChains, AllocError>
    requires there { operator_at tokens.now at ≡ Some (operator, at + 1) }
    requires line { operator.line < 10 }
    ensures { IfOk result (λ after. Places tokens.now [] start x at (all after)) }
{
    begun(alloc, operator, Items::new(alloc), start, x, at)
}

// The operator at token number `at` among the open chains, of which there may be none.
fn next(
    alloc: Global,
    tokens: &Tokens,
    operator: Operator,
    chains: Option<OpenChains>,
    start: u32,
    x: Expr,
    at: u32,
) -> Result<OpenChains, AllocError>
    requires there { operator_at tokens.now at ≡ Some (operator, at + 1) }
    requires line { operator.line < 10 }
    ensures { IfOk result (λ after. Places tokens.now (all_if chains) start x at (all after)) }
{
    match chains {
        Some(chains) => placed(alloc, tokens, operator, chains, start, x, at),
        None => first(alloc, tokens, operator, start, x, at),
    }
}

// The whole expression where no operation follows at token number `at`.
fn whole(
    alloc: Global,
    tokens: &Tokens,
    chains: Option<OpenChains>,
    x: Expr,
    at: u32,
) -> Result<Expr, AllocError>
    ensures { (start : ℕ) → IfOk result (λ made. Finishes tokens.now (all_if chains) start x at made) }
{
    match chains {
        Some(chains) => finished(alloc, tokens, chains, x, at),
        None => Ok(x),
    }
}

// The operations of all lines behind an operand `x` that began at token number `start` and ends before number `at`.
#[inline(never)]
fn climbed_on<D, O: Fn(u32) -> Result<(Expr, u32), ExprFault>>(
    reader: &Reader<'_, D>,
    operand: O,
    mut start: u32,
    mut x: Expr,
    mut at: u32,
) -> Result<(Expr, u32), ExprFault>
    requires callable { O.IsAlwaysCallable operand }
    requires reads { ReadsRule (unary reader.now.tokens.now (read reader.now.tokens.now reader.now.level)) (O.post operand) }
    ensures { Gives (joined.climbed reader.now.tokens.now (read reader.now.tokens.now reader.now.level) 10 start x at) result }
{
    let mut chains = None;
    while let Some((operator, behind)) = operator_at(reader.tokens, at) {
        match operand(behind) {
            Ok((next_x, end)) => {
                let after = next(reader.alloc, reader.tokens, operator, chains, start, x, at)?;
                chains = Some(after);
                start = behind;
                x = next_x;
                at = end;
            }
            Err(ExprFault::S1) => {
                let made = whole(reader.alloc, reader.tokens, chains, x, at)?;
                return Ok((made, at));
            }
            Err(ExprFault::S2) => return Err(ExprFault::S2),
            Err(ExprFault::Memory) => return Err(ExprFault::Memory),
        }
    }
    let made = whole(reader.alloc, reader.tokens, chains, x, at)?;
    Ok((made, at))
}

/// The operations of all lines behind an operand `x` that began at token number `start` and ends before number `at`. `operand`
/// reads a further operand at a token. An operand that no operator follows costs one look.
#[inline]
#[tactic(auto, using(crate::proofs::Placing::ends_at_once))]
pub fn climbed<D, O: Fn(u32) -> Result<(Expr, u32), ExprFault>>(
    reader: &Reader<'_, D>,
    operand: O,
    start: u32,
    x: Expr,
    at: u32,
) -> Result<(Expr, u32), ExprFault>
    requires callable { O.IsAlwaysCallable operand }
    requires reads { ReadsRule (unary reader.now.tokens.now (read reader.now.tokens.now reader.now.level)) (O.post operand) }
    ensures { Gives (joined.climbed reader.now.tokens.now (read reader.now.tokens.now reader.now.level) 10 start x at) result }
{
    match operator_at(reader.tokens, at) {
        Some(_) => climbed_on(reader, operand, start, x, at),
        None => Ok((x, at)),
    }
}
