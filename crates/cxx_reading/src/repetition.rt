//! Parts as often as they read.

ghost use Rattle.cxx_reading.specs.Answers.{RepeatsRule};

use crate::fault::ExprFault;
use crate::list::push;
use crate::step::left;
use containers::Items;
use cxx_tokens::Tokens;
use std::alloc::Global;

/// A part as often as it reads, behind what was found before. `part` reads it at a token.
#[tactic(auto, unfolding(crate::specs::Reading::turns))]
pub fn repeat<A: Drop, P: Fn(u32) -> Result<(A, u32), ExprFault>>(
    alloc: Global,
    tokens: &Tokens,
    part: P,
    mut found: Items<A>,
    mut at: u32,
) -> Result<(Items<A>, u32), ExprFault>
    requires { P.IsAlwaysCallable part }
    ensures { RepeatsRule tokens.now (P.post part) found at result }
{
    for _turn in 0..left(tokens, at) {
        match part(at) {
            Ok((x, after)) => {
                push(alloc, &mut found, x)?;
                at = after;
            }
            Err(ExprFault::S1) => return Ok((found, at)),
            Err(ExprFault::S2) => return Err(ExprFault::S2),
            Err(ExprFault::Memory) => return Err(ExprFault::Memory),
        }
    }
    Ok((found, at))
}
