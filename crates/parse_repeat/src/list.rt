//! Lists of parts.

ghost use Rattle.cxx_reading.specs.Reading.{Gives};
ghost use Rattle.cxx_reading.specs.Reading as reading;
ghost use Rattle.cxx_grammar.specs.Sequences as spec;
ghost use Rattle.parse_repeat.specs.Lists as lists;

use crate::part::Part;
use containers::Items;
use cxx_reading::{ExprFault, expect, if_any, left, push, single};
use cxx_tokens::Tokens;
use cxx_tokens::mark::COMMA;
use std::alloc::Global;

/// The part as often as it reads, behind those that were found.
#[tactic(auto, using(cxx_reading::proofs::Turns::loops))]
pub fn many<P: Part>(
    alloc: Global,
    tokens: &Tokens,
    part: &P,
    mut found: Items<P::Tree>,
    mut at: u32,
) -> Result<(Items<P::Tree>, u32), ExprFault>
    requires { P.can part.now }
    ensures { Gives (spec.many tokens.now (P.part part.now) found at) result }
{
    for _turn in 0..left(tokens, at) {
        match part.read(at) {
            Ok((x, after)) => {
                push(alloc, &mut found, x)?;
                at = after;
            }
            Err(ExprFault::S1) => return Ok((found, at)),
            Err(ExprFault::S2) => return Err(ExprFault::S2),
            Err(ExprFault::Memory) => return Err(ExprFault::Memory),
        }
    }
    Ok((found, at))
}

// A part with a comma before it.
#[derive(Clone, Copy)]
struct BehindComma<'a, P> {
    tokens: &'a Tokens,
    part: &'a P,
}

impl<P: Part> Part for BehindComma<'_, P> {
    type Tree = P::Tree;

    ghost can = { λ p. P.can p.part.now };

    ghost part = { λ p. spec.next_of p.tokens.now (P.part p.part.now) };

    fn read(&self, at: u32) -> Result<(P::Tree, u32), ExprFault> {
        let at = expect(self.tokens, COMMA, at)?;
        self.part.read(at)
    }
}

/// Parts with commas between them, at least one.
pub fn comma_list<P: Part>(
    alloc: Global,
    tokens: &Tokens,
    part: &P,
    at: u32,
) -> Result<(Items<P::Tree>, u32), ExprFault>
    requires { P.can part.now }
    ensures { Gives (lists.comma_list tokens.now (P.part part.now) at) result }
{
    let (first, at) = part.read(at)?;
    let found = single(alloc, first)?;
    many(alloc, tokens, &BehindComma { tokens, part }, found, at)
}

/// The same, or none.
#[tactic(auto, unfolding(cxx_reading::specs::Reading::if_any), using(cxx_reading::proofs::Answers::empty_left))]
pub fn comma_list_if_any<P: Part>(
    alloc: Global,
    tokens: &Tokens,
    part: &P,
    at: u32,
) -> Result<(Items<P::Tree>, u32), ExprFault>
    requires { P.can part.now }
    ensures { Gives (reading.if_any (lists.comma_list tokens.now (P.part part.now)) at) result }
{
    if_any(alloc, comma_list(alloc, tokens, part, at), at)
}

fn list<P: Part>(
    alloc: Global,
    tokens: &Tokens,
    part: &P,
    at: u32,
) -> Result<(Items<P::Tree>, u32), ExprFault>
    requires { P.can part.now }
    ensures { Gives (lists.list tokens.now (P.part part.now) at) result }
{
    let (first, at) = part.read(at)?;
    let found = single(alloc, first)?;
    many(alloc, tokens, part, found, at)
}

/// Parts one after the other, or none. The first is always asked for.
#[tactic(auto, unfolding(cxx_reading::specs::Reading::if_any), using(cxx_reading::proofs::Answers::empty_left))]
pub fn list_if_any<P: Part>(
    alloc: Global,
    tokens: &Tokens,
    part: &P,
    at: u32,
) -> Result<(Items<P::Tree>, u32), ExprFault>
    requires { P.can part.now }
    ensures { Gives (reading.if_any (lists.list tokens.now (P.part part.now)) at) result }
{
    if_any(alloc, list(alloc, tokens, part, at), at)
}
