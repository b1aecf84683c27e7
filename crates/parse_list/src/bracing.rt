//! Braced lists ([dcl.init.list]).

ghost use Rattle.cxx_grammar.specs.Joined as joined;
ghost use Rattle.cxx_grammar.specs.Lists as spec;
ghost use Rattle.cxx_grammar.specs.Read.{read};
ghost use Rattle.cxx_reading.specs.Reading.{Gives};

use crate::arguments::arg;
use crate::clauses::{first_clause, with_clause};
use containers::Items;
use cxx_grammar::{Clause, Clauses};
use cxx_reading::{
    ExprFault, Reader, eat, expect, identifier, left, longer, sees, sees_ahead, span,
};
use cxx_tokens::mark::{COMMA, DOT, EQUAL, LEFT_BRACE, RIGHT_BRACE};
use cxx_tree::{BracedTree, Designator};
use parse_level::{Deeper, deep_braced};

#[inline(never)]
#[tactic(auto, unfolding(cxx_grammar::specs::Lists::designator_equal))]
fn designator_equal<D: Deeper>(
    reader: &Reader<'_, D>,
    start: u32,
) -> Result<(Designator, u32), ExprFault>
    requires { D.ready reader.now.deeper reader.now.tokens.now reader.now.level }
    ensures { Gives (spec.designator_equal reader.now.tokens.now (read reader.now.tokens.now reader.now.level) start) result }
{
    let at = expect(reader.tokens, DOT, start)?;
    let (name, at) = identifier(reader.tokens, at)?;
    let at = expect(reader.tokens, EQUAL, at)?;
    let (x, end) = arg(reader, at)?;
    let span = span(reader.tokens, start, end);
    Ok((Designator::Equal(span, name, x), end))
}

#[inline(never)]
#[tactic(auto, unfolding(cxx_grammar::specs::Lists::designator_braced))]
fn designator_braced<D: Deeper>(
    reader: &Reader<'_, D>,
    start: u32,
) -> Result<(Designator, u32), ExprFault>
    requires { D.ready reader.now.deeper reader.now.tokens.now reader.now.level }
    ensures { Gives (spec.designator_braced reader.now.tokens.now (read reader.now.tokens.now reader.now.level) start) result }
{
    let at = expect(reader.tokens, DOT, start)?;
    let (name, at) = identifier(reader.tokens, at)?;
    let (x, end) = deep_braced(reader, at)?;
    let span = span(reader.tokens, start, end);
    Ok((Designator::Braced(span, name, x), end))
}

#[inline(never)]
#[tactic(auto, using(cxx_grammar::proofs::Looks::designators))]
fn designator<D: Deeper>(reader: &Reader<'_, D>, start: u32) -> Result<(Designator, u32), ExprFault>
    requires { D.ready reader.now.deeper reader.now.tokens.now reader.now.level }
    ensures { Gives (spec.designator reader.now.tokens.now (read reader.now.tokens.now reader.now.level) start) result }
{
    if sees_ahead(reader.tokens, EQUAL, start, 2) {
        designator_equal(reader, start)
    } else {
        designator_braced(reader, start)
    }
}

#[inline(never)]
#[tactic(auto, unfolding(cxx_grammar::specs::Lists::clause_plain))]
fn clause_plain<D: Deeper>(reader: &Reader<'_, D>, start: u32) -> Result<(Clause, u32), ExprFault>
    requires { D.ready reader.now.deeper reader.now.tokens.now reader.now.level }
    ensures { Gives (spec.clause_plain reader.now.tokens.now (read reader.now.tokens.now reader.now.level) start) result }
{
    let (x, end) = arg(reader, start)?;
    Ok((Clause::Plain(x), end))
}

#[inline(never)]
#[tactic(auto, unfolding(cxx_grammar::specs::Lists::clause_designator))]
fn clause_designator<D: Deeper>(
    reader: &Reader<'_, D>,
    start: u32,
) -> Result<(Clause, u32), ExprFault>
    requires { D.ready reader.now.deeper reader.now.tokens.now reader.now.level }
    ensures { Gives (spec.clause_designator reader.now.tokens.now (read reader.now.tokens.now reader.now.level) start) result }
{
    let (x, end) = designator(reader, start)?;
    Ok((Clause::Designator(x), end))
}

#[tactic(auto, unfolding(cxx_grammar::specs::Lists::clause), using(cxx_reading::proofs::Choices::choice))]
fn any_clause<D: Deeper>(reader: &Reader<'_, D>, start: u32) -> Result<(Clause, u32), ExprFault>
    requires { D.ready reader.now.deeper reader.now.tokens.now reader.now.level }
    ensures { Gives (spec.clause reader.now.tokens.now (read reader.now.tokens.now reader.now.level) start) result }
{
    longer(
        clause_plain(reader, start),
        clause_designator(reader, start),
    )
}

// A designator begins with a dot.
#[tactic(auto, using(cxx_grammar::proofs::Looks::clause_elsewhere))]
fn clause<D: Deeper>(reader: &Reader<'_, D>, start: u32) -> Result<(Clause, u32), ExprFault>
    requires { D.ready reader.now.deeper reader.now.tokens.now reader.now.level }
    ensures { Gives (spec.clause reader.now.tokens.now (read reader.now.tokens.now reader.now.level) start) result }
{
    if sees(reader.tokens, DOT, start) {
        any_clause(reader, start)
    } else {
        clause_plain(reader, start)
    }
}

#[tactic(auto, unfolding(cxx_grammar::specs::Lists::next_clause))]
fn next_clause<D: Deeper>(reader: &Reader<'_, D>, start: u32) -> Result<(Clause, u32), ExprFault>
    requires { D.ready reader.now.deeper reader.now.tokens.now reader.now.level }
    ensures { Gives (spec.next_clause reader.now.tokens.now (read reader.now.tokens.now reader.now.level) start) result }
{
    let at = expect(reader.tokens, COMMA, start)?;
    clause(reader, at)
}

#[inline(never)]
#[tactic(auto, unfolding(cxx_grammar::specs::Lists::more_clauses), using(cxx_reading::proofs::Turns::loops))]
fn more_clauses<D: Deeper>(
    reader: &Reader<'_, D>,
    mut found: Clauses,
    mut at: u32,
) -> Result<(Clauses, u32), ExprFault>
    requires { D.ready reader.now.deeper reader.now.tokens.now reader.now.level }
    ensures { Gives (spec.more_clauses reader.now.tokens.now (read reader.now.tokens.now reader.now.level) found at) result }
{
    for _turn in 0..left(reader.tokens, at) {
        match next_clause(reader, at) {
            Ok((x, after)) => {
                found = with_clause(found, x)?;
                at = after;
            }
            Err(ExprFault::S1) => return Ok((found, at)),
            Err(ExprFault::S2) => return Err(ExprFault::S2),
            Err(ExprFault::Memory) => return Err(ExprFault::Memory),
        }
    }
    Ok((found, at))
}

// A list of the first clause, apart from those behind it, so that not both stand on the stack.
#[inline(never)]
#[tactic(auto, unfolding(cxx_grammar::specs::Joined::one_clause))]
fn one_clause<D: Deeper>(reader: &Reader<'_, D>, start: u32) -> Result<(Clauses, u32), ExprFault>
    requires { D.ready reader.now.deeper reader.now.tokens.now reader.now.level }
    ensures { Gives (joined.one_clause reader.now.tokens.now (read reader.now.tokens.now reader.now.level) start) result }
{
    let (first, at) = clause(reader, start)?;
    let found = first_clause(reader.alloc, first)?;
    Ok((found, at))
}

// The clauses behind the first one.
#[tactic(auto, unfolding(cxx_grammar::specs::Joined::clauses_from))]
fn clauses_from<D: Deeper>(
    reader: &Reader<'_, D>,
    found: Clauses,
    at: u32,
) -> Result<(Clauses, u32), ExprFault>
    requires { D.ready reader.now.deeper reader.now.tokens.now reader.now.level }
    ensures { Gives (joined.clauses_from reader.now.tokens.now (read reader.now.tokens.now reader.now.level) found at) result }
{
    let (found, at) = more_clauses(reader, found, at)?;
    let (_, end) = eat(reader.tokens, COMMA, at);
    Ok((found, end))
}

#[inline(never)]
#[tactic(auto, using(cxx_grammar::proofs::Looks::clauses_by_one))]
fn some_clauses<D: Deeper>(reader: &Reader<'_, D>, start: u32) -> Result<(Clauses, u32), ExprFault>
    requires { D.ready reader.now.deeper reader.now.tokens.now reader.now.level }
    ensures { Gives (spec.some_clauses reader.now.tokens.now (read reader.now.tokens.now reader.now.level) start) result }
{
    let (found, at) = one_clause(reader, start)?;
    clauses_from(reader, found, at)
}

#[tactic(auto, unfolding(cxx_grammar::specs::Lists::clauses_if_any, cxx_reading::specs::Reading::optional))]
fn clauses_if_any<D: Deeper>(
    reader: &Reader<'_, D>,
    start: u32,
) -> Result<(Clauses, u32), ExprFault>
    requires { D.ready reader.now.deeper reader.now.tokens.now reader.now.level }
    ensures { Gives (spec.clauses_if_any reader.now.tokens.now (read reader.now.tokens.now reader.now.level) start) result }
{
    match some_clauses(reader, start) {
        Ok(found) => Ok(found),
        Err(ExprFault::S1) => Ok((Clauses::Plain(Items::new(reader.alloc)), start)),
        Err(ExprFault::S2) => Err(ExprFault::S2),
        Err(ExprFault::Memory) => Err(ExprFault::Memory),
    }
}

/// A braced list, as the grammar says.
#[inline(never)]
#[tactic(auto, unfolding(cxx_grammar::specs::Lists::braced))]
pub fn braced_list<D: Deeper>(
    reader: &Reader<'_, D>,
    start: u32,
) -> Result<(BracedTree, u32), ExprFault>
    requires { D.ready reader.now.deeper reader.now.tokens.now reader.now.level }
    ensures { Gives (spec.braced reader.now.tokens.now (read reader.now.tokens.now reader.now.level) start) result }
{
    let at = expect(reader.tokens, LEFT_BRACE, start)?;
    let (found, at) = clauses_if_any(reader, at)?;
    let end = expect(reader.tokens, RIGHT_BRACE, at)?;
    let span = span(reader.tokens, start, end);
    match found {
        Clauses::Plain(found) => Ok((BracedTree::Clauses(span, found), end)),
        Clauses::Designated(found) => Ok((BracedTree::Designated(span, found), end)),
        Clauses::Mixed => Err(ExprFault::S1),
    }
}
