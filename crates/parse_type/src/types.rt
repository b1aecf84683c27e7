//! Types ([dcl.name]) and splices (P2996R13).

ghost use Rattle.std.specs.Prelude.{[]};
ghost use Rattle.cxx_grammar.specs.Read.{read};
ghost use Rattle.cxx_grammar.specs.Types as spec;
ghost use Rattle.cxx_reading.specs.Reading.{Gives};

use crate::fundamental::fund;
use crate::names::{name, vector_head};
use containers::{Boxed, Items};
use cxx_reading::{
    ExprFault, Reader, Seen, eat, eat_word, expect, expect_word, kind_at, repeat, sees, span,
};
use cxx_tokens::Tokens;
use cxx_tokens::keyword::{CONST, TYPENAME};
use cxx_tokens::mark::{AMPERSAND, GREATER, LEFT_SPLICE, RIGHT_SPLICE, STAR};
use cxx_tree::{BasicTree, SpliceTree, TypeTree};
use parse_level::{Deeper, deep_expr};
use std::alloc::Global;

#[tactic(auto, unfolding(cxx_grammar::specs::Types::pointer))]
fn pointer(tokens: &Tokens, at: u32) -> Result<(bool, u32), ExprFault>
    ensures { Gives (spec.pointer tokens.now at) result }
{
    let at = expect(tokens, STAR, at)?;
    Ok(eat_word(tokens, CONST, at))
}

/// The marks of pointers behind a type, added to those found.
#[inline(never)]
#[tactic(auto, unfolding(cxx_grammar::specs::Types::pointers))]
pub fn pointers(
    alloc: Global,
    tokens: &Tokens,
    found: Items<bool>,
    at: u32,
) -> Result<(Items<bool>, u32), ExprFault>
    ensures { Gives (spec.pointers tokens.now found at) result }
{
    repeat(alloc, tokens, |at| pointer(tokens, at), found, at)
}

// The same from none. Mostly there are none, which one look tells.
#[inline(always)]
#[tactic(auto, using(crate::proofs::Looks::no_pointers))]
fn all_pointers(alloc: Global, tokens: &Tokens, at: u32) -> Result<(Items<bool>, u32), ExprFault>
    ensures { Gives (spec.pointers tokens.now [] at) result }
{
    if sees(tokens, STAR, at) {
        pointers(alloc, tokens, Items::new(alloc), at)
    } else {
        Ok((Items::new(alloc), at))
    }
}

#[tactic(auto, unfolding(cxx_grammar::specs::Types::basic_fund))]
fn basic_fund(tokens: &Tokens, start: u32) -> Result<(BasicTree, u32), ExprFault>
    ensures { Gives (spec.basic_fund tokens.now start) result }
{
    let (fund, end) = fund(tokens, start)?;
    Ok((BasicTree::Fund(span(tokens, start, end), fund), end))
}

#[tactic(auto, unfolding(cxx_grammar::specs::Types::basic_name))]
fn basic_name(alloc: Global, tokens: &Tokens, start: u32) -> Result<(BasicTree, u32), ExprFault>
    ensures { Gives (spec.basic_name tokens.now start) result }
{
    let (name, end) = name(alloc, tokens, start)?;
    Ok((BasicTree::Name(name), end))
}

/// The type of a vector.
#[tactic(auto, unfolding(cxx_grammar::specs::Types::basic_vector))]
pub fn basic_vector(
    alloc: Global,
    tokens: &Tokens,
    start: u32,
) -> Result<(BasicTree, u32), ExprFault>
    ensures { Gives (spec.basic_vector tokens.now start) result }
{
    let at = vector_head(tokens, start)?;
    let (of, at) = name(alloc, tokens, at)?;
    let end = expect(tokens, GREATER, at)?;
    Ok((BasicTree::Vector(span(tokens, start, end), of), end))
}

/// A splice, as the grammar says.
#[inline(never)]
#[tactic(auto, unfolding(cxx_grammar::specs::Types::splice))]
pub fn splice<D: Deeper>(reader: &Reader<'_, D>, start: u32) -> Result<(SpliceTree, u32), ExprFault>
    requires { D.ready reader.now.deeper reader.now.tokens.now reader.now.level }
    ensures { Gives (spec.splice reader.now.tokens.now (read reader.now.tokens.now reader.now.level) start) result }
{
    let at = expect(reader.tokens, LEFT_SPLICE, start)?;
    let (inner, at) = deep_expr(reader, at)?;
    let end = expect(reader.tokens, RIGHT_SPLICE, at)?;
    let inner = Boxed::new(reader.alloc, inner)?;
    Ok((
        SpliceTree::Splice(span(reader.tokens, start, end), inner),
        end,
    ))
}

#[tactic(auto, unfolding(cxx_grammar::specs::Types::basic_typename))]
fn basic_typename<D: Deeper>(
    reader: &Reader<'_, D>,
    start: u32,
) -> Result<(BasicTree, u32), ExprFault>
    requires { D.ready reader.now.deeper reader.now.tokens.now reader.now.level }
    ensures { Gives (spec.basic_typename reader.now.tokens.now (read reader.now.tokens.now reader.now.level) start) result }
{
    let at = expect_word(reader.tokens, TYPENAME, start)?;
    let (inner, end) = splice(reader, at)?;
    Ok((
        BasicTree::Typename(span(reader.tokens, start, end), inner),
        end,
    ))
}

#[inline(never)]
#[tactic(auto, using(cxx_grammar::proofs::TypeArms::basic_arms))]
fn any_basic<D: Deeper>(reader: &Reader<'_, D>, start: u32) -> Result<(BasicTree, u32), ExprFault>
    requires { D.ready reader.now.deeper reader.now.tokens.now reader.now.level }
    ensures { Gives (spec.basic reader.now.tokens.now (read reader.now.tokens.now reader.now.level) start) result }
{
    match kind_at(reader.tokens, start) {
        Some(Seen::Identifier) => match vector_head(reader.tokens, start) {
            Ok(_) => basic_vector(reader.alloc, reader.tokens, start),
            Err(_) => basic_name(reader.alloc, reader.tokens, start),
        },
        Some(Seen::Punctuator(_)) => basic_name(reader.alloc, reader.tokens, start),
        Some(Seen::Word(word)) => {
            if word == TYPENAME {
                basic_typename(reader, start)
            } else {
                basic_fund(reader.tokens, start)
            }
        }
        Some(Seen::Integer) => Err(ExprFault::S1),
        Some(Seen::Character) => Err(ExprFault::S1),
        Some(Seen::Text) => Err(ExprFault::S1),
        None => Err(ExprFault::S1),
    }
}

// The same, where the words of a fundamental type are read at once.
#[inline(always)]
#[tactic(auto, using(cxx_grammar::proofs::TypeArms::basic_arms))]
fn basic<D: Deeper>(reader: &Reader<'_, D>, start: u32) -> Result<(BasicTree, u32), ExprFault>
    requires { D.ready reader.now.deeper reader.now.tokens.now reader.now.level }
    ensures { Gives (spec.basic reader.now.tokens.now (read reader.now.tokens.now reader.now.level) start) result }
{
    match kind_at(reader.tokens, start) {
        Some(Seen::Word(word)) => {
            if word == TYPENAME {
                any_basic(reader, start)
            } else {
                basic_fund(reader.tokens, start)
            }
        }
        _ => any_basic(reader, start),
    }
}

/// A type, as the grammar says.
#[inline(never)]
#[tactic(auto, unfolding(cxx_grammar::specs::Types::type_tree))]
pub fn type_tree<D: Deeper>(
    reader: &Reader<'_, D>,
    start: u32,
) -> Result<(TypeTree, u32), ExprFault>
    requires { D.ready reader.now.deeper reader.now.tokens.now reader.now.level }
    ensures { Gives (spec.type_tree reader.now.tokens.now (read reader.now.tokens.now reader.now.level) start) result }
{
    let (before, at) = eat_word(reader.tokens, CONST, start);
    let (basic, at) = basic(reader, at)?;
    let (after, at) = eat_word(reader.tokens, CONST, at);
    let (pointers, at) = all_pointers(reader.alloc, reader.tokens, at)?;
    let (reference, end) = eat(reader.tokens, AMPERSAND, at);
    let span = span(reader.tokens, start, end);
    Ok((
        TypeTree::Type(span, before || after, basic, pointers, reference),
        end,
    ))
}
