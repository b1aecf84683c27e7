//! Postfix expressions ([expr.post]).

ghost use Rattle.std.specs.Prelude.{◌≡◌};
ghost use Rattle.cxx_grammar.specs.Joined as joined;
ghost use Rattle.cxx_grammar.specs.Postfixes as spec;
ghost use Rattle.cxx_grammar.specs.Read.{read};
ghost use Rattle.cxx_reading.specs.Reading.{Gives};

use crate::made;
use crate::primaries::primary;
use containers::{Boxed, Items};
use cxx_reading::{ExprFault, Reader, Seen, expect, identifier, kind_at, longer, repeat, span};
use cxx_tokens::Tokens;
use cxx_tokens::mark::{ARROW, DOT, LEFT_BRACKET, LEFT_PAREN, RIGHT_BRACKET};
use cxx_tree::{Expr, Suffix};
use parse_level::{Deeper, deep_expr};
use parse_list::args;
use parse_type::splice;

fn dot(tokens: &Tokens, at: u32) -> Result<(bool, u32), ExprFault>
    ensures { Gives (spec.dot tokens.now at) result }
{
    let end = expect(tokens, DOT, at)?;
    Ok((false, end))
}

fn pointing(tokens: &Tokens, at: u32) -> Result<(bool, u32), ExprFault>
    ensures { Gives (spec.pointing tokens.now at) result }
{
    let end = expect(tokens, ARROW, at)?;
    Ok((true, end))
}

// Whether `->` stands there, or `.`.
#[tactic(auto, unfolding(cxx_grammar::specs::Postfixes::arrow), using(cxx_reading::proofs::Choices::choice))]
fn arrow(tokens: &Tokens, at: u32) -> Result<(bool, u32), ExprFault>
    ensures { Gives (spec.arrow tokens.now at) result }
{
    longer(dot(tokens, at), pointing(tokens, at))
}

#[inline(never)]
#[tactic(auto, unfolding(cxx_grammar::specs::Postfixes::call_suffix))]
fn call_suffix<D: Deeper>(reader: &Reader<'_, D>, start: u32) -> Result<(Suffix, u32), ExprFault>
    requires { D.ready reader.now.deeper reader.now.tokens.now reader.now.level }
    ensures { Gives (spec.call_suffix reader.now.tokens.now (read reader.now.tokens.now reader.now.level) start) result }
{
    let (found, end) = args(reader, start)?;
    Ok((Suffix::Call(found), end))
}

#[inline(never)]
#[tactic(auto, unfolding(cxx_grammar::specs::Postfixes::subscript_suffix))]
fn subscript_suffix<D: Deeper>(
    reader: &Reader<'_, D>,
    start: u32,
) -> Result<(Suffix, u32), ExprFault>
    requires { D.ready reader.now.deeper reader.now.tokens.now reader.now.level }
    ensures { Gives (spec.subscript_suffix reader.now.tokens.now (read reader.now.tokens.now reader.now.level) start) result }
{
    let at = expect(reader.tokens, LEFT_BRACKET, start)?;
    let (x, at) = deep_expr(reader, at)?;
    let end = expect(reader.tokens, RIGHT_BRACKET, at)?;
    let x = Boxed::new(reader.alloc, x)?;
    Ok((Suffix::Subscript(span(reader.tokens, start, end), x), end))
}

#[tactic(auto, unfolding(cxx_grammar::specs::Postfixes::member_suffix))]
fn member_suffix<D: Deeper>(reader: &Reader<'_, D>, start: u32) -> Result<(Suffix, u32), ExprFault>
    requires { D.ready reader.now.deeper reader.now.tokens.now reader.now.level }
    ensures { Gives (spec.member_suffix reader.now.tokens.now (read reader.now.tokens.now reader.now.level) start) result }
{
    let (is_arrow, at) = arrow(reader.tokens, start)?;
    let (name, end) = identifier(reader.tokens, at)?;
    let span = span(reader.tokens, start, end);
    Ok((Suffix::Member(span, is_arrow, name), end))
}

#[tactic(auto, unfolding(cxx_grammar::specs::Postfixes::member_splice_suffix))]
fn member_splice_suffix<D: Deeper>(
    reader: &Reader<'_, D>,
    start: u32,
) -> Result<(Suffix, u32), ExprFault>
    requires { D.ready reader.now.deeper reader.now.tokens.now reader.now.level }
    ensures { Gives (spec.member_splice_suffix reader.now.tokens.now (read reader.now.tokens.now reader.now.level) start) result }
{
    let (is_arrow, at) = arrow(reader.tokens, start)?;
    let (x, end) = splice(reader, at)?;
    let span = span(reader.tokens, start, end);
    Ok((Suffix::MemberSplice(span, is_arrow, x), end))
}

#[inline(never)]
#[tactic(auto, using(cxx_reading::proofs::Choices::choice))]
fn any_member<D: Deeper>(reader: &Reader<'_, D>, start: u32) -> Result<(Suffix, u32), ExprFault>
    requires { D.ready reader.now.deeper reader.now.tokens.now reader.now.level }
    ensures { Gives (spec.any_member reader.now.tokens.now (read reader.now.tokens.now reader.now.level) start) result }
{
    longer(
        member_suffix(reader, start),
        member_splice_suffix(reader, start),
    )
}

#[tactic(auto, using(cxx_grammar::proofs::SuffixArms::suffix_arms))]
fn suffix<D: Deeper>(reader: &Reader<'_, D>, start: u32) -> Result<(Suffix, u32), ExprFault>
    requires { D.ready reader.now.deeper reader.now.tokens.now reader.now.level }
    ensures { Gives (spec.suffix reader.now.tokens.now (read reader.now.tokens.now reader.now.level) start) result }
{
    match kind_at(reader.tokens, start) {
        Some(Seen::Punctuator(mark)) => {
            if mark == LEFT_PAREN {
                call_suffix(reader, start)
            } else if mark == LEFT_BRACKET {
                subscript_suffix(reader, start)
            } else if mark == DOT || mark == ARROW {
                any_member(reader, start)
            } else {
                Err(ExprFault::S1)
            }
        }
        Some(Seen::Identifier) => Err(ExprFault::S1),
        Some(Seen::Integer) => Err(ExprFault::S1),
        Some(Seen::Character) => Err(ExprFault::S1),
        Some(Seen::Text) => Err(ExprFault::S1),
        Some(Seen::Word(_)) => Err(ExprFault::S1),
        None => Err(ExprFault::S1),
    }
}

#[tactic(auto, unfolding(cxx_grammar::specs::Postfixes::suffixes))]
fn suffixes<D: Deeper>(
    reader: &Reader<'_, D>,
    found: Items<Suffix>,
    at: u32,
) -> Result<(Items<Suffix>, u32), ExprFault>
    requires { D.ready reader.now.deeper reader.now.tokens.now reader.now.level }
    ensures { Gives (spec.suffixes reader.now.tokens.now (read reader.now.tokens.now reader.now.level) found at) result }
{
    repeat(
        reader.alloc,
        reader.tokens,
        |at| suffix(reader, at),
        found,
        at,
    )
}

/// Whether a suffix begins with such a token.
#[inline(always)]
pub fn begins_suffix(kind: Option<Seen>) -> bool
    ensures { result ≡ joined.begins_suffix kind }
{
    match kind {
        Some(Seen::Punctuator(mark)) => {
            mark == LEFT_PAREN || (mark == LEFT_BRACKET || (mark == DOT || mark == ARROW))
        }
        _ => false,
    }
}

#[inline(never)]
#[tactic(auto, unfolding(cxx_grammar::specs::Joined::postfix_from))]
fn with_suffixes<D: Deeper>(
    reader: &Reader<'_, D>,
    start: u32,
    x: Expr,
    at: u32,
) -> Result<(Expr, u32), ExprFault>
    requires { D.ready reader.now.deeper reader.now.tokens.now reader.now.level }
    ensures { Gives (joined.postfix_from reader.now.tokens.now (read reader.now.tokens.now reader.now.level) start x at) result }
{
    let (found, end) = suffixes(reader, Items::new(reader.alloc), at)?;
    let span = span(reader.tokens, start, end);
    Ok((made::postfix(reader.alloc, x, found, span)?, end))
}

/// The rest of a postfix expression that began at `start` with this primary expression. Behind most operands no suffix begins, and
/// then nothing is built.
#[tactic(auto, using(cxx_grammar::proofs::Looks::no_suffixes))]
pub fn postfix_from<D: Deeper>(
    reader: &Reader<'_, D>,
    start: u32,
    x: Expr,
    at: u32,
) -> Result<(Expr, u32), ExprFault>
    requires { D.ready reader.now.deeper reader.now.tokens.now reader.now.level }
    ensures { Gives (joined.postfix_from reader.now.tokens.now (read reader.now.tokens.now reader.now.level) start x at) result }
{
    if begins_suffix(kind_at(reader.tokens, at)) {
        with_suffixes(reader, start, x, at)
    } else {
        Ok((x, at))
    }
}

/// A postfix expression, as the grammar says.
#[tactic(auto, using(cxx_grammar::proofs::Chains::postfix_by_primary))]
pub fn postfix<D: Deeper>(reader: &Reader<'_, D>, start: u32) -> Result<(Expr, u32), ExprFault>
    requires { D.ready reader.now.deeper reader.now.tokens.now reader.now.level }
    ensures { Gives (spec.postfix reader.now.tokens.now (read reader.now.tokens.now reader.now.level) start) result }
{
    let (x, at) = primary(reader, start)?;
    postfix_from(reader, start, x, at)
}
