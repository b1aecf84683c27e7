//! Primary expressions ([expr.prim], [expr.type.conv]).

ghost use Rattle.std.specs.Prelude.{◌≡◌};
ghost use Rattle.cxx_grammar.specs.Joined as spec;
ghost use Rattle.cxx_grammar.specs.Names as names;
ghost use Rattle.cxx_grammar.specs.Primaries.{primary};
ghost use Rattle.cxx_grammar.specs.Read.{read};
ghost use Rattle.cxx_grammar.specs.Lists.{braced};
ghost use Rattle.cxx_reading.specs.Reading.{Gives, optional};

use crate::atoms::{
    character_form, false_form, integer_form, nullptr_form, text_form, this_form, true_form,
};
use crate::brackets::{cast_form, paren_form, splice_form, vector_form};
use crate::init::initializer;
use crate::made::{extract, fund_made, name_made, typename_made};
use cxx_base::library::EXTRACT;
use cxx_reading::{ExprFault, Reader, Seen, expect, expect_word, kind_at, optional, sees, span};
use cxx_tokens::keyword::{FALSE, NULLPTR, STATIC_CAST, THIS, TRUE, TYPENAME};
use cxx_tokens::mark::{GREATER, LEFT_BRACE, LEFT_PAREN, LEFT_SPLICE, LESS, RIGHT_PAREN};
use cxx_tree::{BracedTree, Expr, Fund, NameTree, SpliceTree};
use parse_level::{Deeper, deep_expr};
use parse_list::braced_list;
use parse_type::{fund, name, splice, type_tree, vector_head};

// Whether it has at least two parts, and the last is `extract`.
fn is_extract(name: &NameTree) -> bool
    ensures { result ≡ names.is_extract name.now }
{
    let count = name.more.len();
    if count == 0 {
        return false;
    }
    match name.more.get(count - 1) {
        Some(part) => part.name.0 == EXTRACT.0,
        None => false,
    }
}

#[inline(never)]
#[tactic(auto, unfolding(cxx_grammar::specs::Joined::extract_rest))]
fn extract_rest<D: Deeper>(
    reader: &Reader<'_, D>,
    start: u32,
    name: NameTree,
    at: u32,
) -> Result<(Expr, u32), ExprFault>
    requires { D.ready reader.now.deeper reader.now.tokens.now reader.now.level }
    ensures { Gives (spec.extract_rest reader.now.tokens.now (read reader.now.tokens.now reader.now.level) start name at) result }
{
    let at = expect(reader.tokens, LESS, at)?;
    let (to, at) = type_tree(reader, at)?;
    let at = expect(reader.tokens, GREATER, at)?;
    let at = expect(reader.tokens, LEFT_PAREN, at)?;
    let (x, at) = deep_expr(reader, at)?;
    let end = expect(reader.tokens, RIGHT_PAREN, at)?;
    let span = span(reader.tokens, start, end);
    Ok((extract(reader.alloc, span, name, to, x)?, end))
}

#[tactic(auto, unfolding(cxx_reading::specs::Reading::optional), using(cxx_reading::proofs::Answers::none_left))]
fn braced_if_any<D: Deeper>(
    reader: &Reader<'_, D>,
    start: u32,
) -> Result<(Option<BracedTree>, u32), ExprFault>
    requires { D.ready reader.now.deeper reader.now.tokens.now reader.now.level }
    ensures { Gives (optional (braced reader.now.tokens.now (read reader.now.tokens.now reader.now.level)) start) result }
{
    optional(braced_list(reader, start), start)
}

#[inline(never)]
#[tactic(auto, unfolding(cxx_grammar::specs::Joined::name_rest))]
fn name_with_list<D: Deeper>(
    reader: &Reader<'_, D>,
    start: u32,
    name: NameTree,
    at: u32,
) -> Result<(Expr, u32), ExprFault>
    requires { D.ready reader.now.deeper reader.now.tokens.now reader.now.level }
    ensures { Gives (spec.name_rest reader.now.tokens.now (read reader.now.tokens.now reader.now.level) start name at) result }
{
    let (list, end) = braced_if_any(reader, at)?;
    let span = span(reader.tokens, start, end);
    Ok((name_made(reader.alloc, span, name, list)?, end))
}

// Behind most names no list begins, and then nothing is built.
#[tactic(auto, using(cxx_grammar::proofs::Looks::name_alone))]
fn name_rest<D: Deeper>(
    reader: &Reader<'_, D>,
    start: u32,
    name: NameTree,
    at: u32,
) -> Result<(Expr, u32), ExprFault>
    requires { D.ready reader.now.deeper reader.now.tokens.now reader.now.level }
    ensures { Gives (spec.name_rest reader.now.tokens.now (read reader.now.tokens.now reader.now.level) start name at) result }
{
    if sees(reader.tokens, LEFT_BRACE, at) {
        name_with_list(reader, start, name, at)
    } else {
        Ok((Expr::Name(name), at))
    }
}

#[tactic(auto, unfolding(cxx_grammar::specs::Joined::named_rest))]
fn named_rest<D: Deeper>(
    reader: &Reader<'_, D>,
    start: u32,
    name: NameTree,
    at: u32,
) -> Result<(Expr, u32), ExprFault>
    requires { D.ready reader.now.deeper reader.now.tokens.now reader.now.level }
    ensures { Gives (spec.named_rest reader.now.tokens.now (read reader.now.tokens.now reader.now.level) start name at) result }
{
    if is_extract(&name) && sees(reader.tokens, LESS, at) {
        extract_rest(reader, start, name, at)
    } else {
        name_rest(reader, start, name, at)
    }
}

#[inline(never)]
#[tactic(auto, unfolding(cxx_grammar::specs::Joined::named_joined))]
fn named<D: Deeper>(reader: &Reader<'_, D>, start: u32) -> Result<(Expr, u32), ExprFault>
    requires { D.ready reader.now.deeper reader.now.tokens.now reader.now.level }
    ensures { Gives (spec.named_joined reader.now.tokens.now (read reader.now.tokens.now reader.now.level) start) result }
{
    let (name, at) = name(reader.alloc, reader.tokens, start)?;
    named_rest(reader, start, name, at)
}

#[tactic(auto, unfolding(cxx_grammar::specs::Joined::fund_rest))]
fn fund_rest<D: Deeper>(
    reader: &Reader<'_, D>,
    start: u32,
    fund: Fund,
    at: u32,
) -> Result<(Expr, u32), ExprFault>
    requires { D.ready reader.now.deeper reader.now.tokens.now reader.now.level }
    ensures { Gives (spec.fund_rest reader.now.tokens.now (read reader.now.tokens.now reader.now.level) start fund at) result }
{
    let (init, end) = initializer(reader, at)?;
    let all = span(reader.tokens, start, end);
    let basic = span(reader.tokens, start, at);
    Ok((fund_made(reader.alloc, all, basic, fund, init)?, end))
}

#[inline(never)]
#[tactic(auto, unfolding(cxx_grammar::specs::Joined::fund_joined))]
fn fund_form<D: Deeper>(reader: &Reader<'_, D>, start: u32) -> Result<(Expr, u32), ExprFault>
    requires { D.ready reader.now.deeper reader.now.tokens.now reader.now.level }
    ensures { Gives (spec.fund_joined reader.now.tokens.now (read reader.now.tokens.now reader.now.level) start) result }
{
    let (fund, at) = fund(reader.tokens, start)?;
    fund_rest(reader, start, fund, at)
}

#[tactic(auto, unfolding(cxx_grammar::specs::Joined::typename_rest))]
fn typename_rest<D: Deeper>(
    reader: &Reader<'_, D>,
    start: u32,
    splice: SpliceTree,
    at: u32,
) -> Result<(Expr, u32), ExprFault>
    requires { D.ready reader.now.deeper reader.now.tokens.now reader.now.level }
    ensures { Gives (spec.typename_rest reader.now.tokens.now (read reader.now.tokens.now reader.now.level) start splice at) result }
{
    let (init, end) = initializer(reader, at)?;
    let all = span(reader.tokens, start, end);
    let basic = span(reader.tokens, start, at);
    Ok((typename_made(reader.alloc, all, basic, splice, init)?, end))
}

#[inline(never)]
#[tactic(auto, unfolding(cxx_grammar::specs::Joined::typename_joined))]
fn typename_form<D: Deeper>(reader: &Reader<'_, D>, start: u32) -> Result<(Expr, u32), ExprFault>
    requires { D.ready reader.now.deeper reader.now.tokens.now reader.now.level }
    ensures { Gives (spec.typename_joined reader.now.tokens.now (read reader.now.tokens.now reader.now.level) start) result }
{
    let at = expect_word(reader.tokens, TYPENAME, start)?;
    let (splice, at) = splice(reader, at)?;
    typename_rest(reader, start, splice, at)
}

#[tactic(auto, unfolding(cxx_grammar::specs::Joined::identified))]
fn identified<D: Deeper>(reader: &Reader<'_, D>, start: u32) -> Result<(Expr, u32), ExprFault>
    requires { D.ready reader.now.deeper reader.now.tokens.now reader.now.level }
    ensures { Gives (spec.identified reader.now.tokens.now (read reader.now.tokens.now reader.now.level) start) result }
{
    match vector_head(reader.tokens, start) {
        Ok(_) => vector_form(reader, start),
        Err(_) => named(reader, start),
    }
}

/// A primary expression, as the grammar says.
#[tactic(auto, using(cxx_grammar::proofs::PrimaryArms::primary_arms))]
pub fn primary<D: Deeper>(reader: &Reader<'_, D>, start: u32) -> Result<(Expr, u32), ExprFault>
    requires { D.ready reader.now.deeper reader.now.tokens.now reader.now.level }
    ensures { Gives (primary reader.now.tokens.now (read reader.now.tokens.now reader.now.level) start) result }
{
    match kind_at(reader.tokens, start) {
        Some(Seen::Integer) => integer_form(reader.tokens, start),
        Some(Seen::Character) => character_form(reader.tokens, start),
        Some(Seen::Text) => text_form(reader.alloc, reader.tokens, start),
        Some(Seen::Identifier) => identified(reader, start),
        Some(Seen::Punctuator(mark)) => {
            if mark == LEFT_PAREN {
                paren_form(reader, start)
            } else if mark == LEFT_SPLICE {
                splice_form(reader, start)
            } else {
                named(reader, start)
            }
        }
        Some(Seen::Word(word)) => {
            if word == TRUE {
                true_form(reader.tokens, start)
            } else if word == FALSE {
                false_form(reader.tokens, start)
            } else if word == NULLPTR {
                nullptr_form(reader.tokens, start)
            } else if word == THIS {
                this_form(reader.tokens, start)
            } else if word == STATIC_CAST {
                cast_form(reader, start)
            } else if word == TYPENAME {
                typename_form(reader, start)
            } else {
                fund_form(reader, start)
            }
        }
        None => Err(ExprFault::S1),
    }
}
