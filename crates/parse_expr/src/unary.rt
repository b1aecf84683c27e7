//! Unary expressions ([expr.unary], [expr.reflect], [expr.sizeof], [expr.delete]).

ghost use Rattle.cxx_grammar.specs.Read.{read};
ghost use Rattle.cxx_grammar.specs.Unaries as spec;
ghost use Rattle.cxx_reading.specs.Reading.{Gives};
ghost use Rattle.std.specs.Prelude.{◌≡◌};
ghost use Rattle.cxx_grammar.specs.Rules.{Rules};
ghost use Rattle.cxx_reading.specs.Reading.{Steps, Tree, present};

use crate::made::size_of;
use crate::new::new_form;
use crate::operator::{unary_mark, unary_operator};
use containers::Boxed;
use cxx_reading::{ExprFault, Reader, Seen, expect, expect_word, kind_at, longer, span};
use cxx_tokens::Tokens;
use cxx_tokens::keyword::{DELETE, NEW, SIZEOF};
use cxx_tokens::mark::{LEFT_BRACKET, LEFT_PAREN, REFLECT, RIGHT_BRACKET, RIGHT_PAREN, SCOPE};
use cxx_tree::Expr;
use parse_level::{Deeper, deep_sized, deep_type, deep_unary};
use parse_primary::{begins_operand, operand, postfix};

#[tactic(auto, unfolding(cxx_grammar::specs::Unaries::empty_brackets))]
fn empty_brackets(tokens: &Tokens, at: u32) -> Result<u32, ExprFault>
    ensures { (deeper : Rules) → Steps (spec.empty_brackets tokens.now deeper at) result }
{
    let at = expect(tokens, LEFT_BRACKET, at)?;
    expect(tokens, RIGHT_BRACKET, at)
}

// Whether `[` and `]` stand there, and the token to go on at.
#[tactic(auto, unfolding(cxx_reading::specs::Reading::present))]
fn eat_brackets(tokens: &Tokens, at: u32) -> (bool, u32)
    ensures { (deeper : Rules) → present (spec.empty_brackets tokens.now deeper) at ≡ Tree result.0 result.1 }
{
    match empty_brackets(tokens, at) {
        Ok(after) => (true, after),
        Err(_) => (false, at),
    }
}

#[inline(never)]
#[tactic(auto, unfolding(cxx_grammar::specs::Unaries::prefixed_form))]
fn prefixed_form<D: Deeper>(reader: &Reader<'_, D>, start: u32) -> Result<(Expr, u32), ExprFault>
    requires { D.ready reader.now.deeper reader.now.tokens.now reader.now.level }
    ensures { Gives (spec.prefixed_form reader.now.tokens.now (read reader.now.tokens.now reader.now.level) start) result }
{
    let (op, at) = unary_operator(reader.tokens, start)?;
    let (operand, end) = deep_unary(reader, at)?;
    let operand = Boxed::new(reader.alloc, operand)?;
    Ok((
        Expr::Unary(span(reader.tokens, start, end), op, operand),
        end,
    ))
}

#[tactic(auto, unfolding(cxx_grammar::specs::Unaries::reflect_global))]
fn reflect_global<D: Deeper>(reader: &Reader<'_, D>, start: u32) -> Result<(Expr, u32), ExprFault>
    requires { D.ready reader.now.deeper reader.now.tokens.now reader.now.level }
    ensures { Gives (spec.reflect_global reader.now.tokens.now (read reader.now.tokens.now reader.now.level) start) result }
{
    let at = expect(reader.tokens, REFLECT, start)?;
    let end = expect(reader.tokens, SCOPE, at)?;
    Ok((Expr::ReflectGlobal(span(reader.tokens, start, end)), end))
}

#[tactic(auto, unfolding(cxx_grammar::specs::Unaries::reflect_type))]
fn reflect_type<D: Deeper>(reader: &Reader<'_, D>, start: u32) -> Result<(Expr, u32), ExprFault>
    requires { D.ready reader.now.deeper reader.now.tokens.now reader.now.level }
    ensures { Gives (spec.reflect_type reader.now.tokens.now (read reader.now.tokens.now reader.now.level) start) result }
{
    let at = expect(reader.tokens, REFLECT, start)?;
    let (of, end) = deep_type(reader, at)?;
    let of = Boxed::new(reader.alloc, of)?;
    Ok((Expr::Reflect(span(reader.tokens, start, end), of), end))
}

#[inline(never)]
#[tactic(auto, using(cxx_reading::proofs::Choices::choice), unfolding(cxx_grammar::specs::Unaries::reflect_form))]
fn reflect_form<D: Deeper>(reader: &Reader<'_, D>, start: u32) -> Result<(Expr, u32), ExprFault>
    requires { D.ready reader.now.deeper reader.now.tokens.now reader.now.level }
    ensures { Gives (spec.reflect_form reader.now.tokens.now (read reader.now.tokens.now reader.now.level) start) result }
{
    longer(reflect_global(reader, start), reflect_type(reader, start))
}

#[inline(never)]
#[tactic(auto, unfolding(cxx_grammar::specs::Unaries::sizeof_form))]
fn sizeof_form<D: Deeper>(reader: &Reader<'_, D>, start: u32) -> Result<(Expr, u32), ExprFault>
    requires { D.ready reader.now.deeper reader.now.tokens.now reader.now.level }
    ensures { Gives (spec.sizeof_form reader.now.tokens.now (read reader.now.tokens.now reader.now.level) start) result }
{
    let at = expect_word(reader.tokens, SIZEOF, start)?;
    let at = expect(reader.tokens, LEFT_PAREN, at)?;
    let (operand, at) = deep_sized(reader, at)?;
    let end = expect(reader.tokens, RIGHT_PAREN, at)?;
    let span = span(reader.tokens, start, end);
    Ok((size_of(reader.alloc, span, operand)?, end))
}

#[inline(never)]
#[tactic(auto, unfolding(cxx_grammar::specs::Unaries::delete_form))]
fn delete_form<D: Deeper>(reader: &Reader<'_, D>, start: u32) -> Result<(Expr, u32), ExprFault>
    requires { D.ready reader.now.deeper reader.now.tokens.now reader.now.level }
    ensures { Gives (spec.delete_form reader.now.tokens.now (read reader.now.tokens.now reader.now.level) start) result }
{
    let at = expect_word(reader.tokens, DELETE, start)?;
    let (is_array, at) = eat_brackets(reader.tokens, at);
    let (x, end) = deep_unary(reader, at)?;
    let x = Boxed::new(reader.alloc, x)?;
    Ok((
        Expr::Delete(span(reader.tokens, start, end), is_array, x),
        end,
    ))
}

// Told by its first token. Each form has a frame of its own, so that this one is small where they nest.
#[inline(never)]
#[tactic(auto, using(cxx_grammar::proofs::UnaryArms::unary_arms))]
fn any_unary<D: Deeper>(reader: &Reader<'_, D>, start: u32) -> Result<(Expr, u32), ExprFault>
    requires { D.ready reader.now.deeper reader.now.tokens.now reader.now.level }
    ensures { Gives (spec.unary reader.now.tokens.now (read reader.now.tokens.now reader.now.level) start) result }
{
    match kind_at(reader.tokens, start) {
        Some(Seen::Punctuator(mark)) => {
            if mark == REFLECT {
                reflect_form(reader, start)
            } else {
                match unary_mark(mark) {
                    Some(_) => prefixed_form(reader, start),
                    None => postfix(reader, start),
                }
            }
        }
        Some(Seen::Word(word)) => {
            if word == SIZEOF {
                sizeof_form(reader, start)
            } else if word == DELETE {
                delete_form(reader, start)
            } else if word == NEW {
                new_form(reader, start)
            } else {
                postfix(reader, start)
            }
        }
        Some(Seen::Identifier) => postfix(reader, start),
        Some(Seen::Integer) => postfix(reader, start),
        Some(Seen::Character) => postfix(reader, start),
        Some(Seen::Text) => postfix(reader, start),
        None => postfix(reader, start),
    }
}

/// A unary expression, as the grammar says. An integer or a name alone is read at once.
#[inline(always)]
#[tactic(auto, using(crate::proofs::Looks::unary_operand))]
pub fn unary_here<D: Deeper>(reader: &Reader<'_, D>, start: u32) -> Result<(Expr, u32), ExprFault>
    requires { D.ready reader.now.deeper reader.now.tokens.now reader.now.level }
    ensures { Gives (spec.unary reader.now.tokens.now (read reader.now.tokens.now reader.now.level) start) result }
{
    if begins_operand(reader.tokens, start) {
        operand(reader.alloc, reader.tokens, start)
    } else {
        any_unary(reader, start)
    }
}
