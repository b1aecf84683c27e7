//! Operands of one token: an integer or a name with nothing behind it that belongs to it.

ghost use Rattle.std.specs.Prelude.{◌≡◌, ◌+◌, true, ℕ};
ghost use Rattle.cxx_grammar.specs.Postfixes as spec;
ghost use Rattle.cxx_grammar.specs.Read.{read};
ghost use Rattle.cxx_reading.specs.Reading.{Gives, kind};
ghost use Rattle.parse_primary.specs.Looks as looks;

use crate::atoms::integer_form;
use crate::suffixes::begins_suffix;
use containers::Items;
use cxx_reading::{ExprFault, Seen, identifier, kind_ahead, kind_at, sees_identifier};
use cxx_tokens::Tokens;
use cxx_tokens::mark::{LEFT_BRACE, SCOPE};
use cxx_tree::{Expr, NameTree};
use std::alloc::Global;

// Whether what stands behind a name belongs to it: a further part, or a braced list.
#[inline(always)]
fn goes_on(kind: Option<Seen>) -> bool
    ensures { result ≡ looks.goes_on kind }
{
    match kind {
        Some(Seen::Punctuator(mark)) => mark == SCOPE || mark == LEFT_BRACE,
        _ => false,
    }
}

/// Whether an integer or a name stands there, and nothing behind it that belongs to it.
#[inline(always)]
pub fn begins_operand(tokens: &Tokens, at: u32) -> bool
    ensures { result ≡ looks.is_operand (kind tokens.now at) (kind tokens.now (at + 1)) }
{
    match kind_at(tokens, at) {
        Some(Seen::Integer) => !begins_suffix(kind_ahead(tokens, at, 1)),
        Some(Seen::Identifier) => {
            let behind = kind_ahead(tokens, at, 1);
            !(begins_suffix(behind) || goes_on(behind))
        }
        _ => false,
    }
}

#[inline(always)]
fn lone_name(alloc: Global, tokens: &Tokens, start: u32) -> Result<(Expr, u32), ExprFault>
    ensures { Gives (looks.lone_name tokens.now start) result }
{
    let (first, end) = identifier(tokens, start)?;
    let name = NameTree {
        span: first.span,
        rooted: false,
        first,
        more: Items::new(alloc),
    };
    Ok((Expr::Name(name), end))
}

/// The postfix expression that is an integer or a name alone.
#[inline(always)]
pub fn operand(alloc: Global, tokens: &Tokens, start: u32) -> Result<(Expr, u32), ExprFault>
    requires { looks.is_operand (kind tokens.now start) (kind tokens.now (start + 1)) ≡ true }
    ensures { (level : ℕ) → Gives (spec.postfix tokens.now (read tokens.now level) start) result }
{
    if sees_identifier(tokens, start) {
        lone_name(alloc, tokens, start)
    } else {
        integer_form(tokens, start)
    }
}
