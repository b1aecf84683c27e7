//! Binary operators ([expr.mul] to [expr.log.or]).

ghost use Rattle.std.specs.Prelude.{◌≡◌, ◌+◌, ◌<◌, length, IfSome};
ghost use Rattle.cxx_grammar.specs.Operators as spec;
ghost use Rattle.parse_chain.specs.Next.{operator_at};

use cxx_base::{CompareOp, IntOp};
use cxx_grammar::Operator;
use cxx_tokens::mark::{
    AMPERSAND, AND, CARET, EQUAL_EQUAL, GREATER, GREATER_EQUAL, LESS, LESS_EQUAL, MINUS, NOT_EQUAL,
    OR, PERCENT, PIPE, PLUS, SHIFT_LEFT, SHIFT_RIGHT, SLASH, STAR,
};
use cxx_tokens::{TokenKind, Tokens};
use cxx_tree::BinaryOp;

fn logical(line: u32, op: BinaryOp) -> Option<Operator>
    ensures { result ≡ spec.on_line line op }
{
    Some(Operator { line, op })
}

fn computed(line: u32, op: IntOp) -> Option<Operator>
    ensures { result ≡ spec.computed line op }
{
    Some(Operator {
        line,
        op: BinaryOp::Int(op),
    })
}

fn compared(line: u32, op: CompareOp) -> Option<Operator>
    ensures { result ≡ spec.compared line op }
{
    Some(Operator {
        line,
        op: BinaryOp::Compare(op),
    })
}

// The binary operator that a punctuator is, with its line.
fn binary_mark(mark: u32) -> Option<Operator>
    ensures value { result ≡ spec.binary_mark mark }
    ensures line { IfSome result (λ operator. operator.line < 10) }
{
    if mark == STAR {
        computed(0, IntOp::Mul)
    } else if mark == SLASH {
        computed(0, IntOp::Div)
    } else if mark == PERCENT {
        computed(0, IntOp::Rem)
    } else if mark == PLUS {
        computed(1, IntOp::Add)
    } else if mark == MINUS {
        computed(1, IntOp::Sub)
    } else if mark == SHIFT_LEFT {
        computed(2, IntOp::Shl)
    } else if mark == SHIFT_RIGHT {
        computed(2, IntOp::Shr)
    } else if mark == LESS {
        compared(3, CompareOp::Lt)
    } else if mark == LESS_EQUAL {
        compared(3, CompareOp::Le)
    } else if mark == GREATER {
        compared(3, CompareOp::Gt)
    } else if mark == GREATER_EQUAL {
        compared(3, CompareOp::Ge)
    } else if mark == EQUAL_EQUAL {
        compared(4, CompareOp::Eq)
    } else if mark == NOT_EQUAL {
        compared(4, CompareOp::Ne)
    } else if mark == AMPERSAND {
        computed(5, IntOp::And)
    } else if mark == CARET {
        computed(6, IntOp::Xor)
    } else if mark == PIPE {
        computed(7, IntOp::Or)
    } else if mark == AND {
        logical(8, BinaryOp::LogicalAnd)
    } else if mark == OR {
        logical(9, BinaryOp::LogicalOr)
    } else {
        None
    }
}

/// The operator that stands there, if one does, and the number of the token behind it.
#[tactic(auto, unfolding(cxx_reading::specs::Reading::kind, crate::specs::Next::operator_at))]
pub fn operator_at(tokens: &Tokens, at: u32) -> Option<(Operator, u32)>
    ensures value { result ≡ operator_at tokens.now at }
    ensures line { IfSome result (λ found. found.0.line < 10) }
    ensures behind { IfSome result (λ found. found.1 ≡ at + 1) }
    ensures within { IfSome result (λ found. at < length tokens.now.list) }
{
    match tokens.list.get(at as usize) {
        Some(token) => match token.kind {
            TokenKind::Punctuator(mark) => match binary_mark(mark) {
                Some(operator) => Some((operator, at + 1)),
                None => None,
            },
            _ => None,
        },
        None => None,
    }
}
