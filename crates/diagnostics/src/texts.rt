//! The texts of refusals.

ghost use Rattle.std.specs.Prelude.{◌≡◌};
ghost use Rattle.diagnostics.specs.Texts as spec;

use cxx_base::{Code, Refusal, cause};

/// What the report says of a refusal behind its code. The text of `R1` begins with a space, since the line has the
/// piece that is refused before it. The numbers are those of the limits.
#[tactic(auto, using(crate::proofs::LimitTexts::source_text, crate::proofs::LimitTexts::nesting_text, crate::proofs::LimitTexts::pieces_text, crate::proofs::LimitTexts::units_text))]
pub fn text(refusal: &Refusal) -> &'static str
    ensures { result.now ≡ spec.text refusal.now.code refusal.now.detail }
{
    match refusal.code {
        Code::L1 => "source is not UTF-8",
        Code::L2 => "no token begins here",
        Code::L3 => "integer literal is too large",
        Code::L4 => "literal or comment does not end",
        Code::L5 => "identifier is too long or not in normalization form C",
        Code::L6 => "source is longer than 4194304 bytes",
        Code::S1 => "syntax error",
        Code::S2 => "nesting is deeper than 256",
        Code::P1 => "more than 65536 pieces",
        Code::P2 => "more than 256 units",
        Code::N1 => "name is not declared",
        Code::N2 => "name is declared twice",
        Code::N3 => "name is of another kind",
        Code::N4 => "no such member",
        Code::N5 => "member is not accessible",
        Code::T1 => "no conversion",
        Code::T2 => "wrong number of arguments",
        Code::T3 => "operand type does not fit",
        Code::T4 => "class is not complete",
        Code::T5 => "not modifiable or declared otherwise",
        Code::T6 => "narrowing conversion",
        Code::T7 => "object of a consteval-only type is not allowed here",
        Code::T8 => "declaration is outside the profile",
        Code::T9 => "array bound out of range",
        Code::T10 => "object is too large",
        Code::V1 => arithmetic_cause(refusal.detail),
        Code::V2 => "outside the bounds of the object",
        Code::V3 => "null pointer",
        Code::V4 => "object is outside its lifetime",
        Code::V5 => "object has no value",
        Code::V6 => "object is const",
        Code::V7 => "object is not of this evaluation",
        Code::V8 => "storage is not released as it was allocated",
        Code::V9 => "storage is never released",
        Code::V10 => "result points to an object that does not last",
        Code::V11 => "pointers into different objects",
        Code::V12 => "step limit passed",
        Code::V13 => "call depth limit passed",
        Code::V14 => call_cause(refusal.detail),
        Code::V15 => "static assertion is false",
        Code::M1 => "condition of the query is not met",
        Code::M2 => "splice of another kind",
        Code::M3 => "splice of the null reflection",
        Code::M4 => "not in a consteval block",
        Code::M5 => "the block does not reach the class",
        Code::M6 => "the class is already complete",
        Code::M7 => "description is not fit",
        Code::R1 => " is refused",
    }
}

// Why an operation of whole numbers has no value.
fn arithmetic_cause(detail: u64) -> &'static str
    ensures { result.now ≡ spec.arithmetic_cause detail }
{
    match detail {
        cause::SIGNED_OVERFLOW => "signed overflow",
        cause::DIVISION_BY_ZERO => "division by zero",
        cause::LEAST_BY_MINUS_ONE => "least value divided by -1",
        _ => "shift count out of range",
    }
}

// Why a call has no value.
fn call_cause(detail: u64) -> &'static str
    ensures { result.now ≡ spec.call_cause detail }
{
    match detail {
        cause::NOT_CONSTEXPR => "function is not constexpr",
        cause::NOT_DEFINED_YET => "no definition before this point",
        _ => "function ended without a value",
    }
}
