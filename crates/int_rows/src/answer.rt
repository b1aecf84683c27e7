//! What a call gives, in words.

use crate::words::name_of;
use int_kinds::{ArithFault, IntKind};
use row_edge::RowFault;
use std::alloc::AllocError;

/// What the call of a row gives.
#[derive(Clone, Copy)]
pub enum Answer {
    Number(i128),
    Fault(ArithFault),
    Truth(bool),
    Kind(IntKind),
    /// No kind holds the literal.
    NoKind,
    /// The laws were called, and each gave its caller what it says.
    LawsHold,
}

/// The answer of an operator that may have no value.
pub fn exact(value: Result<i128, ArithFault>) -> Answer {
    match value {
        Ok(n) => Answer::Number(n),
        Err(fault) => Answer::Fault(fault),
    }
}

fn fault_words(fault: ArithFault) -> &'static str {
    match fault {
        ArithFault::Overflow => "overflow",
        ArithFault::ZeroDivisor => "zero divisor",
        ArithFault::LeastByMinusOne => "least by minus one",
        ArithFault::ShiftCount => "shift count",
    }
}

fn push_answer(out: &mut String, answer: Answer) -> Result<(), AllocError> {
    match answer {
        Answer::Number(n) => write!(out, "{n}"),
        Answer::Fault(fault) => out.push_str(fault_words(fault)),
        Answer::Truth(true) => out.push_str("true"),
        Answer::Truth(false) => out.push_str("false"),
        Answer::Kind(kind) => out.push_str(name_of(kind)),
        Answer::NoKind => out.push_str("no kind"),
        Answer::LawsHold => out.push_str("hold"),
    }
}

/// Puts an answer at the end of a text.
pub fn append_answer(out: &mut String, answer: Answer) -> Result<(), RowFault> {
    push_answer(out, answer)?;
    Ok(())
}
