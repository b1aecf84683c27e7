//! The call that a line names.

use crate::answer::{Answer, exact};
use crate::words::{
    next_base, next_comparison, next_kind, next_number, next_operator, next_suffix, next_value,
};
use int_kinds::{
    IntKind, IntOp, apply, bits_are_joined, common, compare, complement, complement_is_below,
    convert, division_is_whole, greatest, is_in_range, least, literal_kind, negate,
    negate_overflows_at_least, no_kind_beyond, promote, refuses_only_beyond_range,
    wrap_is_the_member,
};
use row_edge::{RowFault, next_word};
use std::str::SplitWhitespace;

/// What the call of a line gives. A line is not understood where it names no call, has a word too many, or has arguments that the
/// call does not take.
pub fn answer_to(line: &str) -> Result<Answer, RowFault> {
    let mut words = line.split_whitespace();
    let call = next_word(&mut words)?;
    let answer = called(call, &mut words)?;
    if words.next().is_some() {
        return Err(RowFault::Unread);
    }
    Ok(answer)
}

fn called(call: &str, words: &mut SplitWhitespace<'_>) -> Result<Answer, RowFault> {
    match call {
        "least" => Ok(Answer::Number(least(next_kind(words)?))),
        "greatest" => Ok(Answer::Number(greatest(next_kind(words)?))),
        "is_in_range" => range(words),
        "apply" => operator(words),
        "negate" => negative(words),
        "complement" => turned(words),
        "convert" => conversion(words),
        "promote" => Ok(Answer::Kind(promote(next_kind(words)?))),
        "common" => common_kind(words),
        "compare" => comparison(words),
        "literal_kind" => literal(words),
        "laws" => Ok(laws()),
        _ => Err(RowFault::Unread),
    }
}

fn range(words: &mut SplitWhitespace<'_>) -> Result<Answer, RowFault> {
    let kind = next_kind(words)?;
    let n = next_number(words)?;
    Ok(Answer::Truth(is_in_range(kind, n)))
}

// `apply`, whose operator stands between the kind and the sides. The kind is promoted first.
fn operator(words: &mut SplitWhitespace<'_>) -> Result<Answer, RowFault> {
    let kind = promote(next_kind(words)?);
    let op = next_operator(words)?;
    let a = next_number(words)?;
    let b = next_number(words)?;
    if !is_in_range(kind, a) {
        return Err(RowFault::Unread);
    }
    match op {
        IntOp::Shl => Ok(exact(apply(IntOp::Shl, kind, a, b))),
        IntOp::Shr => Ok(exact(apply(IntOp::Shr, kind, a, b))),
        _ => {
            if is_in_range(kind, b) {
                Ok(exact(apply(op, kind, a, b)))
            } else {
                Err(RowFault::Unread)
            }
        }
    }
}

fn negative(words: &mut SplitWhitespace<'_>) -> Result<Answer, RowFault> {
    let kind = promote(next_kind(words)?);
    let a = next_number(words)?;
    if is_in_range(kind, a) {
        Ok(exact(negate(kind, a)))
    } else {
        Err(RowFault::Unread)
    }
}

fn turned(words: &mut SplitWhitespace<'_>) -> Result<Answer, RowFault> {
    let kind = promote(next_kind(words)?);
    let a = next_number(words)?;
    if is_in_range(kind, a) {
        Ok(Answer::Number(complement(kind, a)))
    } else {
        Err(RowFault::Unread)
    }
}

fn conversion(words: &mut SplitWhitespace<'_>) -> Result<Answer, RowFault> {
    let kind = next_kind(words)?;
    let n = next_number(words)?;
    Ok(Answer::Number(convert(kind, n)))
}

fn common_kind(words: &mut SplitWhitespace<'_>) -> Result<Answer, RowFault> {
    let a = next_kind(words)?;
    let b = next_kind(words)?;
    Ok(Answer::Kind(common(a, b)))
}

// `compare`, whose operator stands between the numbers.
fn comparison(words: &mut SplitWhitespace<'_>) -> Result<Answer, RowFault> {
    let a = next_number(words)?;
    let op = next_comparison(words)?;
    let b = next_number(words)?;
    Ok(Answer::Truth(compare(op, a, b)))
}

// `literal_kind`: the base, the suffix and the value.
fn literal(words: &mut SplitWhitespace<'_>) -> Result<Answer, RowFault> {
    let decimal = next_base(words)?;
    let suffix = next_suffix(words)?;
    let n = next_value(words)?;
    match literal_kind(decimal, suffix.unsigned, suffix.longs, n) {
        Some(kind) => Ok(Answer::Kind(kind)),
        None => Ok(Answer::NoKind),
    }
}

// Each law, called once.
fn laws() -> Answer {
    wrap_is_the_member();
    division_is_whole();
    refuses_only_beyond_range();
    negate_overflows_at_least();
    complement_is_below();
    bits_are_joined();
    no_kind_beyond();
    Answer::LawsHold
}
