//! Steps of the machine in words, as `claim/2/7`.

use cxx_base::PieceNo;
use row_edge::{RowFault, parsed};
use settle_core::CoreStep;
use std::alloc::Global;
use std::str::SplitWhitespace;

/// The step that a word is: its name and the piece that it moves, then the worker of a claim or of a resumption, and of a park the
/// piece that is waited for.
pub fn step_of(word: &str) -> Result<CoreStep, RowFault> {
    let Some((name, numbers)) = word.split_once('/') else {
        return Err(RowFault::Unread);
    };
    match name {
        "advance" => Ok(CoreStep::Advance(piece_of(numbers)?)),
        "settle" => Ok(CoreStep::Settle(piece_of(numbers)?)),
        _ => two_numbered(name, numbers),
    }
}

// A step with two numbers.
fn two_numbered(name: &str, numbers: &str) -> Result<CoreStep, RowFault> {
    let (k, other) = numbers_of(numbers)?;
    match name {
        "claim" => Ok(CoreStep::Claim(PieceNo(k), other)),
        "park" => Ok(CoreStep::Park(PieceNo(k), PieceNo(other))),
        "resume" => Ok(CoreStep::Resume(PieceNo(k), other)),
        _ => Err(RowFault::Unread),
    }
}

fn piece_of(number: &str) -> Result<PieceNo, RowFault> {
    Ok(PieceNo(parsed::<u32>(number)?))
}

/// The two numbers of a word, as `2/7`.
pub fn numbers_of(word: &str) -> Result<(u32, u32), RowFault> {
    match word.split_once('/') {
        Some((first, second)) => Ok((parsed::<u32>(first)?, parsed::<u32>(second)?)),
        None => Err(RowFault::Unread),
    }
}

/// The steps that all words are.
pub fn steps_of(alloc: Global, words: SplitWhitespace<'_>) -> Result<Vec<CoreStep>, RowFault> {
    let mut steps = Vec::new(alloc);
    for word in words {
        steps.push(step_of(word)?)?;
    }
    Ok(steps)
}
