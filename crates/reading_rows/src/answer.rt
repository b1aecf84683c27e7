//! Rows of what the grammar is written with: choices, lists, faults, laws, and steps over the tokens of a source.

use crate::steps::append_steps;
use containers::Items;
use cxx_base::{Memory, Names};
use cxx_reading::{
    ExprFault, choices_take_the_longest, longer, missing_parts_are_no_fault, push,
    repetitions_end_by_themselves, single,
};
use cxx_tokens::{LexFault, Tokens, tokens};
use row_edge::{RowFault, next_word, pair_of, parsed, show};
use std::alloc::{AllocError, Global};
use std::fmt::Debug;
use std::str::{FromStr, SplitWhitespace};

/// The greatest length of a source.
const MAX_SOURCE: usize = 4096;

/// Puts the answer at the end of a text. A call that looks at tokens has their source behind ` in `, where `\n` ends a line.
pub fn append_answer(alloc: Global, out: &mut String, row: &str) -> Result<(), RowFault> {
    match row.split_once(" in ") {
        Some(("laws", source)) => append_laws(out, &tokens_of(alloc, source)?),
        Some((call, source)) => {
            let tokens = tokens_of(alloc, source)?;
            append_steps(alloc, out, &tokens, call.split_whitespace())
        }
        None => append_call(alloc, out, row.split_whitespace()),
    }
}

// The tokens of a source, whose names are numbered behind those of the library.
fn tokens_of(alloc: Global, source: &str) -> Result<Tokens, RowFault> {
    let text = source.replace(alloc, "\\n", "\n")?;
    if text.len() > MAX_SOURCE {
        return Err(RowFault::Unread);
    }
    let mut names = Names::new(alloc)?;
    match tokens(alloc, &mut names, text.as_bytes()) {
        Ok(found) => Ok(found),
        Err(LexFault::Memory) => Err(RowFault::Memory),
        Err(_) => Err(RowFault::Unread),
    }
}

// Each law, called once.
fn append_laws(out: &mut String, tokens: &Tokens) -> Result<(), RowFault> {
    choices_take_the_longest::<u8>();
    missing_parts_are_no_fault::<u8>(tokens);
    repetitions_end_by_themselves::<u8>(tokens);
    out.push_str("hold")?;
    Ok(())
}

// A fault. Want of memory comes as either of two errors.
fn fault_of(word: &str) -> Option<ExprFault> {
    match word {
        "syntax" => Some(ExprFault::S1),
        "deep" => Some(ExprFault::S2),
        "memory" => Some(ExprFault::from(Memory)),
        "refused" => Some(ExprFault::from(AllocError)),
        _ => None,
    }
}

// A form that was read, as its tree and its end, or why it was not.
fn form_of(word: &str) -> Result<Result<(u64, u32), ExprFault>, RowFault> {
    match fault_of(word) {
        Some(fault) => Ok(Err(fault)),
        None => Ok(Ok(pair_of(word)?)),
    }
}

fn append_call(
    alloc: Global,
    out: &mut String,
    mut words: SplitWhitespace<'_>,
) -> Result<(), RowFault> {
    match next_word(&mut words)? {
        "longer" => {
            let first = form_of(next_word(&mut words)?)?;
            let second = form_of(next_word(&mut words)?)?;
            show(out, &longer(first, second))
        }
        "fault" => {
            let fault = fault_of(next_word(&mut words)?).ok_or(RowFault::Unread)?;
            write!(out, "{fault:?}")?;
            Ok(())
        }
        "single" => {
            let first = single(alloc, parsed::<u32>(next_word(&mut words)?)?)?;
            append_pushed::<u32>(alloc, out, first, words)
        }
        "push" => append_pushed::<bool>(alloc, out, Items::new(alloc), words),
        _ => Err(RowFault::Unread),
    }
}

// A list, and all words at its end.
fn append_pushed<T: FromStr + Debug + Drop>(
    alloc: Global,
    out: &mut String,
    mut found: Items<T>,
    words: SplitWhitespace<'_>,
) -> Result<(), RowFault>
where
    T::Err: Drop,
{
    for word in words {
        push(alloc, &mut found, parsed::<T>(word)?)?;
    }
    show(out, &found.as_slice())
}
