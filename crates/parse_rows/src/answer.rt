//! What is answered to a question.

use crate::asked::{Asked, Question};
use crate::grown::text_of;
use crate::reading::Start;
use crate::same::is_same;
use crate::told::{Reading, told};
use cxx_base::{MAX_SOURCE, Memory, Names, TOO_DEEP};
use cxx_reading::ExprFault;
use cxx_tokens::{LexFault, Tokens, tokens};
use expr_show::Part;
use std::alloc::Global;

/// As many names are too many for a further text.
const MOST_NAMES: u32 = 8_388_608;

// The tokens of a text, or none where it has none.
fn tokens_of(alloc: Global, names: &mut Names, text: &str) -> Result<Option<Tokens>, Memory> {
    if text.len() > MAX_SOURCE || names.len() >= MOST_NAMES {
        return Ok(None);
    }
    match tokens(alloc, names, text.as_bytes()) {
        Ok(tokens) => Ok(Some(tokens)),
        Err(LexFault::Memory) => Err(Memory),
        Err(_) => Ok(None),
    }
}

// The answer, or why nothing is read.
fn or_fault(alloc: Global, read: Result<String, ExprFault>) -> Result<String, Memory> {
    match read {
        Ok(text) => Ok(text),
        Err(ExprFault::S1) => Ok(String::from_str(alloc, "S1")?),
        Err(ExprFault::S2) => Ok(String::from_str(alloc, "S2")?),
        Err(ExprFault::Memory) => Err(Memory),
    }
}

// What is read of one text.
fn answer_to_text(
    alloc: Global,
    names: &mut Names,
    asked: Asked,
    text: &str,
) -> Result<String, Memory> {
    if asked.level > TOO_DEEP {
        return Ok(String::from_str(alloc, "no question")?);
    }
    let Some(tokens) = tokens_of(alloc, names, text)? else {
        return Ok(String::from_str(alloc, "no tokens")?);
    };
    let reading = Reading {
        alloc,
        names,
        tokens: &tokens,
        text,
        asked,
    };
    or_fault(alloc, told(reading))
}

// Whether a part of two texts is the same, which are read of one text with a `;` between them.
fn pair_same(
    alloc: Global,
    names: &mut Names,
    asked: Asked,
    part: Part,
    one: &str,
    other: &str,
) -> Result<bool, Memory> {
    if asked.level > TOO_DEEP {
        return Ok(false);
    }
    let mut both = text_of(alloc, one, asked.repeated)?;
    both.push_str(" ; ")?;
    let other = text_of(alloc, other, asked.repeated)?;
    both.push_str(other.as_str())?;
    let Some(tokens) = tokens_of(alloc, names, both.as_str())? else {
        return Ok(false);
    };
    let first = Start {
        alloc,
        tokens: &tokens,
        at: 0,
        level: asked.level,
    };
    match is_same(part, first) {
        Ok(same) => Ok(same),
        Err(ExprFault::Memory) => Err(Memory),
        Err(_) => Ok(false),
    }
}

fn are_same(
    alloc: Global,
    names: &mut Names,
    asked: Asked,
    one: &str,
    other: &str,
) -> Result<bool, Memory> {
    match asked.question {
        Question::Same(part) => pair_same(alloc, names, asked, part, one, other),
        _ => Ok(false),
    }
}

// The numbers of the lines that are the same as one.
fn same_lines(
    alloc: Global,
    names: &mut Names,
    asked: Asked,
    rows: &[&str],
    row: &str,
) -> Result<String, Memory> {
    let mut out = String::new(alloc);
    for n in 0..rows.len() {
        let other = rows.get(n).copied().unwrap_or("");
        if are_same(alloc, names, asked, row, other)? {
            if !out.is_empty() {
                out.push_str(" ")?;
            }
            write!(out, "{}", n as u64 + 1)?;
        }
    }
    Ok(out)
}

/// What is answered to a question of the line with this number among those below its heading.
pub fn answer(
    alloc: Global,
    names: &mut Names,
    asked: Asked,
    rows: &[&str],
    n: usize,
) -> Result<String, Memory> {
    let row = rows.get(n).copied().unwrap_or("");
    match asked.question {
        Question::Same(_) => same_lines(alloc, names, asked, rows, row),
        _ => {
            let text = text_of(alloc, row, asked.repeated)?;
            answer_to_text(alloc, names, asked, text.as_str())
        }
    }
}
