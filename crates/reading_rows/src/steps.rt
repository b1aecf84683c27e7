//! Rows of the steps over single tokens, each with the tokens at which it is taken.

use cxx_reading::{
    ExprFault, any_punctuator, any_word, character, eat, eat_word, expect, expect_word, identifier,
    integer, kind_ahead, kind_at, left, sees, sees_ahead, sees_identifier, sees_word, span, text,
};
use cxx_tokens::Tokens;
use cxx_tokens::keyword::{CONSTEXPR, INT};
use cxx_tokens::mark::{PLUS, SEMICOLON};
use row_edge::{RowFault, next_word, parsed, show};
use std::alloc::Global;
use std::str::SplitWhitespace;

/// Puts what a step answers at each token at the end of a text. A step over a word or punctuator has that before the tokens,
/// and one over two numbers, as `span`, has pairs, as `0/1`.
pub fn append_steps(
    alloc: Global,
    out: &mut String,
    tokens: &Tokens,
    mut words: SplitWhitespace<'_>,
) -> Result<(), RowFault> {
    let call = next_word(&mut words)?;
    let mark = match call {
        "sees" | "sees_ahead" | "sees_word" | "expect" | "expect_word" | "eat" | "eat_word" => {
            Some(mark_of(next_word(&mut words)?)?)
        }
        _ => None,
    };
    for word in words {
        append_step(alloc, out, tokens, call, mark, word)?;
        out.push(';')?;
    }
    Ok(())
}

fn append_step(
    alloc: Global,
    out: &mut String,
    tokens: &Tokens,
    call: &str,
    mark: Option<u32>,
    word: &str,
) -> Result<(), RowFault> {
    match (mark, word.split_once('/')) {
        (Some(mark), None) => append_marked(out, tokens, call, mark, parsed::<u32>(word)?),
        (Some(mark), Some((at, ahead))) => {
            append_seen_ahead(
                out,
                tokens,
                call,
                mark,
                parsed::<u32>(at)?,
                parsed::<u32>(ahead)?,
            )
        }
        (None, None) => append_plain(alloc, out, tokens, call, parsed::<u32>(word)?),
        (None, Some((at, other))) => {
            append_ahead(out, tokens, call, parsed::<u32>(at)?, parsed::<u32>(other)?)
        }
    }
}

// A word or punctuator by its number, which these have names for.
fn mark_of(word: &str) -> Result<u32, RowFault> {
    match word {
        "+" => Ok(PLUS),
        ";" => Ok(SEMICOLON),
        "constexpr" => Ok(CONSTEXPR),
        "int" => Ok(INT),
        _ => parsed::<u32>(word),
    }
}

fn append_marked(
    out: &mut String,
    tokens: &Tokens,
    call: &str,
    mark: u32,
    at: u32,
) -> Result<(), RowFault> {
    match call {
        "sees" => show(out, &sees(tokens, mark, at)),
        "sees_word" => show(out, &sees_word(tokens, mark, at)),
        "expect" => show(out, &expect(tokens, mark, at)),
        "expect_word" => show(out, &expect_word(tokens, mark, at)),
        "eat" => show(out, &eat(tokens, mark, at)),
        "eat_word" => show(out, &eat_word(tokens, mark, at)),
        _ => Err(RowFault::Unread),
    }
}

fn append_seen_ahead(
    out: &mut String,
    tokens: &Tokens,
    call: &str,
    mark: u32,
    at: u32,
    ahead: u32,
) -> Result<(), RowFault> {
    match call {
        "sees_ahead" => show(out, &sees_ahead(tokens, mark, at, ahead)),
        _ => Err(RowFault::Unread),
    }
}

fn append_ahead(
    out: &mut String,
    tokens: &Tokens,
    call: &str,
    at: u32,
    other: u32,
) -> Result<(), RowFault> {
    match call {
        "kind_ahead" => show(out, &kind_ahead(tokens, at, other)),
        "span" => show(out, &span(tokens, at, other)),
        _ => Err(RowFault::Unread),
    }
}

fn append_plain(
    alloc: Global,
    out: &mut String,
    tokens: &Tokens,
    call: &str,
    at: u32,
) -> Result<(), RowFault> {
    match call {
        "kind_at" => show(out, &kind_at(tokens, at)),
        "left" => show(out, &left(tokens, at)),
        "sees_identifier" => show(out, &sees_identifier(tokens, at)),
        "any_punctuator" => show(out, &any_punctuator(tokens, at)),
        "any_word" => show(out, &any_word(tokens, at)),
        "identifier" => show(out, &identifier(tokens, at)),
        "integer" => show(out, &integer(tokens, at)),
        "character" => show(out, &character(tokens, at)),
        "text" => match text(alloc, tokens, at) {
            Ok((bytes, end)) => show(out, &(bytes.as_slice(), end)),
            Err(ExprFault::Memory) => Err(RowFault::Memory),
            Err(fault) => show(out, &fault),
        },
        _ => Err(RowFault::Unread),
    }
}
