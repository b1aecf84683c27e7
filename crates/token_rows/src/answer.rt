//! The answer to a row.

use crate::shown::{append_fault, append_kinds, append_places};
use crate::source_text::source_bytes;
use cxx_base::{MAX_SOURCE, Names};
use cxx_tokens::{
    cuts_are_one, numbers_are_places, scan_is_the_cut, tokens, tokens_are_longest,
    tokens_are_usable,
};
use row_edge::RowFault;
use std::alloc::Global;

/// What a row shows of the tokens of its source.
#[derive(Clone, Copy)]
enum Shown {
    Kinds,
    Places,
}

/// Puts the answer to a line at the end of a text. The line's first word says what is shown, and all behind the space after
/// it is the source.
pub fn append_answer(alloc: Global, out: &mut String, line: &str) -> Result<(), RowFault> {
    let (call, text) = line.split_once(' ').unwrap_or((line, ""));
    match call {
        "tokens" => append_source(alloc, out, Shown::Kinds, text),
        "places" => append_source(alloc, out, Shown::Places, text),
        "laws" => append_laws(out),
        _ => Err(RowFault::Unread),
    }
}

// Each law, called once.
fn append_laws(out: &mut String) -> Result<(), RowFault> {
    numbers_are_places();
    tokens_are_longest();
    cuts_are_one();
    scan_is_the_cut();
    tokens_are_usable();
    out.push_str("hold")?;
    Ok(())
}

fn append_source(
    alloc: Global,
    out: &mut String,
    shown: Shown,
    text: &str,
) -> Result<(), RowFault> {
    let bytes = source_bytes(alloc, text)?;
    append_tokens(alloc, out, shown, bytes.as_slice())
}

fn append_tokens(
    alloc: Global,
    out: &mut String,
    shown: Shown,
    bytes: &[u8],
) -> Result<(), RowFault> {
    // The lexer takes no longer source. The input is shorter.
    if bytes.len() > MAX_SOURCE {
        return Err(RowFault::Unread);
    }
    let mut names = Names::new(alloc)?;
    let known = names.len();
    match tokens(alloc, &mut names, bytes) {
        Ok(found) => match shown {
            Shown::Kinds => append_kinds(out, &names, found.list.as_slice()),
            Shown::Places => append_places(out, &names, known, &found),
        },
        Err(fault) => append_fault(out, fault),
    }
}
