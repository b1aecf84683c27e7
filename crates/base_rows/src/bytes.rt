//! Rows of lists of bytes and of outcomes.

use cxx_base::{Bytes, OutcomeList, PieceNo};
use row_edge::{RowFault, parsed, show, text_of};
use std::alloc::Global;
use std::str::SplitWhitespace;

// A number is put at the end, and so is a text as a whole.
fn grow(bytes: &mut Bytes, word: &str) -> Result<(), RowFault> {
    if word.starts_with('"') {
        bytes.extend(text_of(word)?.as_bytes())?;
    } else {
        bytes.push(parsed::<u8>(word)?)?;
    }
    Ok(())
}

/// Bytes to which those of each word are put: how many there are, and which.
pub fn append_bytes(
    alloc: Global,
    out: &mut String,
    words: SplitWhitespace<'_>,
) -> Result<(), RowFault> {
    let mut bytes = Bytes::new(alloc);
    for word in words {
        grow(&mut bytes, word)?;
    }
    show(out, &(bytes.len(), bytes.as_slice()))
}

/// The outcome of a piece among outcomes, how many there are, and all of them.
pub fn append_outcome(out: &mut String, piece: u32, list: Vec<u64>) -> Result<(), RowFault> {
    let outcomes = OutcomeList::from_vec(list);
    show(
        out,
        &(
            outcomes.get(PieceNo(piece)),
            outcomes.len(),
            outcomes.as_slice(),
        ),
    )
}
