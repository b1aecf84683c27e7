//! Rows of the devices in memory, whose calls fail where a row says so, and of those over readers and writers.

use crate::streams::{Awkward, Broken, append_from, append_to};
use cxx_base::Bytes;
use io_edge::{CallList, MemSink, MemSource, ReadAll, Source, read_all, write_all};
use row_edge::{RowFault, next_setting, next_word, parsed, show, show_text, text_of};
use std::alloc::Global;
use std::str::SplitWhitespace;

/// The greatest number of bytes that a row reads.
const MAX_CAP: usize = 4096;

/// Puts the answer at the end of a text. Behind the call stand the text that is read or written and what the device does.
pub fn append_answer(alloc: Global, out: &mut String, row: &str) -> Result<(), RowFault> {
    let mut words = row.split_whitespace();
    let call = next_word(&mut words)?;
    let text = text_of(next_word(&mut words)?)?;
    match call {
        "read_all" => append_read(alloc, out, text, &mut words),
        "write_all" => append_write(alloc, out, text, &mut words),
        "reader" => append_from(alloc, out, &mut text.as_bytes(), &mut words),
        "broken_reader" => append_from(alloc, out, &mut Broken, &mut words),
        "writer" => {
            let mut held = Vec::new(alloc);
            append_to(out, &mut held, text)?;
            out.push_str(" held ")?;
            show_text(out, held.as_slice())
        }
        "awkward_writer" => {
            let most = parsed::<usize>(next_setting(&mut words, "most")?)?;
            let flushes = parsed::<bool>(next_setting(&mut words, "flushes")?)?;
            append_to(out, &mut Awkward { most, flushes }, text)
        }
        _ => Err(RowFault::Unread),
    }
}

/// A source, read to its end: `cap=` says how many bytes it may have.
pub fn append_read_all<S: Source>(
    alloc: Global,
    out: &mut String,
    source: &mut S,
    words: &mut SplitWhitespace<'_>,
) -> Result<(), RowFault> {
    let cap = parsed::<usize>(next_setting(words, "cap")?)?;
    if cap > MAX_CAP {
        return Err(RowFault::Unread);
    }
    match read_all(alloc, source, cap) {
        Ok(bytes) => show_text(out, bytes.as_slice()),
        Err(ReadAll::Memory) => Err(RowFault::Memory),
        Err(fault) => show(out, &fault),
    }
}

// The call that fails.
fn next_calls(alloc: Global, words: &mut SplitWhitespace<'_>) -> Result<CallList, RowFault> {
    let mut calls = CallList::new(alloc);
    calls.push(parsed::<u64>(next_setting(words, "failing")?)?)?;
    Ok(calls)
}

// A source in memory, read to its end, and what is left of it. A read gives at least a byte.
fn append_read(
    alloc: Global,
    out: &mut String,
    text: &str,
    words: &mut SplitWhitespace<'_>,
) -> Result<(), RowFault> {
    let mut bytes = Bytes::new(alloc);
    bytes.extend(text.as_bytes())?;
    let piece = parsed::<usize>(next_setting(words, "piece")?)?;
    if piece == 0 {
        return Err(RowFault::Unread);
    }
    let mut source = MemSource::new(bytes, piece, next_calls(alloc, words)?);
    append_read_all(alloc, out, &mut source, words)?;
    out.push_str(" left ")?;
    show_text(out, source.left())
}

// A sink in memory that takes so many bytes, or any number, to which a text is written, and what it holds then.
fn append_write(
    alloc: Global,
    out: &mut String,
    text: &str,
    words: &mut SplitWhitespace<'_>,
) -> Result<(), RowFault> {
    let room = match next_setting(words, "room")? {
        "any" => None,
        word => Some(parsed::<usize>(word)?),
    };
    let mut sink = MemSink::new(alloc, room, next_calls(alloc, words)?)?;
    show(out, &write_all(&mut sink, text.as_bytes()))?;
    out.push_str(" held ")?;
    show_text(out, sink.held())
}
