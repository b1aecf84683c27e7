//! From standard input to standard output. `row_edge` does the same for rows that need no handle; these are answered with that of threads.

use crate::answer::append_answer;
use io_edge::{ReadAll, Sink, Source, read_all, write_all};
use row_edge::RowFault;
use std::alloc::{AllocError, Global};
use std::sync::Wait;
use std::thread::Threads;

/// The most bytes of the input.
const MAX_INPUT: usize = 4_194_304;

/// The status where the input is no text, or too long.
const REFUSED: u8 = 2;

/// The status where a read failed.
const NOT_READ: u8 = 3;

/// The status where a write failed.
const NOT_WRITTEN: u8 = 4;

/// The status where memory ran out.
const NO_MEMORY: u8 = 5;

/// Reads a text, and writes each of its lines with its answer. The status.
pub fn run<R: Threads + Wait + Sync, S: Source, K: Sink>(
    rt: &R,
    alloc: Global,
    source: &mut S,
    sink: &mut K,
) -> u8 {
    match read_all(alloc, source, MAX_INPUT) {
        Ok(bytes) => answer_text(rt, alloc, bytes.as_slice(), sink),
        Err(ReadAll::TooLong) => REFUSED,
        Err(ReadAll::Fault) => NOT_READ,
        Err(ReadAll::Memory) => NO_MEMORY,
    }
}

// A text with its answers, written. The status.
fn answer_text<R: Threads + Wait + Sync, K: Sink>(
    rt: &R,
    alloc: Global,
    bytes: &[u8],
    sink: &mut K,
) -> u8 {
    let Ok(text) = str::from_utf8(bytes) else {
        return REFUSED;
    };
    match rows(rt, alloc, text) {
        Ok(answers) => match write_all(sink, answers.as_bytes()) {
            Ok(()) => 0,
            Err(_) => NOT_WRITTEN,
        },
        Err(_) => NO_MEMORY,
    }
}

fn rows<R: Threads + Wait + Sync>(rt: &R, alloc: Global, text: &str) -> Result<String, AllocError> {
    let mut out = String::new(alloc);
    for line in text.lines() {
        append_row(rt, alloc, &mut out, line)?;
    }
    Ok(out)
}

// The line, and behind it the answer, unless the line is a remark.
fn append_row<R: Threads + Wait + Sync>(
    rt: &R,
    alloc: Global,
    out: &mut String,
    line: &str,
) -> Result<(), AllocError> {
    out.push_str(line)?;
    if !line.starts_with('#') && !line.is_empty() {
        out.push_str(" => ")?;
        let mut answer = String::new(alloc);
        match append_answer(rt, alloc, &mut answer, line) {
            Ok(()) => out.push_str(answer.as_str())?,
            Err(RowFault::Unread) => out.push_str("not understood")?,
            Err(RowFault::Memory) => return Err(AllocError),
        }
    }
    out.push('\n')
}
