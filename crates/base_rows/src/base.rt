//! Rows of the base: names, bytes, outcomes, steps, limits, and what refusals are made of.

use crate::bytes::{append_bytes, append_outcome};
use crate::limits::{append_limits, append_range};
use crate::names::{append_found, append_numbers, append_scopes};
use crate::notes::{append_laws, append_made, append_notes};
use cxx_base::{Bytes, Memory, Names, Ticks};
use row_edge::{RowFault, all_parsed, next_word, parsed, show, text_of};
use std::alloc::{AllocError, Global};

/// Puts the answer at the end of a text.
pub fn append_answer(alloc: Global, out: &mut String, row: &str) -> Result<(), RowFault> {
    let mut words = row.split_whitespace();
    match next_word(&mut words)? {
        "find" => append_found(alloc, out, text_of(next_word(&mut words)?)?),
        "number" => append_numbers(out, Names::new(alloc)?, words),
        "number_of_source" => {
            let source = text_of(next_word(&mut words)?)?;
            append_numbers(out, Names::of_source(alloc, source.as_bytes())?, words)
        }
        "scopes" => append_scopes(out, all_parsed::<u32>(alloc, words)?.as_slice()),
        "bytes" => append_bytes(alloc, out, words),
        "bytes_of" => {
            let bytes = Bytes::from_vec(all_parsed::<u8>(alloc, words)?);
            show(out, &(bytes.len(), bytes.as_slice()))
        }
        "outcome" => {
            let piece = parsed::<u32>(next_word(&mut words)?)?;
            append_outcome(out, piece, all_parsed::<u64>(alloc, words)?)
        }
        "ticks" => append_ticks(out, all_parsed::<u32>(alloc, words)?.as_slice()),
        "limits" => append_limits(out),
        "range" => {
            let steps = parsed::<u64>(next_word(&mut words)?)?;
            append_range(out, steps, parsed::<u32>(next_word(&mut words)?)?)
        }
        "notes" => append_notes(out, all_parsed::<u32>(alloc, words)?.as_slice()),
        "made" => append_made(out),
        "laws" => append_laws(alloc, out),
        // what want of memory says, alone and as an allocation that failed gives it
        "memory" => {
            let memory = Memory;
            let refused = Memory::from(AllocError);
            write!(out, "{memory}, {refused}")?;
            Ok(())
        }
        _ => Err(RowFault::Unread),
    }
}

// How many steps were used once these were added one after another.
fn append_ticks(out: &mut String, steps: &[u32]) -> Result<(), RowFault> {
    let mut ticks = Ticks::new();
    for n in steps {
        if ticks.count() > u64::MAX / 2 {
            return Err(RowFault::Unread);
        }
        ticks.add(u64::from(*n));
    }
    show(out, &ticks.count())
}
