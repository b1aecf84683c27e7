//! From standard input to standard output.

ghost use Rattle.std.specs.Prelude.{◌≡◌, ◌≢◌, ◌≤◌, ◌<◌, ◌⊎◌, length, IfSome};
ghost use Rattle.std.specs.Str.{IsUtf8};
ghost use Rattle.std.specs.Io.KnownBytes.{IsAtEnd};
ghost use Rattle.io_edge.specs.Edge.{LosesPrefix, Rose};

use crate::row_fault::RowFault;
use io_edge::{ReadAll, Sink, Source, read_all, write_all};
use std::alloc::Global;

/// The most bytes of the input.
const MAX_INPUT: usize = 4_194_304;

/// The status where the input is no text, or too long.
const REFUSED: u8 = 2;

/// The status where a read failed.
const NOT_READ: u8 = 3;

/// The status where a write failed.
const NOT_WRITTEN: u8 = 4;

/// The status where memory ran out.
const NO_MEMORY: u8 = 5;

/// What answers a whole text.
pub trait TextAnswers {
    /// The text with its answers. Where there are none, memory was wanting.
    fn answers(alloc: Global, text: &str) -> Result<String, RowFault>;
}

/// Reads a text, and writes it with its answers. The status: 0 where it was written whole, 2 where the input is no text or longer than 4 MiB, 3
/// where reading failed, 4 where writing did, and 5 where memory ran out.
pub fn run<A: TextAnswers, S: Source, K: Sink>(alloc: Global, source: &mut S, sink: &mut K) -> u8
    ensures read { result ≡ 0 → IsAtEnd (S.left source.new) }
    ensures refused { result ≡ 2 → IfSome (S.left source.old) (λ xs. ¬ IsUtf8 xs ⊎ (4194304 < length xs)) }
    ensures source_fault { result ≡ 3 → Rose (S.faults source.old) (S.faults source.new) }
    ensures sink_fault { result ≡ 4 → Rose (K.faults sink.old) (K.faults sink.new) }
    ensures unwritten { result ≢ 0 → result ≢ 4 → sink.new ≡ sink.old }
    ensures taken { LosesPrefix (S.left source.old) (S.left source.new) }
    ensures statuses { result ≤ 5 }
{
    match read_all(alloc, source, MAX_INPUT) {
        Ok(bytes) => answer_text::<A, K>(alloc, bytes.as_slice(), sink),
        Err(ReadAll::TooLong) => REFUSED,
        Err(ReadAll::Fault) => NOT_READ,
        Err(ReadAll::Memory) => NO_MEMORY,
    }
}

// A text with its answers, written. The status.
fn answer_text<A: TextAnswers, K: Sink>(alloc: Global, bytes: &[u8], sink: &mut K) -> u8
    ensures refused { result ≡ 2 → ¬ IsUtf8 bytes.now }
    ensures sink_fault { result ≡ 4 → Rose (K.faults sink.old) (K.faults sink.new) }
    ensures unwritten { result ≢ 0 → result ≢ 4 → sink.new ≡ sink.old }
    ensures read { result ≢ 3 }
    ensures statuses { result ≤ 5 }
{
    let Ok(text) = str::from_utf8(bytes) else {
        return REFUSED;
    };
    match A::answers(alloc, text) {
        Ok(answers) => match write_all(sink, answers.as_str().as_bytes()) {
            Ok(()) => 0,
            Err(_) => NOT_WRITTEN,
        },
        Err(_) => NO_MEMORY,
    }
}
