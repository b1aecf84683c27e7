//! The top call.

ghost use Rattle.std.specs.Prelude.{◌≡◌, ◌+◌, ◌≤◌, ◌≢◌, ◌↔◌, ◌⊎◌, true, false, IfOk, IfSome, IsErrOf, IsSomeAnd};
ghost use Rattle.std.specs.Io.KnownBytes.{Appends};
ghost use Rattle.io_edge.specs.Edge.{AppendsPrefix, Drops, LosesPrefix, Rose};
ghost use Rattle.reflect_cli.specs.Answers.{IsTold};
ghost use Rattle.reflect_cli.specs.Told.{is_in_grammar, report_of, told};

use crate::answer::{Answer, answer_to, refused};
use crate::program::source_refusal;
use crate::words::{Command, Words, read_words};
use cxx_base::{Code, MAX_SOURCE, Memory};
use io_edge::{ReadAll, Sink, Source, read_all, write_all};
use std::alloc::Global;

/// Why a source has no answer.
#[derive(Clone, Copy, Debug, PartialEq, Eq)]
enum Unanswered {
    /// A read failed.
    Fault,
    Memory,
}

impl From<Memory> for Unanswered {
    ghost use Rattle.reflect_cli.specs.declared.run.Unanswered.TheVariants.{Memory};

    ghost from_gives = { λ _ e. e ≡ Memory };

    fn from(_refused: Memory) -> Unanswered {
        Unanswered::Memory
    }
}

fn answer_from<S: Source>(alloc: Global, source: &mut S) -> Result<Answer, Unanswered>
    ensures told { IfOk result (λ answer. IfSome (S.left source.old) (λ xs. IsTold (report_of xs) answer)) }
    ensures read { IfOk result (λ _. Drops (S.left source.old) (S.left source.new) (MAX_SOURCE + 1)) }
    ensures taken { LosesPrefix (S.left source.old) (S.left source.new) }
    ensures fault { IsErrOf result Unanswered.Fault → Rose (S.faults source.old) (S.faults source.new) }
    ensures count { S.faults source.old ≤ S.faults source.new }
{
    match read_all(alloc, source, MAX_SOURCE) {
        Ok(bytes) => Ok(answer_to(alloc, bytes.as_slice())?),
        Err(ReadAll::TooLong) => Ok(refused(alloc, source_refusal(Code::L6))?),
        Err(ReadAll::Fault) => Err(Unanswered::Fault),
        Err(ReadAll::Memory) => Err(Unanswered::Memory),
    }
}

/// Translates the source in order and writes the report, where the words are `order`. The answer is the status:
///
/// - 0 or 1: the report was written whole; 1 where it refuses something.
/// - 2: the words are not accepted.
/// - 3: a read failed. Nothing was written.
/// - 4: a write failed. A prefix of the report was written.
/// - 5: memory ran out. A prefix of the report was written.
pub fn run_in_order<S: Source, K: Sink>(
    alloc: Global,
    words: &Words,
    source: &mut S,
    sink: &mut K,
) -> u8
    // 0 or 1: the source was read to its end, or one byte beyond the greatest length, and the text that is told for its
    // words and bytes was written, with this status.
    ensures words { result ≤ 1 → is_in_grammar words.now ≡ true }
    ensures read { result ≤ 1 → Drops (S.left source.old) (S.left source.new) (MAX_SOURCE + 1) }
    ensures written { result ≤ 1 → IfSome (S.left source.old) (λ xs. IsSomeAnd (told words.now xs) (λ answer.
        (answer.status ≡ result) × Appends (K.held sink.old) (K.held sink.new) answer.text)) }

    // 2: the words are not in the grammar, and nothing is touched.
    ensures refused { (result ≡ 2) ↔ (is_in_grammar words.now ≡ false) }
    ensures refused_source { result ≡ 2 → source.new ≡ source.old }
    ensures refused_sink { result ≡ 2 → sink.new ≡ sink.old }

    // 3: a read failed, and nothing is written.
    ensures source_fault { result ≡ 3 → Rose (S.faults source.old) (S.faults source.new) }
    ensures unwritten { result ≡ 3 → sink.new ≡ sink.old }

    // 4: a write failed, after the source was read as far as at 0 or 1. 5: memory ran out. A prefix of the text is written.
    ensures sink_fault { result ≡ 4 → Rose (K.faults sink.old) (K.faults sink.new) }
    ensures read_before { result ≡ 4 → Drops (S.left source.old) (S.left source.new) (MAX_SOURCE + 1) }
    ensures prefix { 4 ≤ result → IfSome (S.left source.old) (λ xs. IsSomeAnd (told words.now xs) (λ answer.
        AppendsPrefix (K.held sink.old) (K.held sink.new) answer.text)) }

    // Whatever the status but 2, what the source has lost is a prefix of its bytes.
    ensures taken { result ≢ 2 → LosesPrefix (S.left source.old) (S.left source.new) }

    // There is no other answer, so where the words are in the grammar and neither device failed, the text that is told was
    // written with its status, unless memory ran out.
    ensures statuses { result ≤ 5 }
    ensures complete { is_in_grammar words.now ≡ true → ¬ Rose (S.faults source.old) (S.faults source.new)
        → ¬ Rose (K.faults sink.old) (K.faults sink.new) → (result ≤ 1) ⊎ (result ≡ 5) }
    ensures source_count { S.faults source.old ≤ S.faults source.new }
    ensures sink_count { K.faults sink.old ≤ K.faults sink.new }
{
    match read_words(words) {
        Err(_) => 2,
        Ok(Command::Order) => order(alloc, source, sink),
    }
}

fn order<S: Source, K: Sink>(alloc: Global, source: &mut S, sink: &mut K) -> u8
    ensures read { result ≤ 1 → Drops (S.left source.old) (S.left source.new) (MAX_SOURCE + 1) }
    ensures written { result ≤ 1 → IfSome (S.left source.old) (λ xs.
        ((report_of xs).status ≡ result) × Appends (K.held sink.old) (K.held sink.new) (report_of xs).text) }
    ensures taken { LosesPrefix (S.left source.old) (S.left source.new) }
    ensures accepted { result ≢ 2 }
    ensures source_fault { result ≡ 3 → Rose (S.faults source.old) (S.faults source.new) }
    ensures unwritten { result ≡ 3 → sink.new ≡ sink.old }
    ensures sink_fault { result ≡ 4 → Rose (K.faults sink.old) (K.faults sink.new) }
    ensures read_before { result ≡ 4 → Drops (S.left source.old) (S.left source.new) (MAX_SOURCE + 1) }
    ensures prefix { 4 ≤ result → IfSome (S.left source.old) (λ xs.
        AppendsPrefix (K.held sink.old) (K.held sink.new) (report_of xs).text) }
    ensures statuses { result ≤ 5 }
    ensures source_count { S.faults source.old ≤ S.faults source.new }
    ensures sink_count { K.faults sink.old ≤ K.faults sink.new }
{
    match answer_from(alloc, source) {
        Ok(answer) => match write_all(sink, answer.text.as_slice()) {
            Ok(()) => answer.status(),
            Err(_) => 4,
        },
        Err(Unanswered::Fault) => 3,
        Err(Unanswered::Memory) => 5,
    }
}
