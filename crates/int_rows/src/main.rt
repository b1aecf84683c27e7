//! Answers rows of the calls of `int_kinds`: each line of the input with what the call that it names gives.
//!
//! A line is a call's name and its arguments, as `apply int + 2 3`. A line that begins with `#` is a remark and is repeated,
//! and so is one without words.
#![tactic(auto)]

mod answer;
mod calls;
mod words;

use answer::append_answer;
use calls::answer_to;
use io_edge::{FromRead, ToWrite};
use row_edge::{RowAnswers, RowFault, TextAnswers, answers_to_rows, run};
use std::alloc::Global;
use std::process::ExitCode;

/// The rows of `int_kinds`.
struct IntRows;

impl RowAnswers for IntRows {
    fn append_answer(alloc: Global, out: &mut String, line: &str) -> Result<(), RowFault> {
        append_answer(out, answer_to(line)?)
    }
}

impl TextAnswers for IntRows {
    fn answers(alloc: Global, text: &str) -> Result<String, RowFault> {
        answers_to_rows::<IntRows>(alloc, text)
    }
}

fn main(rt: HostRuntime) -> ExitCode {
    let mut source = FromRead::new(rt.stdin());
    let mut sink = ToWrite::new(rt.stdout());
    ExitCode::from(run::<IntRows, _, _>(rt.alloc(), &mut source, &mut sink))
}
