//! Answers rows of calls of `cxx_reading`: each line of the input with what its call gives.
//!
//! A line is a call and the arguments, as `longer 1/4 2/5`, and a call that looks at tokens has their source behind ` in `. A line that
//! begins with `#` is a remark and is repeated, and so is an empty one.
#![tactic(auto)]

mod answer;
mod steps;

use answer::append_answer;
use io_edge::{FromRead, ToWrite};
use row_edge::{RowAnswers, RowFault, TextAnswers, answers_to_rows, run};
use std::alloc::Global;
use std::process::ExitCode;

/// The rows of `cxx_reading`.
struct ReadingRows;

impl RowAnswers for ReadingRows {
    fn append_answer(alloc: Global, out: &mut String, line: &str) -> Result<(), RowFault> {
        append_answer(alloc, out, line)
    }
}

impl TextAnswers for ReadingRows {
    fn answers(alloc: Global, text: &str) -> Result<String, RowFault> {
        answers_to_rows::<ReadingRows>(alloc, text)
    }
}

fn main(rt: HostRuntime) -> ExitCode {
    let mut source = FromRead::new(rt.stdin());
    let mut sink = ToWrite::new(rt.stdout());
    ExitCode::from(run::<ReadingRows, _, _>(rt.alloc(), &mut source, &mut sink))
}
