//! Answers rows of sources: each line of the input with the tokens of the source that it holds, or with the fault.
//!
//! A line is `tokens` or `places` and a source, in which escapes stand for what a line cannot show, as `\n` or `\xff`. A line
//! that begins with `#` is a remark and is repeated, and so is an empty one.
#![tactic(auto)]

mod answer;
mod punctuators;
mod shown;
mod source_text;

use answer::append_answer;
use io_edge::{FromRead, ToWrite};
use row_edge::{RowAnswers, RowFault, TextAnswers, answers_to_rows, run};
use std::alloc::Global;
use std::process::ExitCode;

/// The rows of `cxx_tokens`.
struct TokenRows;

impl RowAnswers for TokenRows {
    fn append_answer(alloc: Global, out: &mut String, line: &str) -> Result<(), RowFault> {
        append_answer(alloc, out, line)
    }
}

impl TextAnswers for TokenRows {
    fn answers(alloc: Global, text: &str) -> Result<String, RowFault> {
        answers_to_rows::<TokenRows>(alloc, text)
    }
}

fn main(rt: HostRuntime) -> ExitCode {
    let mut source = FromRead::new(rt.stdin());
    let mut sink = ToWrite::new(rt.stdout());
    ExitCode::from(run::<TokenRows, _, _>(rt.alloc(), &mut source, &mut sink))
}
