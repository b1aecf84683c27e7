//! Answers rows of calls of `containers`, `class_layout`, `cxx_base`, `diagnostics` and `io_edge`: each line of the input with what its
//! call gives.
//!
//! A line is a library, a call of it and the arguments, as `cxx_base find "std"`. A line that begins with `#` is a remark and is
//! repeated, and so is an empty one.
#![tactic(auto)]

mod answer;
mod base;
mod bytes;
mod devices;
mod layouts;
mod limits;
mod lists;
mod names;
mod notes;
mod refusals;
mod streams;

use answer::append_answer;
use io_edge::{FromRead, ToWrite};
use row_edge::{RowAnswers, RowFault, TextAnswers, answers_to_rows, run};
use std::alloc::Global;
use std::process::ExitCode;

/// The rows of these crates.
struct BaseRows;

impl RowAnswers for BaseRows {
    fn append_answer(alloc: Global, out: &mut String, line: &str) -> Result<(), RowFault> {
        append_answer(alloc, out, line)
    }
}

impl TextAnswers for BaseRows {
    fn answers(alloc: Global, text: &str) -> Result<String, RowFault> {
        answers_to_rows::<BaseRows>(alloc, text)
    }
}

fn main(rt: HostRuntime) -> ExitCode {
    let mut source = FromRead::new(rt.stdin());
    let mut sink = ToWrite::new(rt.stdout());
    ExitCode::from(run::<BaseRows, _, _>(rt.alloc(), &mut source, &mut sink))
}
