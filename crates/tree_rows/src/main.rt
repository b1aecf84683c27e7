//! Answers rows of types and of the sizes of trees: each line of the input with what is asked.
//!
//! A line that begins with `#` is a remark and is repeated, and so is an empty one. The others ask, of a type in words as
//! `class 1 const * [2]`, which says its layers from the innermost on:
//!
//! - `type TYPE`: how many layers it has, and its runs of equal layers, the outermost first;
//! - `same TYPE | TYPE`: whether they are equal;
//! - `alike TYPE | TYPE | ..`: of each, by their numbers from 1, which of all these it is equal to;
//! - `times N WORDS`: what `type` tells, of `int` with the words N times;
//! - `less N TIMES WORDS`: the same where N layers are taken off again;
//! - `run N WORD WORDS`: the same where N layers that the word says are put over those of the words at once;
//! - `shared N TIMES WORDS`: whether the last of N copies, each of the one before, is equal to the first;
//! - `twice TIMES WORDS`: whether it is equal to one that is made by itself;
//! - `size NAME N`: whether a value of the type of that name takes at most N bytes;
//! - `laws`: the laws of types are called, which do nothing.
#![tactic(auto)]

mod answer;
mod plain;
mod sizes;

use answer::append_answer;
use io_edge::{FromRead, ToWrite};
use row_edge::{RowAnswers, RowFault, TextAnswers, answers_to_rows, run};
use std::alloc::Global;
use std::process::ExitCode;

/// The rows of `cxx_type`, and of the sizes of `cxx_tree`.
struct TreeRows;

impl RowAnswers for TreeRows {
    fn append_answer(alloc: Global, out: &mut String, line: &str) -> Result<(), RowFault> {
        append_answer(alloc, out, line)
    }
}

impl TextAnswers for TreeRows {
    fn answers(alloc: Global, text: &str) -> Result<String, RowFault> {
        answers_to_rows::<TreeRows>(alloc, text)
    }
}

fn main(rt: HostRuntime) -> ExitCode {
    let mut source = FromRead::new(rt.stdin());
    let mut sink = ToWrite::new(rt.stdout());
    ExitCode::from(run::<TreeRows, _, _>(rt.alloc(), &mut source, &mut sink))
}
