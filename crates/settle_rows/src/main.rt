//! Answers rows of calls of `settle_core`, `settle_board`, `piece_search` and `board_callers`: each line of the input with what its call gives.
//!
//! A line is `settle_core`, or `board` for a board that one thread uses, or `threads`, then a call and the arguments, as
//! `settle_core replay claim/0/7`. A line that begins with `#` is a remark and is repeated, and so is an empty one.
#![tactic(auto)]

mod answer;
mod ends;
mod in_threads;
mod machine;
mod many_seats;
mod rows;
mod seat_calls;
mod shown;
mod sizes;
mod step_words;
mod taking;
mod two_seats;

use io_edge::{FromRead, ToWrite};
use rows::run;
use std::process::ExitCode;

fn main(rt: HostRuntime) -> ExitCode {
    let mut source = FromRead::new(rt.stdin());
    let mut sink = ToWrite::new(rt.stdout());
    ExitCode::from(run(&rt, rt.alloc(), &mut source, &mut sink))
}
