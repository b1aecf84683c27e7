//! The answer to a row.

use crate::ends::no_more;
use crate::{in_threads, machine, many_seats, seat_calls, sizes, taking};
use board_rule::{each_step_is_the_machines, every_board_is_one_sound_state};
use row_edge::{RowFault, next_word};
use settle_samples::Three;
use std::alloc::Global;
use std::sync::Wait;
use std::thread::Threads;

/// Puts the answer to a line at the end of a text.
pub fn append_answer<R: Threads + Wait + Sync>(
    rt: &R,
    alloc: Global,
    out: &mut String,
    line: &str,
) -> Result<(), RowFault> {
    match line.split_once(' ') {
        Some(("settle_core", row)) => machine::append_answer(alloc, out, row),
        Some(("board", row)) => append_board(rt, alloc, out, row),
        Some(("threads", row)) => append_threads(rt, alloc, out, row),
        _ => Err(RowFault::Unread),
    }
}

// A row of a board that one thread uses.
fn append_board<R: Wait>(
    rt: &R,
    alloc: Global,
    out: &mut String,
    row: &str,
) -> Result<(), RowFault> {
    let mut words = row.split_whitespace();
    match next_word(&mut words)? {
        "seats" => seat_calls::append_calls(alloc, out, words),
        "turns" => taking::append_turns(rt, alloc, out, words),
        "many" => many_seats::append_many(alloc, out, words),
        "sizes" => sizes::append_sizes(out, &mut words),
        "laws" => {
            no_more(&mut words)?;
            every_board_is_one_sound_state(&Three { first: 5 });
            each_step_is_the_machines(&Three { first: 5 });
            Ok(out.push_str("hold")?)
        }
        _ => Err(RowFault::Unread),
    }
}

fn append_threads<R: Threads + Wait + Sync>(
    rt: &R,
    alloc: Global,
    out: &mut String,
    row: &str,
) -> Result<(), RowFault> {
    let mut words = row.split_whitespace();
    match next_word(&mut words)? {
        "three" => in_threads::append_three(rt, alloc, out, words),
        "round" => in_threads::append_round(rt, alloc, out, &mut words),
        "chain" => in_threads::append_chain(rt, alloc, out, &mut words),
        "stop" => in_threads::append_stopped(rt, alloc, out, &mut words),
        _ => Err(RowFault::Unread),
    }
}
