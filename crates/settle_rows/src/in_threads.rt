//! Rows of boards on which hands work in threads.

ghost use Rattle.std.specs.Prelude.{◌≡◌, ◌≤◌, length, IfOk};

use crate::ends::no_more;
use board_callers::{Ending, Plan, settle_all};
use row_edge::{RowFault, next_word, parsed, show};
use settle_samples::{Chain, Readless, Three};
use std::alloc::Global;
use std::str::SplitWhitespace;
use std::sync::Wait;
use std::thread::Threads;

/// The most hands of a board.
const MOST_HANDS: usize = 32;

/// So many pieces that no hand stops.
const ALL: u64 = u64::MAX;

/// `three`, what piece 0 comes to, and a word for each hand, as `2/down`: the piece that it tries first, and where it goes from there. What
/// the board of the three pieces came to.
pub fn append_three<R: Threads + Wait + Sync>(
    rt: &R,
    alloc: Global,
    out: &mut String,
    mut words: SplitWhitespace<'_>,
) -> Result<(), RowFault> {
    let first = parsed::<u64>(next_word(&mut words)?)?;
    let mut plans = Vec::new(alloc);
    for word in words {
        plans.push(plan_of(word)?)?;
    }
    if plans.is_empty() || plans.len() > MOST_HANDS {
        return Err(RowFault::Unread);
    }
    match settle_all(rt, alloc, &Three { first }, plans.as_slice())? {
        Ending::Settled(outcomes) => show(out, &outcomes.as_slice()),
        Ending::Left(left) => show(out, &left),
    }
}

fn plan_of(word: &str) -> Result<Plan, RowFault> {
    let Some((first, way)) = word.split_once('/') else {
        return Err(RowFault::Unread);
    };
    Ok(Plan {
        first: parsed::<u32>(first)?,
        down: down_of(way)?,
        pieces: ALL,
    })
}

fn down_of(word: &str) -> Result<bool, RowFault> {
    match word {
        "up" => Ok(false),
        "down" => Ok(true),
        _ => Err(RowFault::Unread),
    }
}

/// `round`, how many pieces without reads there are, and how many hands settle them, of which each begins at its part: how many outcomes
/// the board gives.
pub fn append_round<R: Threads + Wait + Sync>(
    rt: &R,
    alloc: Global,
    out: &mut String,
    words: &mut SplitWhitespace<'_>,
) -> Result<(), RowFault> {
    let pieces = parsed::<u32>(next_word(words)?)?;
    let hands = parsed::<u32>(next_word(words)?)?;
    no_more(words)?;
    let plans = plans_for(alloc, pieces, hands)?;
    append_count(
        out,
        settle_all(rt, alloc, &Readless { pieces }, plans.as_slice())?,
    )
}

// A plan for each hand, with a part of the pieces for each.
fn plans_for(alloc: Global, pieces: u32, hands: u32) -> Result<Vec<Plan>, RowFault>
    ensures { IfOk result (λ plans. (1 ≤ length plans.items) × (length plans.items ≤ 32)) }
{
    if hands == 0 || hands > MOST_HANDS as u32 {
        return Err(RowFault::Unread);
    }
    let part = pieces / hands;
    let mut plans = Vec::new(alloc);
    for i in 0..hands {
        plans.push(Plan {
            first: part.wrapping_mul(i),
            down: false,
            pieces: ALL,
        })?;
    }
    Ok(plans)
}

fn append_count(out: &mut String, ending: Ending<u64>) -> Result<(), RowFault> {
    match ending {
        Ending::Settled(outcomes) => show(out, &outcomes.len()),
        Ending::Left(left) => show(out, &left),
    }
}

/// `chain`, how many pieces there are, of which each reads the two before it, and how many hands settle them: the last outcome.
pub fn append_chain<R: Threads + Wait + Sync>(
    rt: &R,
    alloc: Global,
    out: &mut String,
    words: &mut SplitWhitespace<'_>,
) -> Result<(), RowFault> {
    let pieces = parsed::<u32>(next_word(words)?)?;
    let hands = parsed::<u32>(next_word(words)?)?;
    no_more(words)?;
    let plans = plans_for(alloc, pieces, hands)?;
    match settle_all(rt, alloc, &Chain { pieces }, plans.as_slice())? {
        Ending::Settled(outcomes) => show(out, &outcomes.as_slice().last()),
        Ending::Left(left) => show(out, &left),
    }
}

/// `stop`, how many pieces without reads there are, after how many the first hand stops, and how many hands there are: how many outcomes
/// the board gives, or the first piece that is left.
pub fn append_stopped<R: Threads + Wait + Sync>(
    rt: &R,
    alloc: Global,
    out: &mut String,
    words: &mut SplitWhitespace<'_>,
) -> Result<(), RowFault> {
    let pieces = parsed::<u32>(next_word(words)?)?;
    let after = parsed::<u64>(next_word(words)?)?;
    let hands = parsed::<u32>(next_word(words)?)?;
    no_more(words)?;
    let mut plans = plans_for(alloc, pieces, hands)?;
    plans[0].pieces = after;
    append_count(
        out,
        settle_all(rt, alloc, &Readless { pieces }, plans.as_slice())?,
    )
}
