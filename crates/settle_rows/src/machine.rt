//! Rows of the machine of parked tasks.

ghost use Rattle.std.specs.Prelude.{◌≡◌, length, IfOk, IfSome};

use crate::ends::no_more;
use crate::shown::{look_at, look_at_all};
use crate::step_words::{numbers_of, step_of, steps_of};
use cxx_base::{Memory, PieceNo};
use row_edge::{RowFault, next_word, parsed, show};
use settle_core::{
    CoreState, CoreStep, TakenList, every_order_is_sound, in_order, reads_say_what_is_next, replay,
    step,
};
use settle_samples::Three;
use std::alloc::Global;
use std::str::SplitWhitespace;

/// The three pieces, of which piece 2 reads piece 0 and then piece 1.
const PIECES: Three = Three { first: 5 };

/// Puts the answer at the end of a text.
pub fn append_answer(alloc: Global, out: &mut String, row: &str) -> Result<(), RowFault> {
    let mut words = row.split_whitespace();
    match next_word(&mut words)? {
        "replay" => append_replayed(alloc, out, steps_of(alloc, words)?.as_slice()),
        "further" => append_further(alloc, out, row),
        "at" => {
            let k = parsed::<u32>(next_word(&mut words)?)?;
            append_at(alloc, out, PieceNo(k), steps_of(alloc, words)?.as_slice())
        }
        "piece" => {
            let next = step_of(next_word(&mut words)?)?;
            no_more(&mut words)?;
            show(out, &next.piece())
        }
        "in_order" => {
            no_more(&mut words)?;
            show(out, &in_order(alloc, &PIECES)?.as_slice())
        }
        "taken" => {
            let k = parsed::<u32>(next_word(&mut words)?)?;
            append_taken(alloc, out, PieceNo(k), words)
        }
        "laws" => {
            no_more(&mut words)?;
            every_order_is_sound(&PIECES);
            reads_say_what_is_next(&PIECES);
            Ok(out.push_str("hold")?)
        }
        _ => Err(RowFault::Unread),
    }
}

// The state after a list of steps.
fn append_replayed(alloc: Global, out: &mut String, steps: &[CoreStep]) -> Result<(), RowFault> {
    append_state(out, replay(alloc, &PIECES, steps)?)
}

fn append_state(out: &mut String, state: Option<CoreState<Three>>) -> Result<(), RowFault> {
    match state {
        Some(state) => show(out, &look_at_all(&state)),
        None => Ok(out.push_str("refused")?),
    }
}

// The state after the steps before the word `then`, and what each step behind it makes of that state.
fn append_further(alloc: Global, out: &mut String, row: &str) -> Result<(), RowFault> {
    let Some((before, further)) = row.split_once(" then ") else {
        return Err(RowFault::Unread);
    };
    let mut words = before.split_whitespace();
    next_word(&mut words)?;
    let steps = steps_of(alloc, words)?;
    append_replayed(alloc, out, steps.as_slice())?;
    for word in further.split_whitespace() {
        out.push(' ')?;
        append_after(alloc, out, steps.as_slice(), step_of(word)?)?;
    }
    Ok(())
}

// What a step makes of the state after a list of steps.
fn append_after(
    alloc: Global,
    out: &mut String,
    steps: &[CoreStep],
    next: CoreStep,
) -> Result<(), RowFault> {
    match replay(alloc, &PIECES, steps)? {
        Some(state) => append_state(out, step(alloc, &PIECES, state, next)?),
        None => Err(RowFault::Unread),
    }
}

// A piece, and its outcome where it is settled, after steps that are made one by one.
fn append_at(
    alloc: Global,
    out: &mut String,
    k: PieceNo,
    steps: &[CoreStep],
) -> Result<(), RowFault> {
    match stepped(alloc, steps)? {
        Some(state) => show(out, &(look_at(&state, k), state.outcome(k))),
        None => Ok(out.push_str("refused")?),
    }
}

fn stepped(alloc: Global, steps: &[CoreStep]) -> Result<Option<CoreState<Three>>, Memory> {
    let mut state = CoreState::fresh(alloc, &PIECES)?;
    for next in steps {
        let Some(after) = step(alloc, &PIECES, state, *next)? else {
            return Ok(None);
        };
        state = after;
    }
    Ok(Some(state))
}

// Of a list of pieces with their outcomes, as `2/9`, how many there are, and the outcome of one.
fn append_taken(
    alloc: Global,
    out: &mut String,
    k: PieceNo,
    words: SplitWhitespace<'_>,
) -> Result<(), RowFault> {
    let mut taken = TakenList::new(alloc);
    for word in words {
        let (piece, outcome) = numbers_of(word)?;
        taken.push(PieceNo(piece), u64::from(outcome))?;
    }
    show(out, &(taken.len(), taken.outcome_of(k)))
}
