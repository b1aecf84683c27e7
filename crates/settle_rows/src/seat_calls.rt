//! Rows of single calls of two seats of a board.

ghost use Rattle.settle_board.specs.Boards.{IsOfBy};
ghost use Rattle.settle_samples.specs.ThreePieces.{three_pieces};

use crate::two_seats::{Opened, open};
use cxx_base::PieceNo;
use piece_search::{Found, search};
use row_edge::{RowFault, parsed, show};
use settle_board::{Board, BoardSeat, Claim};
use settle_samples::Three;
use std::alloc::Global;
use std::str::SplitWhitespace;

/// What piece 0 comes to.
const FIRST: u64 = 5;

/// `seats` and words as `a/stop` or `b/claim/2`: what each call gives, of the seat `a` or `b` of a new board of the three pieces.
pub fn append_calls(
    alloc: Global,
    out: &mut String,
    words: SplitWhitespace<'_>,
) -> Result<(), RowFault> {
    let Opened {
        board,
        seats: _,
        first: mut a,
        second: mut b,
    } = open(alloc, FIRST)?;
    for word in words {
        match word.split_once('/') {
            Some(("a", call)) => append_call(out, &board, &mut a, call)?,
            Some(("b", call)) => append_call(out, &board, &mut b, call)?,
            _ => return Err(RowFault::Unread),
        }
        out.push(';')?;
    }
    Ok(())
}

fn append_call(
    out: &mut String,
    board: &Board<Three>,
    seat: &mut BoardSeat<Three>,
    call: &str,
) -> Result<(), RowFault>
    requires { IsOfBy (λ x. three_pieces x.first) board.now seat.old }
    ensures { IsOfBy (λ x. three_pieces x.first) board.now seat.new }
{
    match call {
        "stop" => {
            board.stop(seat);
            Ok(out.push_str("set")?)
        }
        "stopped" => show(out, &board.stopped(seat)),
        _ => append_at_piece(out, board, seat, call),
    }
}

// A call at a piece, as `look/0`.
fn append_at_piece(
    out: &mut String,
    board: &Board<Three>,
    seat: &mut BoardSeat<Three>,
    call: &str,
) -> Result<(), RowFault>
    requires { IsOfBy (λ x. three_pieces x.first) board.now seat.old }
    ensures { IsOfBy (λ x. three_pieces x.first) board.now seat.new }
{
    let Some((name, number)) = call.split_once('/') else {
        return Err(RowFault::Unread);
    };
    let k = parsed::<u32>(number)?;
    if k >= 3 {
        return Err(RowFault::Unread);
    }
    match name {
        "search" => append_found(out, search(board, seat, 3, k)),
        "look" => show(out, &board.look(seat, PieceNo(k))),
        "claim" => append_claimed(out, board.claim(seat, PieceNo(k))),
        _ => Err(RowFault::Unread),
    }
}

// What a seat found that looked for work.
fn append_found(out: &mut String, found: Found<Three>) -> Result<(), RowFault> {
    match found {
        Found::Fresh(k) => show(out, &k),
        Found::Parked(k, task) => show(out, &(k, task)),
        Found::Nothing => Ok(out.push_str("nothing")?),
    }
}

// What a claim answers.
fn append_claimed(out: &mut String, claim: Claim<Three>) -> Result<(), RowFault> {
    match claim {
        Claim::Start => Ok(out.push_str("start")?),
        Claim::Resume(task) => show(out, &task),
        Claim::NotNow(word) => show(out, &word),
        Claim::StillParked { on, word } => show(out, &(on, word)),
    }
}
