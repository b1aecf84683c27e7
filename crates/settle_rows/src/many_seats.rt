//! Rows of boards of pieces without reads.

ghost use Rattle.std.specs.Prelude.{◌≡◌, ◌<◌, ◌≤◌, [], ◌∷◌, length, IfOk};
ghost use Rattle.settle_board.specs.Boards.{meaning_of, view_of};
ghost use Rattle.settle_board.specs.Seating.{AreBack, AreNew, seats_in, room_of, seat_count};
ghost use Rattle.settle_samples.specs.Readless.{pieces_without_reads};

use board_callers::settle_some;
use cxx_base::{Memory, OutcomeList, PieceNo};
use row_edge::{RowFault, next_word, parsed, show};
use settle_board::{Board, BoardSeat, Seats};
use settle_samples::Readless;
use std::alloc::Global;
use std::str::SplitWhitespace;

/// The most seats of a board.
const MOST_SEATS: u32 = 32;

/// `many`, how many pieces and seats there are, and how many pieces each seat settles, one seat after the other: how many outcomes the
/// board gives, and those of the pieces that the words behind it name, or which piece was left.
pub fn append_many(
    alloc: Global,
    out: &mut String,
    mut words: SplitWhitespace<'_>,
) -> Result<(), RowFault> {
    let pieces = parsed::<u32>(next_word(&mut words)?)?;
    let seats = parsed::<u32>(next_word(&mut words)?)?;
    let each = parsed::<u32>(next_word(&mut words)?)?;
    if seats == 0 || seats > MOST_SEATS {
        return Err(RowFault::Unread);
    }
    let (board, seats) = Board::new(alloc, Readless { pieces }, seats)?;
    let seats = settle_with_all(alloc, &board, seats, pieces, each)?;
    match board.close(seats) {
        Ok(outcomes) => append_outcomes(out, &outcomes, words),
        Err(left) => show(out, &left),
    }
}

// How many outcomes there are, and those that the words ask for.
fn append_outcomes(
    out: &mut String,
    outcomes: &OutcomeList<u64>,
    words: SplitWhitespace<'_>,
) -> Result<(), RowFault> {
    show(out, &outcomes.len())?;
    for word in words {
        out.push(' ')?;
        show(out, &outcomes.get(PieceNo(parsed::<u32>(word)?)))?;
    }
    Ok(())
}

// Each seat settles so many of the pieces.
fn settle_with_all(
    alloc: Global,
    board: &Board<Readless>,
    mut seats: Seats<Readless>,
    pieces: u32,
    each: u32,
) -> Result<Seats<Readless>, Memory>
    requires seats { AreNew (λ x. pieces_without_reads x.pieces) board.now (seats_in seats) }
    requires all { length (seats_in seats) ≡ room_of seats }
    requires pieces { pieces ≡ (meaning_of board.now).pieces }
    ensures seats { IfOk result (λ r.
        AreBack (λ x. pieces_without_reads x.pieces) board.now (seats_in r)) }
    ensures all { IfOk result (λ r. length (seats_in r) ≡ room_of seats) }
{
    let mut done = Vec::new(alloc);
    let mut first = 0;
    while let Some(mut seat) = seats.take() {
        let last = end(first, each, pieces);
        settle_some(board, &mut seat, first, last);
        done.push(seat)?;
        first = last;
    }
    Ok(give_all(board, seats, done))
}

// The end of so many pieces, or of all.
fn end(first: u32, each: u32, pieces: u32) -> u32
    requires { first ≤ pieces }
    ensures { result ≤ pieces }
{
    if pieces - first < each {
        pieces
    } else {
        first + each
    }
}

// The seats come back.
fn give_all(
    board: &Board<Readless>,
    mut seats: Seats<Readless>,
    mut done: Vec<BoardSeat<Readless>>,
) -> Seats<Readless>
    requires seats { (seats_in seats ≡ []) × (length done.items ≡ room_of seats) }
    requires done { AreBack (λ x. pieces_without_reads x.pieces) board.now done.items }
    ensures seats { AreBack (λ x. pieces_without_reads x.pieces) board.now (seats_in result) }
    ensures all { length (seats_in result) ≡ room_of seats }
{
    while let Some(seat) = done.pop() {
        seats.give(seat);
    }
    seats
}
