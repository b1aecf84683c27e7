//! Rows in which two seats take pieces in turn, each of which they settle or park.

ghost use Rattle.std.specs.Prelude.{◌≡◌, ◌<◌, OnOk};
ghost use Rattle.settle_board.specs.Boards.{IsIdle, IsOfBy, meaning_of, view_of};
ghost use Rattle.board_callers.specs.Holding.{HoldsOnly, IsClaimedFor};
ghost use Rattle.settle_samples.specs.ThreePieces.{three_pieces};

use crate::two_seats::{Opened, close, open};
use board_callers::work;
use cxx_base::PieceNo;
use row_edge::{RowFault, next_word, parsed, show};
use settle_board::{Board, BoardSeat, Claim, Lend};
use settle_samples::Three;
use std::alloc::Global;
use std::str::SplitWhitespace;
use std::sync::Wait;

/// `turns`, what piece 0 comes to, and words as `a/take/2` or `b/loans/0`: what each call gives, of the seat `a` or `b` of a new board of
/// the three pieces, and what the board comes to when both seats are back.
pub fn append_turns<R: Wait>(
    rt: &R,
    alloc: Global,
    out: &mut String,
    mut words: SplitWhitespace<'_>,
) -> Result<(), RowFault> {
    let first = parsed::<u64>(next_word(&mut words)?)?;
    let meaning = Three { first };
    let Opened {
        board,
        seats,
        first: mut a,
        second: mut b,
    } = open(alloc, first)?;
    for word in words {
        append_named(rt, alloc, out, &board, &meaning, &mut a, &mut b, word)?;
        out.push(';')?;
    }
    match close(board, seats, a, b) {
        Ok(outcomes) => show(out, &outcomes.as_slice()),
        Err(left) => show(out, &left),
    }
}

// A call of the seat that the word names.
fn append_named<R: Wait>(
    rt: &R,
    alloc: Global,
    out: &mut String,
    board: &Board<Three>,
    meaning: &Three,
    a: &mut BoardSeat<Three>,
    b: &mut BoardSeat<Three>,
    word: &str,
) -> Result<(), RowFault>
    requires meaning { meaning.now ≡ meaning_of board.now }
    requires first { IsOfBy (λ x. three_pieces x.first) board.now a.old × IsIdle (view_of a.old) }
    requires second { IsOfBy (λ x. three_pieces x.first) board.now b.old
        × IsIdle (view_of b.old) }
    ensures first { OnOk result (IsOfBy (λ x. three_pieces x.first) board.now a.new
        × IsIdle (view_of a.new)) }
    ensures second { OnOk result (IsOfBy (λ x. three_pieces x.first) board.now b.new
        × IsIdle (view_of b.new)) }
{
    match word.split_once('/') {
        Some(("a", call)) => append_turn(rt, alloc, out, board, meaning, a, b, call),
        Some(("b", call)) => append_turn(rt, alloc, out, board, meaning, b, a, call),
        _ => Err(RowFault::Unread),
    }
}

// A call of one seat; a loan is one that the other wants too.
fn append_turn<R: Wait>(
    rt: &R,
    alloc: Global,
    out: &mut String,
    board: &Board<Three>,
    meaning: &Three,
    seat: &mut BoardSeat<Three>,
    other: &mut BoardSeat<Three>,
    call: &str,
) -> Result<(), RowFault>
    requires meaning { meaning.now ≡ meaning_of board.now }
    requires seat { IsOfBy (λ x. three_pieces x.first) board.now seat.old
        × IsIdle (view_of seat.old) }
    requires other { IsOfBy (λ x. three_pieces x.first) board.now other.old
        × IsIdle (view_of other.old) }
    ensures seat { OnOk result (IsOfBy (λ x. three_pieces x.first) board.now seat.new
        × IsIdle (view_of seat.new)) }
    ensures other { OnOk result (IsOfBy (λ x. three_pieces x.first) board.now other.new
        × IsIdle (view_of other.new)) }
{
    let Some((name, number)) = call.split_once('/') else {
        return Err(RowFault::Unread);
    };
    let k = parsed::<u32>(number)?;
    if k >= 3 {
        return Err(RowFault::Unread);
    }
    match name {
        "take" => append_taken(rt, alloc, out, board, meaning, seat, PieceNo(k)),
        "loans" => append_loans(out, board, seat, other, PieceNo(k)),
        _ => Err(RowFault::Unread),
    }
}

// What a claim answers, and the word of the piece once the seat has settled or parked it.
fn append_taken<R: Wait>(
    rt: &R,
    alloc: Global,
    out: &mut String,
    board: &Board<Three>,
    meaning: &Three,
    seat: &mut BoardSeat<Three>,
    k: PieceNo,
) -> Result<(), RowFault>
    requires meaning { meaning.now ≡ meaning_of board.now }
    requires seat { IsOfBy (λ x. three_pieces x.first) board.now seat.old
        × IsIdle (view_of seat.old) }
    requires piece { k.0 < 3 }
    ensures { OnOk result (IsOfBy (λ x. three_pieces x.first) board.now seat.new
        × IsIdle (view_of seat.new)) }
{
    match board.claim(seat, k) {
        Claim::Start => {
            out.push_str("start ")?;
            append_work(rt, alloc, out, board, meaning, seat, k, None)
        }
        Claim::Resume(task) => {
            show(out, &task)?;
            out.push(' ')?;
            append_work(rt, alloc, out, board, meaning, seat, k, Some(task))
        }
        Claim::NotNow(word) => show(out, &word),
        Claim::StillParked { on, word } => show(out, &(on, word)),
    }
}

// Settles or parks the piece that the seat holds, and then its word.
fn append_work<R: Wait>(
    rt: &R,
    alloc: Global,
    out: &mut String,
    board: &Board<Three>,
    meaning: &Three,
    seat: &mut BoardSeat<Three>,
    k: PieceNo,
    claimed: Option<u64>,
) -> Result<(), RowFault>
    requires meaning { meaning.now ≡ meaning_of board.now }
    requires of { IsOfBy (λ x. three_pieces x.first) board.now seat.old }
    requires piece { k.0 < 3 }
    requires holds { HoldsOnly k.0 claimed (view_of seat.old) }
    requires claimed { IsClaimedFor (three_pieces (meaning_of board.now).first) k.0 claimed }
    ensures { OnOk result (IsOfBy (λ x. three_pieces x.first) board.now seat.new
        × IsIdle (view_of seat.new)) }
{
    work(rt, alloc, board, meaning, seat, k, claimed)?;
    let word = board.look(seat, k);
    show(out, &word)
}

// What two seats get that want to borrow one outcome: the first, the other meanwhile, and the other once it is back.
fn append_loans(
    out: &mut String,
    board: &Board<Three>,
    seat: &mut BoardSeat<Three>,
    other: &mut BoardSeat<Three>,
    j: PieceNo,
) -> Result<(), RowFault>
    requires seat { IsOfBy (λ x. three_pieces x.first) board.now seat.old
        × IsIdle (view_of seat.old) }
    requires other { IsOfBy (λ x. three_pieces x.first) board.now other.old
        × IsIdle (view_of other.old) }
    requires piece { j.0 < 3 }
    ensures seat { OnOk result (IsOfBy (λ x. three_pieces x.first) board.now seat.new
        × IsIdle (view_of seat.new)) }
    ensures other { OnOk result (IsOfBy (λ x. three_pieces x.first) board.now other.new
        × IsIdle (view_of other.new)) }
{
    let Lend::Got(first) = board.lend(seat, j) else {
        return Err(RowFault::Unread);
    };
    let Lend::Busy(word) = board.lend(other, j) else {
        return Err(RowFault::Unread);
    };
    board.give_back(seat, j, first);
    let Lend::Got(second) = board.lend(other, j) else {
        return Err(RowFault::Unread);
    };
    board.give_back(other, j, second);
    show(out, &(first, word, second))
}
