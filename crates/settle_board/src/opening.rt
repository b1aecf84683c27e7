//! A new board with its seats.

ghost use Rattle.std.specs.Prelude.{◌≡◌, ◌≤◌, ◌<◌, [], length, IfOk, replicate, vec_capacity};
ghost use Rattle.board_rule.specs.declared.home.Home.TheVariants.{Empty};
ghost use Rattle.settle_board.specs.Boards.{meaning_of, means};
ghost use Rattle.settle_board.specs.Seating.{AreNew, Dealing, seats_in, room_of, seat_count};

use crate::board::{Board, BoardSeat};
use crate::seat_list::Seats;
use atomic_table::{Refused, Seat, Table};
use board_rule::{Cut, Home, Key, View};
use cxx_base::Memory;
use settle_core::Meaning;
use std::alloc::Global;

impl<M: Meaning> Board<M> {
    /// A board on which every piece is fresh and the stop word is not set, and its seats, which know nothing. This is the one
    /// call that takes memory.
    pub fn new(alloc: Global, meaning: M, seats: u32) -> Result<(Board<M>, Seats<M>), Memory>
        requires { (1 ≤ seats) × (seats ≤ 32) }
        ensures meaning { IfOk result (λ made. meaning_of made.0 ≡ meaning) }
        ensures seats { IfOk result (λ made. (seat_count made.0 ≡ seats) × (room_of made.1 ≡ seats)
            × (length (seats_in made.1) ≡ seats)) }
        ensures blank { IfOk result (λ made. AreNew (λ x. M.meant x) made.0 (seats_in made.1)) }
    {
        let pieces = meaning.pieces() as usize;
        let words = Vec::from_elem(alloc, 0u64, pieces + 1)?;
        let homes = empties(alloc, pieces)?;
        let room = Vec::with_capacity(alloc, pieces)?;
        let list = Vec::with_capacity(alloc, seats as usize)?;
        let key = Key {
            meaning,
            seats: seats as u64,
        };
        match Table::new(alloc, words.as_slice(), homes, &key) {
            Ok((table, first)) => {
                let board = Board { key, table, room };
                let list = deal(&board, first, list);
                let seats = Seats { list, count: seats };
                Ok((board, seats))
            }
            Err(Refused { slots: _ }) => Err(Memory),
        }
    }
}

fn empties<T: Drop, O: Drop>(alloc: Global, count: usize) -> Result<Vec<Home<T, O>>, Memory>
    ensures { IfOk result (λ homes. homes.items ≡ replicate count Empty) }
{
    let mut homes = Vec::with_capacity(alloc, count)?;
    for _ in 0..count {
        homes.push_reserved(Home::Empty);
    }
    Ok(homes)
}

// Cuts the first seat, which stands for all, into seats of one share each.
fn deal<M: Meaning>(
    board: &Board<M>,
    mut first: Seat<Home<M::Task, M::Outcome>, View<M, M::Task>>,
    mut list: Vec<BoardSeat<M>>,
) -> Vec<BoardSeat<M>>
    requires first { Dealing (means M.Meaning board.now) board.now.table.shared.table_id
        board.now.key (seat_count board.now) first }
    requires room { (list.items ≡ []) × (seat_count board.now ≤ vec_capacity list) }
    ensures seats { (length result.items ≡ seat_count board.now)
        × (seat_count board.now ≤ vec_capacity result) }
    ensures blank { AreNew (λ x. M.meant x) board.now result.items }
{
    let mut left = board.key.seats;
    while left > 1 {
        let seat = board.table.shared.split_seat::<Cut>(&mut first);
        list.push_reserved(BoardSeat { seat });
        left -= 1;
    }
    list.push_reserved(BoardSeat { seat: first });
    list
}
