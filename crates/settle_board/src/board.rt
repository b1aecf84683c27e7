//! The board and its seats.

ghost use Rattle.std.specs.Prelude.{◌≡◌, ◌≤◌, [], length, vec_capacity};

use atomic_table::{Seat, Table};
use board_rule::{Home, Key, Law, View};
use settle_core::Meaning;
use std::alloc::Global;

/// For each piece a word and a slot, and one stop word. A word is 0 fresh, 1 held, 3 settled, 4 settled with its outcome lent,
/// 8 + j parked on the piece j.
///
/// A slot has its task or outcome inline, so a meaning whose tasks or outcomes are large boxes them.
#[derive(Drop)]
pub struct Board<M: Meaning> {
    pub(crate) key: Key<M>,
    pub(crate) table: Table<Home<M::Task, M::Outcome>, View<M, M::Task>, Key<M>, Law<M>, Global>,
    // Room for the outcomes, so that closing takes no memory.
    pub(crate) room: Vec<M::Outcome>,
    ghost keyed: { table.shared.key ≡ key },
    ghost some_seat: { 1 ≤ key.seats },
    ghost roomy: { (room.items ≡ []) × (table.shared.table_id.slots ≤ vec_capacity room) },
}

/// What a worker needs to use the board. It has no bytes: what it stands for, the view of the worker, is in proofs alone.
#[derive(Drop)]
pub struct BoardSeat<M: Meaning> {
    pub(crate) seat: Seat<Home<M::Task, M::Outcome>, View<M, M::Task>>,
}
