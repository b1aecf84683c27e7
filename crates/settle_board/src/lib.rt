//! The board that workers share: pieces are claimed, parked, settled and lent by single steps on words, with no lock anywhere.
#![tactic(auto)]

mod answers;
mod board;
mod claiming;
mod closing;
mod emptying;
mod holding;
mod lending;
mod opening;
mod seat_list;
mod seats;
mod stopping;

pub use answers::{Claim, Lend, Unsettled};
pub use board::{Board, BoardSeat};
pub use seat_list::Seats;
