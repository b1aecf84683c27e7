//! Callers of the board, each proved from what the calls say of plain views: hands in threads of their own that settle the pieces of
//! any meaning together, and a worker of pieces without reads.
#![tactic(auto)]

mod borrowing;
mod hand;
mod piece_work;
mod readless_work;
mod round;
mod tasked;
mod together;
mod turns;

pub use hand::{Hand, HandEnd, Plan};
pub use piece_work::work;
pub use readless_work::settle_some;
pub use tasked::Tasked;
pub use together::{Ending, settle_all};
