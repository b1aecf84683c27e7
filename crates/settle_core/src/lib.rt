//! The pure machine of parked tasks: pieces that read one another are claimed, advanced, parked, resumed and settled in any
//! order, one step at a time, and each settled piece has the outcome that work in order gives it.
#![tactic(auto)]

mod core_state;
mod core_step;
mod folding;
mod laws;
mod meaning;
mod next_of;
mod piece_moves;
mod piece_state;
mod played;
mod stepping;
mod taken_list;

pub use core_state::CoreState;
pub use core_step::CoreStep;
pub use folding::in_order;
pub use laws::{every_order_is_sound, reads_say_what_is_next};
pub use meaning::Meaning;
pub use next_of::NextOf;
pub use piece_state::PieceState;
pub use played::Played;
pub use stepping::{replay, step};
pub use taken_list::TakenList;
