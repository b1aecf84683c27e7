//! The rule of the board that workers share: words, homes and views show one sound state of the machine of parked tasks.
//! Each kind of step on the board has a play, which says what the step tells its seat.
#![tactic(auto)]

mod home;
mod law;
mod laws;
mod plays;
mod view;

pub use home::Home;
pub use law::Law;
pub use laws::{each_step_is_the_machines, every_board_is_one_sound_state};
pub use plays::{
    ClaimFresh, ClaimParked, Cut, GiveBack, LendStep, Look, LookAtStop, Merge, Park, PutSlotBack,
    Settle, Stop, TakeSlot,
};
pub use view::{Entry, Hold, Key, View};
