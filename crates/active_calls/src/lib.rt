//! The calls that an evaluation has active.
#![tactic(auto)]

mod calls;

pub use calls::Calls;
