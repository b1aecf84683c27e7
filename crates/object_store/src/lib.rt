//! The objects of an evaluation: what they are, and what may be done to them.
#![tactic(auto)]

mod store;

pub use store::Store;
