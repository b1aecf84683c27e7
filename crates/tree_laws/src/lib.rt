//! What a caller needs to know of trees.
#![tactic(auto)]

mod laws;

pub use laws::units_are_sent_and_shared;
