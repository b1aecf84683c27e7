//! How a worker looks for work on the board, and the words for what a call of it saw and did.
#![tactic(auto)]

mod searching;

pub use searching::{Found, search};
