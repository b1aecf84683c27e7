//! A value that is shared: a copy of it costs a count, and contracts see what is shared.
#![tactic(auto)]

mod shared;

pub use shared::Shared;
