//! A box and a list that contracts see as what they hold, so that a tree made of them is plain data.
//!
//! Their drops are written, as those of the trees: a written drop is proved once, where the type stands, and a derived one again in
//! each crate that lets a value of the type go.
#![tactic(auto)]

mod boxed;
mod items;

pub use boxed::Boxed;
pub use items::Items;
