//! The layout of classes: where the parts of a class lie, and how large it is.
#![tactic(auto)]

mod arrange;
mod laws;
mod part;

pub use arrange::layout;
pub use laws::{is_the_least, no_two_overlap, parts_are_in_order, whole_is_aligned};
pub use part::{Layout, Part, TooLarge};
