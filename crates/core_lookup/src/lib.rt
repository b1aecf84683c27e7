//! Lookup of names, classes at a point, and access: what they are, and what is asked of whoever computes them.
#![tactic(auto)]

mod lookup;
mod step;

pub use lookup::Lookup;
pub use step::{AccessStep, ClassStep, FindStep};
