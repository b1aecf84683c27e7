//! Types, which expressions and objects have: what a type is made of, and the layers over that.
#![tactic(auto)]

mod basic;
mod laws;
mod layering;
mod runs;
mod whole;

pub use basic::BasicType;
pub use laws::types_are_sent_and_shared;
pub use layering::Layers;
pub use runs::Layer;
pub use whole::CxxType;
